// The door: the placement call, and the promises of every public call of document 01.
#![tactic(auto)]

ghost use Rattle.std.specs.Prelude.{◌≡◌, length};
ghost use Rattle.theory_walk.specs.Request.{outcome, answers_left, rows_left, columns_left};
ghost use Rattle.placing_request.specs.Items.{request_of};
ghost use Rattle.placing_run.specs.Placing.{placing_of};

use grid_track_counts::TrackCounts;
use placing_request::checks::check_request;
use placing_run::checked::{Placed, place_checked};
use refusals::Refusal;

// Places the items: the checks 1 to 6 change no buffer, and then both lists are cleared and the items placed.
pub fn place(
    flow: u8,
    columns: TrackCounts,
    rows: TrackCounts,
    items: &[i16],
    answers: &mut [i16],
    row_list: &mut [i16],
    column_list: &mut [i16],
) -> Result<Placed, Refusal>
    ensures value { result ≡ placing_of (outcome (request_of flow columns rows items.now (length answers.old) (length column_list.old) (length row_list.old))) }
    ensures answers_after { answers.new ≡ answers_left (request_of flow columns rows items.now (length answers.old) (length column_list.old) (length row_list.old)) answers.old (outcome (request_of flow columns rows items.now (length answers.old) (length column_list.old) (length row_list.old))) }
    ensures row_list_after { row_list.new ≡ rows_left (request_of flow columns rows items.now (length answers.old) (length column_list.old) (length row_list.old)) row_list.old (outcome (request_of flow columns rows items.now (length answers.old) (length column_list.old) (length row_list.old))) }
    ensures column_list_after { column_list.new ≡ columns_left (request_of flow columns rows items.now (length answers.old) (length column_list.old) (length row_list.old)) column_list.old (outcome (request_of flow columns rows items.now (length answers.old) (length column_list.old) (length row_list.old))) }
{
    let flow = check_request(
        flow,
        columns,
        rows,
        items,
        answers.len(),
        column_list.len(),
        row_list.len(),
    )?;
    place_checked(flow, columns, rows, items, answers, row_list, column_list)
}
