// A request that has passed the checks, by columns and rows: the flow names the primary axis.
ghost use Rattle.std.specs.Prelude.{◌≡◌, length, None};
ghost use Rattle.theory_walk.specs.Request.{checked, outcome, answers_left, rows_left, columns_left};
ghost use Rattle.placing_request.specs.Flows.{flow_number};
ghost use Rattle.placing_request.specs.Items.{request_of};
ghost use Rattle.placing_run.specs.Placing.{placing_of};

use crate::run::place_items;
use grid_track_counts::TrackCounts;
use placing_laying::Run;
use placing_request::Items;
use placing_request::flow::Flow;
use refusals::Refusal;

// The final counts.
#[derive(Clone, Copy)]
pub struct Placed {
    pub columns: TrackCounts,
    pub rows: TrackCounts,
}

// Only the answer places of the items are lent on, so that no place past them can be touched.
pub fn place_checked(
    flow: Flow,
    columns: TrackCounts,
    rows: TrackCounts,
    items: &[i16],
    answers: &mut [i16],
    row_list: &mut [i16],
    column_list: &mut [i16],
) -> Result<Placed, Refusal>
    requires { checked (request_of (flow_number flow) columns rows items.now (length answers.old) (length column_list.old) (length row_list.old)) ≡ None }
    ensures value { result ≡ placing_of (outcome (request_of (flow_number flow) columns rows items.now (length answers.old) (length column_list.old) (length row_list.old))) }
    ensures answers_after { answers.new ≡ answers_left (request_of (flow_number flow) columns rows items.now (length answers.old) (length column_list.old) (length row_list.old)) answers.old (outcome (request_of (flow_number flow) columns rows items.now (length answers.old) (length column_list.old) (length row_list.old))) }
    ensures row_list_after { row_list.new ≡ rows_left (request_of (flow_number flow) columns rows items.now (length answers.old) (length column_list.old) (length row_list.old)) row_list.old (outcome (request_of (flow_number flow) columns rows items.now (length answers.old) (length column_list.old) (length row_list.old))) }
    ensures column_list_after { column_list.new ≡ columns_left (request_of (flow_number flow) columns rows items.now (length answers.old) (length column_list.old) (length row_list.old)) column_list.old (outcome (request_of (flow_number flow) columns rows items.now (length answers.old) (length column_list.old) (length row_list.old))) }
{
    let items = Items { numbers: items };
    let answers = &mut answers[..5 * items.len()];
    let run = Run {
        columns: flow.has_columns_primary(),
        dense: flow.is_dense(),
        items,
    };
    if run.columns {
        let matrix = place_items(run, columns, rows, answers, column_list, row_list)?;
        Ok(Placed {
            columns: matrix.primary,
            rows: matrix.secondary,
        })
    } else {
        let matrix = place_items(run, rows, columns, answers, row_list, column_list)?;
        Ok(Placed {
            columns: matrix.secondary,
            rows: matrix.primary,
        })
    }
}
