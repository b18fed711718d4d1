// The checks 1 to 6 of a placement run, in that order.
ghost use Rattle.std.specs.Prelude.{◌≡◌};
ghost use Rattle.theory_walk.specs.Request.{checked};
ghost use Rattle.placing_request.specs.Items.{request_of, check_of};

use crate::first_bad;
use crate::flow::Flow;
use grid_track_counts::TrackCounts;
use list_rules::length_is_good;
use refusals::Refusal;

// The flow of a request that may be placed. The buffers are told by their lengths: nothing that they hold is looked at.
pub fn check_request(
    flow: u8,
    columns: TrackCounts,
    rows: TrackCounts,
    items: &[i16],
    answers: usize,
    column_list: usize,
    row_list: usize,
) -> Result<Flow, Refusal>
    ensures { result ≡ check_of flow (checked (request_of flow columns rows items.now answers column_list row_list)) }
{
    let flow = Flow::try_from(flow)?;
    let n = items.len() / 6;
    if items.len() % 6 != 0 || n > 2000 {
        return Err(Refusal::WrongItemNumbers);
    }
    if !columns.are_good() || !rows.are_good() {
        return Err(Refusal::CountsOutsideLimits);
    }
    if answers < 5 * n {
        return Err(Refusal::ShortAnswers);
    }
    if !length_is_good(column_list) || !length_is_good(row_list) {
        return Err(Refusal::WrongListLength);
    }
    match first_bad(items) {
        Some(i) => Err(Refusal::BadItem(i)),
        None => Ok(flow),
    }
}
