// A file placed.
#![tactic(auto)]

ghost use Rattle.std.specs.Prelude.{◌≡◌, true, ◌≤◌, length};
ghost use Rattle.placing_run.specs.Placing.{placing_of};
ghost use Rattle.board_bytes.specs.File.{good_file, head_of};
ghost use Rattle.board_file.specs.File.{FilePlaced, answer_of, file_outcome, file_answers_left, file_rows_left, file_columns_left, file_items_left};

use board_bytes::header::{Head, read_header};
use board_bytes::items::read_items;
use grid_track_counts::TrackCounts;
use hoarbale_placing::place;
use placing_request::flow::Flow;
use placing_run::checked::Placed;
use refusals::Refusal;

// The item count and the final counts.
#[derive(Clone, Copy)]
pub struct PlacedFile {
    pub count: u16,
    pub columns: TrackCounts,
    pub rows: TrackCounts,
}

// More than 2000 items are refused by their count, after the flow, as the door would: their numbers need no place.
fn place_good(
    bytes: &[u8],
    head: Head,
    items: &mut [i16],
    answers: &mut [i16],
    row_list: &mut [i16],
    column_list: &mut [i16],
) -> Result<PlacedFile, Refusal>
    requires bytes_value { good_file bytes.now ≡ true }
    requires head_value { head ≡ head_of bytes.now }
    requires in_bounds { 12000 ≤ length items.old }
    ensures value { result ≡ answer_of head.count (placing_of (file_outcome bytes.now (length answers.old) (length column_list.old) (length row_list.old))) }
    ensures after { items.new ≡ file_items_left bytes.now items.old }
    ensures answers_after { answers.new ≡ file_answers_left bytes.now (length answers.old) (length column_list.old) (length row_list.old) answers.old }
    ensures row_list_after { row_list.new ≡ file_rows_left bytes.now (length answers.old) (length column_list.old) (length row_list.old) row_list.old }
    ensures column_list_after { column_list.new ≡ file_columns_left bytes.now (length answers.old) (length column_list.old) (length row_list.old) column_list.old }
{
    if head.count > 2000 {
        Flow::try_from(head.flow)?;
        return Err(Refusal::WrongItemNumbers);
    }
    let n = 6 * head.count as usize;
    read_items(bytes, items, n);
    let Placed { columns, rows } = place(
        head.flow,
        head.columns,
        head.rows,
        &items[..n],
        answers,
        row_list,
        column_list,
    )?;
    Ok(PlacedFile {
        count: head.count,
        columns,
        rows,
    })
}

// Places the items of a file. Bytes that are no file are refused by 12 and change no buffer.
pub fn place_file(
    bytes: &[u8],
    items: &mut [i16; 12000],
    answers: &mut [i16],
    row_list: &mut [i16],
    column_list: &mut [i16],
) -> Result<PlacedFile, Refusal>
    ensures { FilePlaced bytes.now items.old answers.old row_list.old column_list.old result items.new answers.new row_list.new column_list.new }
{
    let head = read_header(bytes)?;
    place_good(bytes, head, items, answers, row_list, column_list)
}
