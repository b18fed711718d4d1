// Calls on one list. A returned part of a list becomes its start and its length.
ghost use Rattle.std.specs.Prelude.{◌≡◌};
ghost use Rattle.list_tracks.specs.Tracks.{records_of_track, named, Stands};
ghost use Rattle.list_areas.specs.Areas.{area_of};
ghost use Rattle.refusals.specs.Numbers.{number_of};
ghost use Rattle.hoarbale_lists.specs.Lists.{paint_answer, paint_left, collision_answer, occupied_answer};
ghost use Rattle.hoarbale_c.specs.Lists.{of_jump};

use refusals::Refusal;

#[repr(C)]
#[derive(Clone, Copy)]
pub struct NextLine {
    pub number: u8,
    pub found: bool,
    pub line: i16,
}

#[repr(C)]
#[derive(Clone, Copy)]
pub struct PartOfList {
    pub start: usize,
    pub length: usize,
}

// 0 where the area was painted.
#[unsafe(no_mangle)]
pub extern "C" fn hoarbale_paint(
    list: &mut [i16],
    track_start: i16,
    track_end: i16,
    start: i16,
    end: i16,
    state: i16,
) -> u8
    ensures value { result ≡ number_of (paint_answer list.old (area_of track_start track_end start end state)) }
    ensures list_after { list.new ≡ paint_left list.old (area_of track_start track_end start end state) }
{
    match hoarbale_lists::paint(list, track_start, track_end, start, end, state) {
        Ok(()) => 0,
        Err(refusal) => refusal.number(),
    }
}

impl From<Result<Option<i16>, Refusal>> for NextLine {
    ghost from_gives = { λ answer next. next ≡ of_jump answer };

    fn from(answer: Result<Option<i16>, Refusal>) -> NextLine {
        let (number, found, line) = match answer {
            Ok(Some(line)) => (0, true, line),
            Ok(None) => (0, false, 0),
            Err(refusal) => (refusal.number(), false, 0),
        };
        NextLine {
            number,
            found,
            line,
        }
    }
}

#[unsafe(no_mangle)]
pub extern "C" fn hoarbale_collision_jump(
    list: &[i16],
    track_start: i16,
    track_end: i16,
    start: i16,
    end: i16,
) -> NextLine
    ensures { result ≡ of_jump (collision_answer list.now track_start track_end start end) }
{
    NextLine::from(hoarbale_lists::collision_jump(list, track_start, track_end, start, end))
}

#[unsafe(no_mangle)]
pub extern "C" fn hoarbale_occupied_track_jump(
    list: &[i16],
    track_start: i16,
    track_end: i16,
) -> NextLine
    ensures { result ≡ of_jump (occupied_answer list.now track_start track_end) }
{
    NextLine::from(hoarbale_lists::occupied_track_jump(list, track_start, track_end))
}

// Where the part stands that `records_of_track` gives; at 0 where it is empty.
#[unsafe(no_mangle)]
pub extern "C" fn hoarbale_records_of_track(
    rows: &[i16],
    columns: &[i16],
    axis: u8,
    track: i16,
) -> PartOfList
    ensures { Stands (named rows.now columns.now axis) track (records_of_track rows.now columns.now axis track) result.start result.length }
{
    let place = list_tracks::track_place(rows, columns, axis, track);
    PartOfList {
        start: place.start,
        length: place.length,
    }
}
