// Calls of the door on one list.
#![tactic(auto)]

ghost use Rattle.std.specs.Prelude.{◌≡◌, true, false, IfOk, IfErr};
ghost use Rattle.list_tracks.specs.Tracks.{records_of_track};
ghost use Rattle.theory_intervals.specs.Lists.{good_area};
ghost use Rattle.list_areas.specs.Areas.{area_of};
ghost use Rattle.list_areas.specs.Meant.{meant};
ghost use Rattle.refusals.specs.declared.Refusal.TheVariants.{BadArea};
ghost use Rattle.hoarbale_lists.specs.Lists.{checked_of, paint_answer, paint_left, collision_answer, occupied_answer};

use list_areas::{Area, Stroke};
use list_rules::{Records, length_is_good};
use refusals::Refusal;

// How many records a list holds: its length is checked, then its rules.
#[tactic(auto, using(crate::proofs::Checking::checked_rules), unfolding(crate::specs::Lists::checked_of))]
fn checked_list(list: &[i16]) -> Result<usize, Refusal>
    ensures { result ≡ checked_of list.now }
{
    if !length_is_good(list.len()) {
        return Err(Refusal::WrongListLength);
    }
    list_rules::kept(list).ok_or(Refusal::BrokenList)
}

// The area that five numbers name, where it can be painted: both pairs in order, a state, and lines inside the limited grid.
fn checked_area(
    track_start: i16,
    track_end: i16,
    start: i16,
    end: i16,
    state: i16,
) -> Result<Area, Refusal>
    ensures taken { IfOk result (λ x. (meant x ≡ area_of track_start track_end start end state) × (good_area (area_of track_start track_end start end state) ≡ true)) }
    ensures refused { IfErr result (λ e. (e ≡ BadArea) × (good_area (area_of track_start track_end start end state) ≡ false)) }
{
    let good = track_start < track_end
        && start < end
        && 1 <= state
        && state <= 2
        && -10000 <= track_start
        && track_end <= 10000
        && -10000 <= start
        && end <= 10000;
    if !good {
        return Err(Refusal::BadArea);
    }
    Ok(Area {
        track_start,
        track_end,
        stroke: Stroke { start, end, state },
    })
}

// Paints one area: the tracks track_start..track_end and the lines start..end. A refused area leaves the list as it was.
#[tactic(auto, unfolding(crate::specs::Lists::paint_answer, crate::specs::Lists::paint_left))]
pub fn paint(
    list: &mut [i16],
    track_start: i16,
    track_end: i16,
    start: i16,
    end: i16,
    state: i16,
) -> Result<(), Refusal>
    ensures value { result ≡ paint_answer list.old (area_of track_start track_end start end state) }
    ensures list_after { list.new ≡ paint_left list.old (area_of track_start track_end start end state) }
{
    let used_before = checked_list(list)?;
    let area = checked_area(track_start, track_end, start, end, state)?;
    let painted = list_painting::paint(list, used_before, area);
    painted.ok_or(Refusal::ShortList)?;
    Ok(())
}

// The line where a search that meets what stands in the area's way can go on; none where the area is free.
#[tactic(auto, unfolding(crate::specs::Lists::collision_answer))]
pub fn collision_jump(
    list: &[i16],
    track_start: i16,
    track_end: i16,
    start: i16,
    end: i16,
) -> Result<Option<i16>, Refusal>
    ensures { result ≡ collision_answer list.now track_start track_end start end }
{
    let used = checked_list(list)?;
    if track_end <= track_start || end <= start {
        return Err(Refusal::BadArea);
    }
    Ok(list_jumps::collision_jump(Records { list, used }, track_start, track_end, start, end))
}

// One past the last track of the span that has a record; none where the span is free.
#[tactic(auto, unfolding(crate::specs::Lists::occupied_answer))]
pub fn occupied_track_jump(
    list: &[i16],
    track_start: i16,
    track_end: i16,
) -> Result<Option<i16>, Refusal>
    ensures { result ≡ occupied_answer list.now track_start track_end }
{
    let used = checked_list(list)?;
    if track_end <= track_start {
        return Err(Refusal::BadArea);
    }
    Ok(list_jumps::occupied_track_jump(Records { list, used }, track_start, track_end))
}

// The records of a track, as a part of the list that the axis names: 0 the columns, 1 the rows.
pub fn records_of_track<'a>(rows: &'a [i16], columns: &'a [i16], axis: u8, track: i16) -> &'a [i16]
    ensures { result.now ≡ records_of_track rows.now columns.now axis track }
{
    list_tracks::records_of_track(rows, columns, axis, track)
}
