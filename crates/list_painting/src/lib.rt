// Changing a row list or a column list: counting the records that a paint leaves, painting, clearing. A list is changed in place, without
// scratch memory, in time in proportion to its records and to the tracks crossed; where the area lies behind the last record, to its tracks.

#![tactic(auto)]

ghost use Rattle.std.specs.Prelude.{◌≡◌, true, ◌+◌, ◌*◌, ◌≤◌, ◌<◌, ltb, length, replicate, pos, Some, None};
ghost use Rattle.theory_signed.specs.Parts.{gap};
ghost use Rattle.list_areas.specs.Meant.{meant};
ghost use Rattle.list_pieces.specs.Passes.{Tail};
ghost use Rattle.list_rules.specs.Held.{held};
ghost use Rattle.theory_intervals.specs.OverInt.{flat, paint_list};
ghost use Rattle.theory_intervals.specs.Lists.{recs, Holds};

use list_areas::Area;
use list_in_place::paint_tracks;
use list_pieces::pieces::cut_track;
use list_pieces::reach::records_behind;
use list_rules::Records;
use list_sweeps::sweep;

// How many records there are once the area is painted. Tracks are gone through from the last to the first, and records likewise.
pub fn count_painted(records: Records, area: Area) -> usize
    ensures { result ≡ length (paint_list (meant area) (held records.entry)) }
{
    let mut left = records.used - records_behind(records, area.track_end);
    let mut more = 0;
    let mut less = 0;
    for track in (area.track_start..area.track_end).rev() {
        let cut = cut_track(records.list, left, track, area.stroke);
        more += cut.pieces.count();
        less += cut.past - cut.first;
        left = cut.first;
    }
    records.used + more - less
}

// Paints an area for which there is room: `total` is what `count_painted` gives. Tracks on which the records get no more are painted first, then
// the others, so that no more than `total` places are ever asked for.
pub fn repaint(list: &mut [i16], used: usize, area: Area, total: usize) -> usize
    requires holds { Holds list.old used }
    requires total_value { total ≡ length (paint_list (meant area) (recs used list.old)) }
    requires total_in_bounds { 4 * total ≤ length list.old }
    ensures value { result ≡ length (paint_list (meant area) (recs used list.old)) }
    ensures list_after { list.new ≡ flat (length list.old) (paint_list (meant area) (recs used list.old)) }
{
    let behind = records_behind(Records { list, used }, area.track_end);
    let n = sweep(list, used, behind, used, area, false);
    sweep(list, n, behind, total, area, true)
}

// Whether there is room however the area's tracks are cut: each is left with at most two records more.
fn is_roomy(numbers: usize, used: usize, area: Area) -> bool
    requires { 4 * used ≤ numbers }
    ensures { result ≡ true → 4 * (used + 2 * gap area.track_start area.track_end) ≤ numbers }
{
    2 * area.tracks() <= numbers / 4 - used
}

// Paints an area for which there is room however its tracks are cut: track by track where little lies behind it, else in one sweep.
fn paint_roomy(list: &mut [i16], used: usize, behind: usize, area: Area) -> usize
    requires holds { Holds list.old used }
    requires tail { Tail list.old used behind area.track_end }
    requires room { 4 * (used + 2 * gap area.track_start area.track_end) ≤ length list.old }
    ensures value { result ≡ length (paint_list (meant area) (recs used list.old)) }
    ensures list_after { list.new ≡ flat (length list.old) (paint_list (meant area) (recs used list.old)) }
{
    let tracks = area.tracks();
    if tracks <= 16 && behind <= 32 {
        return paint_tracks(list, used, behind, area);
    }
    sweep(list, used, behind, used + 2 * tracks, area, true)
}

// Whether the list has too few places for the records that there are once the area is painted. They are counted only where it can be.
#[tactic(auto, using(theory_intervals::proofs::Lists::holds_room))]
pub fn is_short(records: Records, area: Area) -> bool
    ensures { result ≡ ltb (length records.entry.list.now) (4 * length (paint_list (meant area) (held records.entry))) }
{
    let numbers = records.list.len();
    if is_roomy(numbers, records.used, area) {
        return false;
    }
    // The division keeps within a usize, which four times the records need not.
    numbers / 4 < count_painted(records, area)
}

// Paints an area whose records fit. One sweep moves the records behind the area twice, so where they are many the records are counted
// first, and those behind move once.
#[tactic(auto, using(theory_intervals::proofs::Lists::holds_room))]
pub fn paint_fitting(list: &mut [i16], used: usize, area: Area) -> usize
    requires holds { Holds list.old used }
    requires in_bounds { 4 * length (paint_list (meant area) (recs used list.old)) ≤ length list.old }
    ensures value { result ≡ length (paint_list (meant area) (recs used list.old)) }
    ensures list_after { list.new ≡ flat (length list.old) (paint_list (meant area) (recs used list.old)) }
{
    let behind = records_behind(Records { list, used }, area.track_end);
    if behind < 512 && is_roomy(list.len(), used, area) {
        return paint_roomy(list, used, behind, area);
    }
    let total = count_painted(Records { list, used }, area);
    repaint(list, used, area, total)
}

// Paints the area, if there is room for what the list rules need afterwards: how many records there are then.
pub fn paint(list: &mut [i16], used: usize, area: Area) -> Option<usize>
    requires { Holds list.old used }
    ensures painted { 4 * length (paint_list (meant area) (recs used list.old)) ≤ length list.old → (result ≡ Some (length (paint_list (meant area) (recs used list.old)))) × (list.new ≡ flat (length list.old) (paint_list (meant area) (recs used list.old))) }
    ensures refused { length list.old < 4 * length (paint_list (meant area) (recs used list.old)) → (result ≡ None) × (list.new ≡ list.old) }
{
    if is_short(Records { list, used }, area) {
        return None;
    }
    Some(paint_fitting(list, used, area))
}

// Zeros everywhere: a list that holds nothing.
pub fn clear(list: &mut [i16])
    ensures { list.new ≡ replicate (length list.old) (pos 0) }
{
    list.fill(0);
}
