// The records of a track: a part of a list that keeps its rules, found by halving, or by going from record to record where they are near.
#![tactic(auto)]

ghost use Rattle.std.specs.Prelude.{◌≡◌, ℕ, ◌+◌, ◌-◌, ◌*◌, ◌≤◌, ◌<◌, ℤ, ◌<ℤ◌};
ghost use Rattle.theory_intervals.specs.OverInt.{encode};
ghost use Rattle.theory_intervals.specs.Lists.{on_track};
ghost use Rattle.list_tracks.specs.Tracks.{track_of, records_of_track, Stands, named};
ghost use Rattle.list_rules.specs.Held.{held};
ghost use Rattle.list_rules.specs.Inner.{track_no, Front, Split, Part, Tail};

use list_rules::{Records, kept, length_is_good, number};

// Where a part of a list stands: the place of its first number, and how many numbers it has. An empty part stands at 0.
#[derive(Clone, Copy)]
pub struct Place {
    pub start: usize,
    pub length: usize,
}

impl Place {
    const NOWHERE: Place = Place {
        start: 0,
        length: 0,
    };
}

// The first record from `from` on whose track is not below x, by halving. x is wide enough for the track behind any track.
fn halved(records: Records, from: usize, x: i32) -> usize
    requires from_le_used { from ≤ records.used }
    requires by_index { (k : ℕ) → k < from → track_no records.list.now k <ℤ x }
    ensures { (from ≤ result) × Split records.entry.list.now records.entry.used x result }
{
    let (fours, _) = records.list.as_chunks::<4>();
    from + fours[from..records.used].partition_point(|record| (record[0] as i32) < x)
}

// The same. Often it is behind all records, which the last record tells.
pub fn lower(records: Records, from: usize, x: i32) -> usize
    requires from_le_used { from ≤ records.used }
    requires by_index { (k : ℕ) → k < from → track_no records.list.now k <ℤ x }
    ensures { (from ≤ result) × Split records.entry.list.now records.entry.used x result }
{
    let used = records.used;
    if from < used {
        let last = number(records.list, 4 * (used - 1)) as i32;
        if last < x {
            return used;
        }
    }
    halved(records, from, x)
}

// The same place by going forward from `from`, record by record: for a place that is near, where halving the list is dearer.
pub fn lower_ahead(records: Records, from: usize, x: i32) -> usize
    requires from_le_used { from ≤ records.used }
    requires by_index { (k : ℕ) → k < from → track_no records.list.now k <ℤ x }
    ensures { (from ≤ result) × Split records.entry.list.now records.entry.used x result }
{
    for k in from..records.used {
        let track = number(records.list, 4 * k) as i32;
        if x <= track {
            return k;
        }
    }
    records.used
}

// Where the track of the last record before `to` begins, by going back from there. The list begins on a lower track, so some record
// stops it.
fn track_back(list: &[i16], to: usize) -> usize
    requires front { Front list.now to }
    requires to_nonzero { 0 < to }
    requires list_bound { track_no list.now 0 <ℤ track_no list.now (to - 1) }
    ensures { Split list.now to (track_no list.now (to - 1)) result }
{
    let track = number(list, 4 * (to - 1));
    let mut k = to - 1;
    while track <= number(list, 4 * (k - 1)) {
        k -= 1;
    }
    k
}

// Where the last track among the records from `from` up to `to` begins. Often they are all on one track, and then its two ends tell.
fn last_begin(list: &[i16], from: usize, to: usize) -> usize
    requires front { Front list.now to }
    requires from_lt_to { from < to }
    requires by_index { (k : ℕ) → k < from → track_no list.now k <ℤ track_no list.now (to - 1) }
    ensures { (from ≤ result) × Split list.now to (track_no list.now (to - 1)) result }
{
    if number(list, 4 * (to - 1)) <= number(list, 4 * from) {
        return from;
    }
    track_back(list, to)
}

// The records of the last track among those from `from` up to `to`.
pub fn last_track<'a>(list: &'a [i16], from: usize, to: usize) -> &'a [i16]
    requires front { Front list.now to }
    requires from_lt_to { from < to }
    requires by_index { (k : ℕ) → k < from → track_no list.now k <ℤ track_no list.now (to - 1) }
    ensures { Tail list.now from to result.now }
{
    let a = last_begin(list, from, to);
    &list[4 * a..4 * to]
}

// Where the records of one track stand.
fn place_in(records: Records, track: i16) -> Place
    ensures stands { Stands records.entry.list.now track (encode (on_track track (held records.entry))) result.start result.length }
    ensures part { Part records.entry.list.now records.entry.used track (encode (on_track track (held records.entry))) }
{
    let x = track as i32;
    let a = lower(records, 0, x);
    let b = lower(records, a, x + 1);
    if a == b {
        return Place::NOWHERE;
    }
    Place {
        start: 4 * a,
        length: 4 * b - 4 * a,
    }
}

// The records of one track.
pub fn track_part<'a>(records: Records<'a>, track: i16) -> &'a [i16]
    ensures result_value { result.now ≡ encode (on_track track (held records.entry)) }
    ensures part { Part records.entry.list.now records.entry.used track result.now }
{
    let Place { start, length } = place_in(records, track);
    &records.list[start..start + length]
}

// Where they stand in any list: nowhere if its length or its records break the rules.
fn place_or_none(list: &[i16], track: i16) -> Place
    ensures { Stands list.now track (track_of list.now track) result.start result.length }
{
    if !length_is_good(list.len()) {
        return Place::NOWHERE;
    }
    let Some(used) = kept(list) else {
        return Place::NOWHERE;
    };
    place_in(Records { list, used }, track)
}

// The records of a track of any list.
fn track_or_none<'a>(list: &'a [i16], track: i16) -> &'a [i16]
    ensures { result.now ≡ track_of list.now track }
{
    let Place { start, length } = place_or_none(list, track);
    &list[start..start + length]
}

// The records of a track in the list that the axis names: the columns (0) or the rows (1). The other list is not looked at.
pub fn records_of_track<'a>(rows: &'a [i16], cols: &'a [i16], axis: u8, track: i16) -> &'a [i16]
    ensures { result.now ≡ records_of_track rows.now cols.now axis track }
{
    match axis {
        0 => track_or_none(cols, track),
        1 => track_or_none(rows, track),
        _ => &[],
    }
}

// Where those records stand in the list that the axis names.
pub fn track_place(rows: &[i16], cols: &[i16], axis: u8, track: i16) -> Place
    ensures { Stands (named rows.now cols.now axis) track (records_of_track rows.now cols.now axis track) result.start result.length }
{
    match axis {
        0 => place_or_none(cols, track),
        1 => place_or_none(rows, track),
        _ => Place::NOWHERE,
    }
}
