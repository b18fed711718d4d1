// The two jumps over a row list or a column list. A list is lent and never changed here.
#![tactic(auto)]

ghost use Rattle.std.specs.Prelude.{◌≡◌, ◌/◌, length, ℤ, ◌<ℤ◌};
ghost use Rattle.theory_intervals.specs.Lists.{recs};
ghost use Rattle.list_jumps.specs.Calls.{extent_of, larger, collision_jump, occupied_jump};
ghost use Rattle.list_rules.specs.Held.{held};
ghost use Rattle.list_rules.specs.Inner.{Ascends, Crosses, Starting, Bounded};

use list_rules::{Records, number};
use list_tracks::{last_track, lower};

// The records before lo start before a line, and those from hi on don't.
#[derive(Clone, Copy)]
struct Bounds {
    pub lo: usize,
    pub hi: usize,
}

// Bounds at most 8 records apart for the line `end`, by halving: the records are in order. It is written out, since std's
// `partition_point` takes an eighth more instructions here.
fn narrowed(part: &[i16], end: i16) -> Bounds
    requires { Ascends part.now (length part.now / 4) }
    ensures { Bounded part.now (length part.now / 4) end result.lo result.hi }
{
    let mut lo: usize = 0;
    let mut hi = part.len() / 4;
    while 8 < hi - lo {
        let mid = lo + (hi - lo) / 2;
        let begins = number(part, 4 * mid + 1);
        if begins < end {
            lo = mid + 1;
        } else {
            hi = mid;
        }
    }
    Bounds { lo, hi }
}

// How many records of the part start before `end`. The last few steps go record by record, which is cheaper there than halving.
fn starting_before(part: &[i16], end: i16) -> usize
    requires { Ascends part.now (length part.now / 4) }
    ensures { Starting part.now (length part.now / 4) end result }
{
    let Bounds { lo, hi } = narrowed(part, end);
    for k in (lo..hi).rev() {
        if number(part, 4 * k + 1) < end {
            return k + 1;
        }
    }
    lo
}

// The end of the last record of the part that overlaps start..end. The records are in order, so the last one that starts before
// `end` decides.
pub fn collision_extent(part: &[i16], start: i16, end: i16) -> Option<i16>
    requires { Ascends part.now (length part.now / 4) }
    ensures { result ≡ extent_of (recs (length part.now / 4) part.now) start end }
{
    let k = starting_before(part, end);
    if k == 0 {
        return None;
    }
    let ends = number(part, 4 * (k - 1) + 2);
    (start < ends).then_some(ends)
}

// The larger of one track's answer and the answer of others.
#[tactic(auto, using(crate::proofs::Maximum::larger_max))]
fn larger(extent: Option<i16>, jump: Option<i16>) -> Option<i16>
    ensures { result ≡ larger extent jump }
{
    extent.max(jump)
}

// The largest, over the crossed tracks, of the end of the last overlapping record. The records of the crossed tracks are those from
// `first` up to `past`. On a track no record ends later than the last one that overlaps, so all of them are looked at alike: for few
// records that is cheaper than going by tracks.
fn collision_among(list: &[i16], first: usize, past: usize, start: i16, end: i16) -> Option<i16>
    requires { Crosses list.now first past }
    ensures { (c : Crosses list.now first past) → result ≡ collision_jump (recs c.used list.now) c.low c.high start end }
{
    let mut best = start;
    for k in first..past {
        if number(list, 4 * k + 1) < end {
            best = best.max(number(list, 4 * k + 2));
        }
    }
    (start < best).then_some(best)
}

// The same, of many records: they are taken track by track from behind, so that a track with no record costs nothing.
fn collision_by_tracks(list: &[i16], first: usize, past: usize, start: i16, end: i16) -> Option<i16>
    requires { Crosses list.now first past }
    ensures { (c : Crosses list.now first past) → result ≡ collision_jump (recs c.used list.now) c.low c.high start end }
{
    let mut k = past;
    let mut best = None;
    while first < k {
        let part = last_track(list, first, k);
        best = larger(collision_extent(part, start, end), best);
        k -= part.len() / 4;
    }
    best
}

// The same, of however many.
pub fn collision_between(
    list: &[i16],
    first: usize,
    past: usize,
    start: i16,
    end: i16,
) -> Option<i16>
    requires { Crosses list.now first past }
    ensures { (c : Crosses list.now first past) → result ≡ collision_jump (recs c.used list.now) c.low c.high start end }
{
    if past < first + 12 {
        return collision_among(list, first, past, start, end);
    }
    collision_by_tracks(list, first, past, start, end)
}

// The same of the tracks track_start..track_end, whose records are found by halving.
pub fn collision_jump(
    records: Records,
    track_start: i16,
    track_end: i16,
    start: i16,
    end: i16,
) -> Option<i16>
    requires { track_start <ℤ track_end }
    ensures { result ≡ collision_jump (held records.entry) track_start track_end start end }
{
    let first = lower(records, 0, track_start as i32);
    let past = lower(records, first, track_end as i32);
    collision_between(records.list, first, past, start, end)
}

// One past the last non-empty track of the span.
pub fn occupied_track_jump(records: Records, track_start: i16, track_end: i16) -> Option<i16>
    ensures { result ≡ occupied_jump (held records.entry) track_start track_end }
{
    let k = lower(records, 0, track_end as i32);
    if k == 0 {
        return None;
    }
    let track = number(records.list, 4 * (k - 1));
    (track_start <= track).then_some(track + 1)
}
