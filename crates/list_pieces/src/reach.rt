// Which records of a list the paint of one track reaches: all but those that are early or late. Both are searched for from behind.
ghost use Rattle.std.specs.Prelude.{◌≡◌, ◌+◌, ◌-◌, ◌*◌, ◌≤◌, ◌<◌, length, true, false};
ghost use Rattle.std.proofs.Common.{of_z};
ghost use Rattle.std.specs.Int.{w16};
ghost use Rattle.theory_intervals.specs.Paint.{pt};
ghost use Rattle.list_moves.specs.Fours.{four_at};
ghost use Rattle.theory_intervals.specs.Cut.{gapb, lx};
ghost use Rattle.list_pieces.specs.Reach.{early_r, late_r, before_late, after_early};
ghost use Rattle.list_pieces.specs.Passes.{Tail};

use list_areas::Stroke;
use list_rules::Records;
use list_tracks::lower;

// Reading order: by track, then position. Written out since the searches below spend their time here: with `<` of tuples they take almost three times
// as long.
fn before(t: i16, p: i16, u: i16, q: i16) -> bool
    ensures { result ≡ lx (pt t p) (pt u q) }
{
    if t < u {
        return true;
    }
    if u < t {
        return false;
    }
    p < q
}

// Whether a run that ends at (t, p) with state v may stand before one that starts at (u, q) with state s: it ends before, or touches and differs.
// In branches, since the searches below ask it of each record: as one expression of `||` and `&&` a paint takes up to a seventh more instructions.
fn gap(t: i16, p: i16, v: i16, u: i16, q: i16, s: i16) -> bool
    ensures { result ≡ gapb lx (pt t p) (of_z w16 v) (pt u q) (of_z w16 s) }
{
    if before(t, p, u, q) {
        return true;
    }
    if before(u, q, t, p) {
        return false;
    }
    v != s
}

// The record at `at` ends before the area on track t, and may stand there beside it.
fn early(list: &[i16], at: usize, t: i16, stroke: Stroke) -> bool
    requires { at + 4 ≤ length list.now }
    ensures { result ≡ early_r (four_at list.now at) t stroke.start (of_z w16 stroke.state) }
{
    gap(
        list[at],
        list[at + 2],
        list[at + 3],
        t,
        stroke.start,
        stroke.state,
    )
}

// The record at `at` starts behind the area on track t, and may stand there beside it.
fn late(list: &[i16], at: usize, t: i16, stroke: Stroke) -> bool
    requires { at + 4 ≤ length list.now }
    ensures { result ≡ late_r (four_at list.now at) t stroke.end (of_z w16 stroke.state) }
{
    gap(
        t,
        stroke.end,
        stroke.state,
        list[at],
        list[at + 1],
        list[at + 3],
    )
}

// How many of the first n records there are before those at the end that are late.
#[tactic(auto, using(crate::proofs::Bits::last_yes, crate::proofs::Bits::last_no))]
pub fn before_late(list: &[i16], n: usize, t: i16, stroke: Stroke) -> usize
    requires { 4 * n ≤ length list.now }
    ensures within { result ≤ n }
    ensures value { result ≡ before_late list.now t stroke.end (of_z w16 stroke.state) n }
{
    for i in (0..n).rev() {
        if !late(list, 4 * i, t, stroke) {
            return i + 1;
        }
    }
    0
}

// How many of the first n records there are up to the last that is early.
#[tactic(auto, using(crate::proofs::Bits::first_yes, crate::proofs::Bits::first_no))]
pub fn after_early(list: &[i16], n: usize, t: i16, stroke: Stroke) -> usize
    requires { 4 * n ≤ length list.now }
    ensures within { result ≤ n }
    ensures value { result ≡ after_early list.now t stroke.start (of_z w16 stroke.state) n }
{
    for i in (0..n).rev() {
        if early(list, 4 * i, t, stroke) {
            return i + 1;
        }
    }
    0
}

// How many records lie on tracks from `track` on: they are the last ones, and found by halving.
pub fn records_behind(records: Records, track: i16) -> usize
    ensures { Tail records.entry.list.now records.entry.used result track }
{
    records.used - lower(records, 0, track as i32)
}
