// What becomes of the records that the paint of one track reaches: at most three.
ghost use Rattle.std.specs.Prelude.{◌≡◌, ◌+◌, ◌-◌, ◌*◌, ◌≤◌, length, drop, [], ◌∷◌, ℤ, IfSome};
ghost use Rattle.std.proofs.Common.{of_z};
ghost use Rattle.std.specs.Int.{w16};
ghost use Rattle.list_moves.specs.Fours.{fours};
ghost use Rattle.list_pieces.specs.Reach.{Apart, Reaches, four, start_of, left_of, end_of, Pieced, Built, OnTrack};
ghost use Rattle.list_pieces.specs.Pieces.{count, numbers};

use crate::reach::{after_early, before_late};
use list_areas::Stroke;

// Where the painted run starts: c, if a record that starts there in state v goes on in it.
fn start_of(c: i16, v: i16, stroke: Stroke) -> i16
    ensures { result ≡ start_of c (of_z w16 v) stroke.start (of_z w16 stroke.state) }
{
    if c < stroke.start && v == stroke.state {
        c
    } else {
        stroke.start
    }
}

// Where it ends: the same, seen from the other side.
fn end_of(d: i16, v: i16, stroke: Stroke) -> i16
    ensures { result ≡ end_of d (of_z w16 v) stroke.end (of_z w16 stroke.state) }
{
    if stroke.end < d && stroke.state == v {
        d
    } else {
        stroke.end
    }
}

// Whether something is left of one record beside another: the lines from `from` on in state v, before those from `to` on in state s.
fn left_of(from: i16, v: i16, to: i16, s: i16) -> bool
    ensures { result ≡ left_of from (of_z w16 v) to (of_z w16 s) }
{
    from < to && v != s
}

// One to three records, as they stand in a list.
#[derive(Clone, Copy)]
pub enum Pieces {
    One([i16; 4]),
    Two([i16; 8]),
    Three([i16; 12]),
}

impl Pieces {
    pub fn count(&self) -> usize
        ensures { result ≡ count self.now }
    {
        match self {
            Pieces::One(_) => 1,
            Pieces::Two(_) => 2,
            Pieces::Three(_) => 3,
        }
    }

    pub fn numbers(&self) -> &[i16]
        ensures { result.now ≡ numbers self.now }
    {
        match self {
            Pieces::One(numbers) => numbers,
            Pieces::Two(numbers) => numbers,
            Pieces::Three(numbers) => numbers,
        }
    }
}

// What becomes of the records that the paint reaches, the first of which starts at c in state v, and the last ends at d in state z.
fn build(t: i16, c: i16, v: i16, d: i16, z: i16, stroke: Stroke) -> Pieces
    ensures long { length (numbers result) ≡ 4 * count result }
    ensures built { Built t c v d z stroke.start stroke.end stroke.state (fours (count result) (numbers result)) }
{
    let start = start_of(c, v, stroke);
    let end = end_of(d, z, stroke);
    let Stroke {
        start: a,
        end: b,
        state: s,
    } = stroke;
    match (left_of(c, v, a, s), left_of(b, s, d, z)) {
        (false, false) => Pieces::One([t, start, end, s]),
        (true, false) => Pieces::Two([t, c, a, v, t, start, end, s]),
        (false, true) => Pieces::Two([t, start, end, s, t, b, d, z]),
        (true, true) => Pieces::Three([t, c, a, v, t, start, end, s, t, b, d, z]),
    }
}

// What becomes of the records i..j, which are those that the paint of track t reaches.
fn cut_out(list: &[i16], i: usize, j: usize, t: i16, stroke: Stroke) -> Pieces
    requires i_le_j { (i ≤ j) × (4 * j ≤ length list.now) }
    requires on_track { OnTrack list.now i j t }
    ensures long { length (numbers result) ≡ 4 * count result }
    ensures pieced { Pieced t stroke.start stroke.end (of_z w16 stroke.state) (fours (j - i) (drop (4 * i) list.now)) (fours (count result) (numbers result)) }
{
    if i == j {
        return Pieces::One([t, stroke.start, stroke.end, stroke.state]);
    }
    let last = 4 * (j - 1);
    build(
        t,
        list[4 * i + 1],
        list[4 * i + 3],
        list[last + 2],
        list[last + 3],
        stroke,
    )
}

// The lines of the record that the records i..j become, which are those that the paint of a track reaches; none, if they become more than one. Mostly
// there is one: the paint fills free places, or goes on from a record in the same state.
pub fn joined(list: &[i16], i: usize, j: usize, stroke: Stroke) -> Option<(i16, i16)>
    requires { (i ≤ j) × (4 * j ≤ length list.now) }
    ensures { (t : ℤ) → OnTrack list.now i j t → IfSome result (λ lines. Pieced t stroke.start stroke.end (of_z w16 stroke.state) (fours (j - i) (drop (4 * i) list.now)) (four t lines.0 lines.1 stroke.state ∷ [])) }
{
    if i == j {
        return Some((stroke.start, stroke.end));
    }
    let c = list[4 * i + 1];
    let v = list[4 * i + 3];
    let d = list[4 * (j - 1) + 2];
    let z = list[4 * (j - 1) + 3];
    if left_of(c, v, stroke.start, stroke.state) || left_of(stroke.end, stroke.state, d, z) {
        return None;
    }
    Some((start_of(c, v, stroke), end_of(d, z, stroke)))
}

// Which of the first n records the paint of one track reaches, first..past, and what becomes of them.
#[derive(Clone, Copy)]
pub struct Reached {
    pub first: usize,
    pub past: usize,
    pub pieces: Pieces,
}

pub fn cut_track(list: &[i16], n: usize, t: i16, stroke: Stroke) -> Reached
    requires n_in_bounds { 4 * n ≤ length list.now }
    requires apart { Apart list.now n t stroke.start stroke.end (of_z w16 stroke.state) }
    ensures { Reaches list.now n t stroke.start stroke.end (of_z w16 stroke.state) result.first result.past (count result.pieces) (numbers result.pieces) }
{
    let past = before_late(list, n, t, stroke);
    let first = after_early(list, past, t, stroke);
    Reached {
        first,
        past,
        pieces: cut_out(list, first, past, t, stroke),
    }
}
