// Where the items go that are left, and the cursor.
#![tactic(auto)]

ghost use Rattle.std.specs.Prelude.{◌≡◌, cond, ◌+◌, ◌/◌, ◌≤◌, ℤ, pos, ◌+ℤ◌, ◌<ℤ◌};
ghost use Rattle.std.specs.Int.{w16};
ghost use Rattle.std.proofs.Common.{SFits};
ghost use Rattle.list_rules.specs.Held.{held};
ghost use Rattle.grid_track_counts.specs.Counts.{Sound, grid_start, grid_end};
ghost use Rattle.theory_walk.specs.Axis as Axis;
ghost use Rattle.theory_walk.specs.Search.{at};
ghost use Rattle.theory_walk.specs.Walk.{bit, overwide};
ghost use Rattle.theory_walk.specs.declared.Placement.TheVariants.{Fixed, Spanned};
ghost use Rattle.theory_walk.proofs.Range.{CursorIn};
ghost use Rattle.placing_search.specs.Clear.{Inside};
ghost use Rattle.placing_step4_choice.specs.Cursor.{place_of, span_of, start_on, line_on, untested_line, pair_on};

use grid_coordinates::Lines;
use grid_track_counts::TrackCounts;
use list_rules::Records;
use placing_search::{Pair, first_free_line, first_free_pair};
use theory_walk::{Placement, spanned};

// Where an item goes that is fixed in neither axis, and the flags of its mark.
#[derive(Clone, Copy)]
pub struct Settled {
    pub place: Pair,
    pub flags: u16,
}

// Fixed lines ask for no span.
pub fn span_of(placement: Placement) -> u16
    ensures { result ≡ span_of placement }
{
    match placement {
        Placement::Fixed(_) => 0,
        Placement::Spanned(n) => n,
    }
}

// The secondary line from which on an item with fixed primary lines, of which `a` is the first, is tried. Sparse never goes back: on
// the cursor's line an item lies at the cursor or past it.
pub fn start_line(dense: bool, cursor: Pair, counts: TrackCounts, a: i16) -> i16
    requires sound { Sound counts }
    requires cursor_in { CursorIn 1999 (place_of cursor) }
    ensures { result ≡ start_on dense cursor counts a }
{
    if dense {
        counts.implicit_start_line().0
    } else if a < cursor.primary {
        cursor.secondary + 1
    } else {
        cursor.secondary
    }
}

// The secondary lines of an item whose primary lines p are fixed, by the secondary counts. The search is along the tracks p, so on the
// primary list's records.
pub fn settle_line(
    dense: bool,
    cursor: Pair,
    counts: TrackCounts,
    p: Lines,
    span: u16,
    records: Records,
) -> Lines
    requires sound { Sound counts }
    requires start_lt_end { p.start <ℤ p.end }
    requires le_span { (1 ≤ span) × (span ≤ 10000) }
    requires cursor_in { CursorIn 1999 (place_of cursor) }
    ensures { result ≡ Axis.from (line_on dense cursor counts p span (held records.entry)) span }
{
    let start = start_line(dense, cursor, counts, p.start);
    let line = first_free_line(records, p, start, span);
    spanned(line, span)
}

// The secondary line of an item that is too wide for the grid, whose first line is `start`. The item starts there, which is behind a
// cursor that stands further on: then it goes one line further.
pub fn untested_line(cursor: Pair, start: i16) -> i16
    requires { CursorIn 1999 (place_of cursor) }
    ensures { result ≡ untested_line cursor start }
{
    if cursor.primary == start {
        cursor.secondary
    } else {
        cursor.secondary + 1
    }
}

// The place of an item that takes n primary and m secondary tracks wherever they are free. On no secondary line is there a place for
// one that is wider than the grid, however far a search goes: it is laid untested, and marked. The counts are the primary ones, the
// records those of the secondary list.
pub fn settle_pair(cursor: Pair, counts: TrackCounts, n: u16, m: u16, records: Records) -> Settled
    requires sound { Sound counts }
    requires inside { Inside (held records) (grid_start counts) (grid_end counts) }
    requires le_n { (1 ≤ n) × (n ≤ 10000) }
    requires le_m { (1 ≤ m) × (m ≤ 10000) }
    requires cursor_in { CursorIn 1999 (place_of cursor) }
    ensures { (place_of result.place ≡ pair_on cursor counts n m (held records.entry)) × (result.flags ≡ bit 4 (overwide n counts)) }
{
    let start = counts.implicit_start_line().0;
    let end = counts.implicit_end_line().0;
    if end < start + n as i16 {
        let place = Pair {
            primary: start,
            secondary: untested_line(cursor, start),
        };
        Settled { place, flags: 4 }
    } else {
        let grid = Lines { start, end };
        let place = first_free_pair(records, grid, n, m, cursor);
        Settled { place, flags: 0 }
    }
}

// Sparse goes on behind the item, as it was before limiting; dense goes back to the lines read once, however the grid has grown.
pub fn next_cursor(dense: bool, once: Pair, p: Lines, s: Lines) -> Pair
    ensures { place_of result ≡ cond dense (place_of once) (at p.end s.start) }
{
    if dense {
        once
    } else {
        Pair {
            primary: p.end,
            secondary: s.start,
        }
    }
}
