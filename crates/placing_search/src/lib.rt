// The searches of the placement walk. Each looks through one lent list of records, by jumps, and settles on the first place that
// is clear. None of them changes the list.
#![tactic(auto)]

ghost use Rattle.std.specs.Prelude.{◌≡◌, ◌≤◌, ℤ, pos, ◌+ℤ◌, ◌≤ℤ◌, ◌<ℤ◌};
ghost use Rattle.list_rules.specs.Held.{held};
ghost use Rattle.theory_walk.specs.Axis as Axis;
ghost use Rattle.theory_walk.specs.Search.{first_line, first_pair, places_to, at};
ghost use Rattle.placing_search.specs.Clear.{clear, whole_grid, Inside};

use grid_coordinates::Lines;
use list_jumps::{collision_between, occupied_track_jump};
use list_rules::Records;
use list_tracks::{lower, lower_ahead};

// The first line from `start` on at which a span lies clear of the records over the tracks. Each line is tried against the same
// records, so where they stand is found once.
pub fn first_free_line(records: Records, tracks: Lines, start: i16, span: u16) -> i16
    requires start_lt_end { tracks.start <ℤ tracks.end }
    requires le_span { (1 ≤ span) × ((span ≤ 10000) × (start ≤ℤ pos 20000)) }
    ensures { result ≡ first_line (λ y. clear (held records.entry) tracks (Axis.from y span)) start }
{
    let n = span as i16;
    let first = lower(records, 0, tracks.start as i32);
    let past = lower(records, first, tracks.end as i32);
    let mut line = start;
    while let Some(next) = collision_between(records.list, first, past, line, line + n) {
        line = next;
    }
    line
}

// The first track line from `start` on from which `span` tracks have no record at all: for a tile as wide as the grid, which has
// room on tracks without a record and on no others.
pub fn first_free_stripe(records: Records, start: i16, span: u16) -> i16
    requires { (1 ≤ span) × ((span ≤ 10000) × (start ≤ℤ pos 20000)) }
    ensures { result ≡ first_line (λ x. clear (held records.entry) (Axis.from x span) whole_grid) start }
{
    let m = span as i16;
    let mut track = start;
    while let Some(after) = occupied_track_jump(records, track, track + m) {
        track = after;
    }
    track
}

// A primary and a secondary line.
#[derive(Clone, Copy)]
pub struct Pair {
    pub primary: i16,
    pub secondary: i16,
}

// The first pair of lines at which a tile lies clear: on the secondary line of `from` those from its primary line on, then on each
// next secondary line those from the grid's start on, as long as the tile ends at or before the grid's end. The list's tracks are
// those of the secondary axis. A tile as wide as the grid has one place on a line, so its search goes by whole tracks. The records
// that a tile can meet on a secondary line are those from `first` up to `past`; those of the next line are right behind.
pub fn first_free_pair(
    records: Records,
    grid: Lines,
    primary_span: u16,
    secondary_span: u16,
    from: Pair,
) -> Pair
    requires le_primary_span { (1 ≤ primary_span) × (primary_span ≤ 10000) }
    requires le_secondary_span { (1 ≤ secondary_span) × (secondary_span ≤ 10000) }
    requires primary_span_bound { ((grid.start +ℤ pos primary_span) ≤ℤ grid.end) × (grid.end ≤ℤ pos 10000) }
    requires inside { Inside (held records) grid.start grid.end }
    requires primary_bound { (from.primary ≤ℤ pos 20000) × (from.secondary ≤ℤ pos 12000) }
    ensures { at result.primary result.secondary ≡ first_pair (places_to grid.end primary_span) grid.start (λ y x. clear (held records.entry) (Axis.from x secondary_span) (Axis.from y primary_span)) from.primary from.secondary }
{
    let grid_start = grid.start;
    let grid_end = grid.end;
    let n = primary_span as i16;
    let m = secondary_span as i16;
    let last = grid_end - n;
    let mut primary = from.primary;
    let mut secondary = from.secondary;
    let mut first = lower(records, 0, secondary as i32);
    let mut past = lower(records, first, (secondary + m) as i32);
    let line = 'search: loop {
        if primary == grid_start && last == grid_start {
            secondary = first_free_stripe(records, secondary, secondary_span);
            break 'search grid_start;
        }
        while primary + n <= grid_end {
            let Some(next) = collision_between(records.list, first, past, primary, primary + n)
            else {
                break 'search primary;
            };
            primary = next;
        }
        secondary += 1;
        primary = grid_start;
        first = lower_ahead(records, first, secondary as i32);
        past = lower_ahead(records, past, (secondary + m) as i32);
    };
    Pair {
        primary: line,
        secondary,
    }
}
