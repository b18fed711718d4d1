// The step for items whose secondary lines alone are fixed.
#![tactic(auto)]

ghost use Rattle.std.specs.Prelude.{◌≡◌, Some, None, cond, false, List, ℕ, ◌+◌, ◌*◌, ◌/◌, ◌≤◌, ◌<◌, ℤ, pos, length, ◌≤ℤ◌, ◌<ℤ◌};
ghost use Rattle.std.specs.Int.{w16};
ghost use Rattle.std.proofs.Common.{SFits};
ghost use Rattle.grid_track_counts.specs.Counts.{grid_start, Sound};
ghost use Rattle.list_rules.specs.Held.{held};
ghost use Rattle.placing_search.specs.Clear.{clear};
ghost use Rattle.theory_walk.specs.Axis as Axis;
ghost use Rattle.theory_walk.specs.Axis.{Both};
ghost use Rattle.theory_walk.specs.Rules.{mine2};
ghost use Rattle.theory_walk.specs.Search.{first_line};
ghost use Rattle.theory_walk.specs.Walk.{Board, largest_or, step2, each};
ghost use Rattle.placing_request.specs.Items.{queued};
ghost use Rattle.placing_laying.specs.Ready.{setting_for, Ready, AfterItem, AfterStep, primary_of, secondary_of};
ghost use Rattle.placing_step2.specs.Ends.{recorded_end, recorded_start, counted, starts_at, ends_before, Onward, start_of, Recorded, NoEnds, StandsAt, StandsFresh};

use grid_coordinates::Lines;
use grid_track_counts::TrackCounts;
use list_rules::Records;
use placing_laying::{Matrix, Run, State, lay};
use placing_search::first_free_line;
use refusals::Refusal;
use theory_walk::{Placement, spanned};

// The primary end and the secondary start that item j's answer records. Its columns come first there, whichever axis is primary.
fn recorded(columns: bool, answers: &[i16], j: usize) -> (i16, i16)
    requires { 5 * j + 5 ≤ length answers.now }
    ensures { result ≡ (recorded_end columns answers.now j, recorded_start columns answers.now j) }
{
    let answer = &answers[5 * j..5 * j + 5];
    if columns {
        (answer[1], answer[2])
    } else {
        (answer[3], answer[0])
    }
}

// Whether item j is one of this step's.
fn is_secondary_only(run: Run, j: usize) -> bool
    requires { j < length run.items.numbers.now / 6 }
    ensures { result ≡ mine2 (primary_of run.entry.columns run.entry.items.numbers.now j) (secondary_of run.entry.columns run.entry.items.numbers.now j) }
{
    !run.primary_placement(j).is_fixed() && run.secondary_placement(j).is_fixed()
}

// Item j's primary end, if it counts for an item that starts at the secondary line `start`. That of an item that only spans the line doesn't.
fn counted_end(run: Run, answers: &[i16], start: i16, j: usize) -> Option<i16>
    requires j_in_items { j < length run.items.numbers.now / 6 }
    requires j_in_bounds { 5 * j + 5 ≤ length answers.now }
    ensures { result ≡ cond (counted run.entry.columns run.entry.items.numbers.now answers.now start j) (Some (recorded_end run.entry.columns answers.now j)) None }
{
    let (end, recorded_start) = recorded(run.columns, answers, j);
    (recorded_start == start && is_secondary_only(run, j)).then_some(end)
}

// Whether item j starts at the secondary line `start` itself, and isn't only pressed onto it by limiting.
fn starts_at(run: Run, start: i16, j: usize) -> bool
    requires { j < length run.items.numbers.now / 6 }
    ensures { result ≡ starts_at (secondary_of run.entry.columns run.entry.items.numbers.now j) start }
{
    matches!(run.secondary_placement(j), Placement::Fixed(s) if s.start == start)
}

// The largest primary end of this step's items before item i that start at the secondary line `start`, or `none`. From the newest back: an
// item that starts there itself was searched from the largest end before it on, so nothing older ends later. One that is pressed onto the
// line was searched from elsewhere, so it may end earlier than an older one.
fn furthest_end(run: Run, i: usize, answers: &[i16], start: i16, none: i16) -> i16
    requires i_in_items { i ≤ length run.items.numbers.now / 6 }
    requires i_in_bounds { 5 * i ≤ length answers.now }
    requires onward { Onward run.columns run.items.numbers.now answers.now i }
    ensures sfits { SFits w16 result }
    ensures value { result ≡ largest_or none (ends_before run.entry.columns run.entry.items.numbers.now answers.now start i) }
{
    let mut furthest: Option<i16> = None;
    for j in (0..i).rev() {
        let Some(end) = counted_end(run, answers, start, j) else {
            continue;
        };
        furthest = Some(furthest.map_or(end, |before| end.max(before)));
        if starts_at(run, start, j) {
            break;
        }
    }
    furthest.unwrap_or(none)
}

// Where the search for item i begins.
fn starting_line(run: Run, i: usize, answers: &[i16], start: i16, grid_start: i16) -> i16
    requires i_in_items { i ≤ length run.items.numbers.now / 6 }
    requires i_in_bounds { 5 * i ≤ length answers.now }
    requires onward { run.dense ≡ false → Onward run.columns run.items.numbers.now answers.now i }
    ensures sfits { SFits w16 result }
    ensures value { result ≡ start_of run.entry.columns run.entry.dense run.entry.items.numbers.now answers.now start i grid_start }
{
    if run.dense {
        grid_start
    } else {
        furthest_end(run, i, answers, start, grid_start)
    }
}

// The primary lines of item i, which has the secondary lines `s` and spans so many primary tracks, by the primary counts and the
// secondary list's records.
fn primary_lines(
    run: Run,
    i: usize,
    s: Lines,
    span: u16,
    counts: TrackCounts,
    answers: &[i16],
    records: Records,
) -> Lines
    requires i_in_items { i ≤ length run.items.numbers.now / 6 }
    requires i_in_bounds { 5 * i ≤ length answers.now }
    requires onward { run.dense ≡ false → Onward run.columns run.items.numbers.now answers.now i }
    requires start_lt_end { s.start <ℤ s.end }
    requires le_span { (1 ≤ span) × (span ≤ 10000) }
    requires sound { Sound counts }
    requires primary_bound { start_of run.columns run.dense run.items.numbers.now answers.now s.start i (grid_start counts) ≤ℤ pos 10000 }
    ensures { result ≡ Axis.from (first_line (λ y. clear (held records.entry) s (Axis.from y span)) (start_of run.entry.columns run.entry.dense run.entry.items.numbers.now answers.now s.start i (grid_start counts))) span }
{
    let grid_start = counts.implicit_start_line().0;
    let start = starting_line(run, i, answers, s.start, grid_start);
    let line = first_free_line(records, s, start, span);
    spanned(line, span)
}

// Item i, if it is one of them.
fn place_definite_secondary_axis_item(
    run: Run,
    i: usize,
    matrix: Matrix,
    answers: &mut [i16],
    primary: &mut [i16],
    secondary: &mut [i16],
) -> Result<Matrix, Refusal>
    requires i_in_items { i < length run.items.numbers.now / 6 }
    requires i_in_bounds { 5 * i + 5 ≤ length answers.old }
    requires stands_at { StandsAt run.columns run.items.numbers.now i matrix answers.old primary.old secondary.old }
    requires onward { run.dense ≡ false → Onward run.columns run.items.numbers.now answers.old i }
    ensures { (room : Both ℕ) (old : List ℤ) (b : Board) → Ready run.entry.columns room old b matrix answers.old primary.old secondary.old → Recorded run.entry.columns run.entry.items.numbers.now answers.old b i → AfterItem run.entry.columns room old i (step2 (setting_for run.entry.columns run.entry.dense room) i (primary_of run.entry.columns run.entry.items.numbers.now i) (secondary_of run.entry.columns run.entry.items.numbers.now i) b) result answers.new primary.new secondary.new }
{
    let Placement::Fixed(s) = run.secondary_placement(i) else {
        return Ok(matrix);
    };
    let Placement::Spanned(span) = run.primary_placement(i) else {
        return Ok(matrix);
    };
    let records = Records {
        list: secondary,
        used: matrix.secondary_used,
    };
    let p = primary_lines(run, i, s, span, matrix.primary, answers, records);
    lay(
        run.columns,
        p,
        s,
        State::Auto,
        0,
        matrix,
        i,
        answers,
        primary,
        secondary,
    )
}

// All of them, in document order.
pub fn place_definite_secondary_axis_items(
    run: Run,
    mut matrix: Matrix,
    answers: &mut [i16],
    primary: &mut [i16],
    secondary: &mut [i16],
) -> Result<Matrix, Refusal>
    requires in_bounds { 5 * (length run.items.numbers.now / 6) ≤ length answers.old }
    requires stands_fresh { StandsFresh run.columns matrix answers.old primary.old secondary.old }
    ensures { (room : Both ℕ) (old : List ℤ) (b : Board) → Ready run.entry.columns room old b matrix answers.old primary.old secondary.old → NoEnds run.entry.columns b → AfterStep run.entry.columns room old (each (setting_for run.entry.columns run.entry.dense room) (step2 (setting_for run.entry.columns run.entry.dense room)) (queued run.entry.items.numbers.now) b) result answers.new primary.new secondary.new }
{
    for i in 0..run.items.len() {
        matrix = place_definite_secondary_axis_item(run, i, matrix, answers, primary, secondary)?;
    }
    Ok(matrix)
}
