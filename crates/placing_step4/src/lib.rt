// The step for the items that are left.
#![tactic(auto)]

ghost use Rattle.std.specs.Prelude.{◌≡◌, List, ℕ, ◌+◌, ◌*◌, ◌/◌, ◌≤◌, ◌<◌, ℤ, length};
ghost use Rattle.theory_walk.specs.Axis.{Both};
ghost use Rattle.theory_walk.specs.Walk.{Board, put, choose_line, choose_pair, step4, begin4, last4};
ghost use Rattle.theory_walk.specs.declared.Placement.TheVariants.{Fixed, Spanned};
ghost use Rattle.theory_walk.proofs.Range.{CursorIn, Good};
ghost use Rattle.placing_request.specs.Items.{queued};
ghost use Rattle.placing_laying.specs.Ready.{setting_for, Ready, Stands, AfterStep, primary_of, secondary_of};
ghost use Rattle.placing_step4_choice.specs.Cursor.{place_of};
ghost use Rattle.placing_step4.specs.Turns.{AfterTurn};

use grid_coordinates::Lines;
use list_rules::Records;
use placing_laying::{Matrix, Run, State, lay};
use placing_search::Pair;
use placing_step4_choice::{Settled, next_cursor, settle_line, settle_pair, span_of};
use refusals::Refusal;
use theory_walk::{Placement, spanned};

// An item with fixed primary lines p and a span of m.
fn place_on_line(
    run: Run,
    p: Lines,
    m: u16,
    i: usize,
    once: Pair,
    cursor: Pair,
    matrix: Matrix,
    answers: &mut [i16],
    primary: &mut [i16],
    secondary: &mut [i16],
) -> Result<(Matrix, Pair), Refusal>
    requires good { Good (Fixed p) × Good (Spanned m) }
    requires i_in_bounds { 5 * i + 5 ≤ length answers.old }
    requires stands { Stands run.columns matrix answers.old primary.old secondary.old }
    requires cursor_in { CursorIn 1999 (place_of cursor) }
    ensures { (room : Both ℕ) (old : List ℤ) (b : Board) → Ready run.entry.columns room old b matrix answers.old primary.old secondary.old → b.cursor ≡ place_of cursor → AfterTurn run.entry.columns room old i (put (setting_for run.entry.columns run.entry.dense room) i (choose_line (setting_for run.entry.columns run.entry.dense room) (place_of once) p m b) b) result answers.new primary.new secondary.new }
{
    let records = Records {
        list: primary,
        used: matrix.primary_used,
    };
    let s = settle_line(run.dense, cursor, matrix.secondary, p, m, records);
    let matrix = lay(
        run.columns,
        p,
        s,
        State::Auto,
        0,
        matrix,
        i,
        answers,
        primary,
        secondary,
    )?;
    Ok((matrix, next_cursor(run.dense, once, p, s)))
}

// An item with a span in each axis.
fn place_on_pair(
    run: Run,
    n: u16,
    m: u16,
    i: usize,
    once: Pair,
    cursor: Pair,
    matrix: Matrix,
    answers: &mut [i16],
    primary: &mut [i16],
    secondary: &mut [i16],
) -> Result<(Matrix, Pair), Refusal>
    requires good { Good (Spanned n) × Good (Spanned m) }
    requires i_in_bounds { 5 * i + 5 ≤ length answers.old }
    requires stands { Stands run.columns matrix answers.old primary.old secondary.old }
    requires cursor_in { CursorIn 1999 (place_of cursor) }
    ensures { (room : Both ℕ) (old : List ℤ) (b : Board) → Ready run.entry.columns room old b matrix answers.old primary.old secondary.old → b.cursor ≡ place_of cursor → AfterTurn run.entry.columns room old i (put (setting_for run.entry.columns run.entry.dense room) i (choose_pair (setting_for run.entry.columns run.entry.dense room) (place_of once) n m b) b) result answers.new primary.new secondary.new }
{
    let records = Records {
        list: secondary,
        used: matrix.secondary_used,
    };
    let Settled { place, flags } = settle_pair(cursor, matrix.primary, n, m, records);
    let p = spanned(place.primary, n);
    let s = spanned(place.secondary, m);
    let matrix = lay(
        run.columns,
        p,
        s,
        State::Auto,
        flags,
        matrix,
        i,
        answers,
        primary,
        secondary,
    )?;
    Ok((matrix, next_cursor(run.dense, once, p, s)))
}

// Item i, unless its secondary lines are fixed: then an earlier step has laid it. `once` holds the grid start lines as they were before
// this step.
fn place_indefinitely_positioned_item(
    run: Run,
    i: usize,
    once: Pair,
    cursor: Pair,
    matrix: Matrix,
    answers: &mut [i16],
    primary: &mut [i16],
    secondary: &mut [i16],
) -> Result<(Matrix, Pair), Refusal>
    requires i_in_items { i < length run.items.numbers.now / 6 }
    requires i_in_bounds { 5 * i + 5 ≤ length answers.old }
    requires stands { Stands run.columns matrix answers.old primary.old secondary.old }
    requires cursor_in { CursorIn 1999 (place_of cursor) }
    ensures { (room : Both ℕ) (old : List ℤ) (b : Board) → Ready run.entry.columns room old b matrix answers.old primary.old secondary.old → b.cursor ≡ place_of cursor → AfterTurn run.entry.columns room old i (step4 (setting_for run.entry.columns run.entry.dense room) (place_of once) i (primary_of run.entry.columns run.entry.items.numbers.now i) (secondary_of run.entry.columns run.entry.items.numbers.now i) b) result answers.new primary.new secondary.new }
{
    let Placement::Spanned(m) = run.secondary_placement(i) else {
        return Ok((matrix, cursor));
    };
    let placement = run.primary_placement(i);
    let Placement::Fixed(p) = placement else {
        let n = span_of(placement);
        return place_on_pair(
            run, n, m, i, once, cursor, matrix, answers, primary, secondary,
        );
    };
    place_on_line(
        run, p, m, i, once, cursor, matrix, answers, primary, secondary,
    )
}

// All of them, in document order.
pub fn place_remaining_items(
    run: Run,
    mut matrix: Matrix,
    answers: &mut [i16],
    primary: &mut [i16],
    secondary: &mut [i16],
) -> Result<Matrix, Refusal>
    requires len_bound { length run.items.numbers.now / 6 ≤ 2000 }
    requires in_bounds { 5 * (length run.items.numbers.now / 6) ≤ length answers.old }
    requires stands { Stands run.columns matrix answers.old primary.old secondary.old }
    ensures { (room : Both ℕ) (old : List ℤ) (b : Board) → Ready run.entry.columns room old b matrix answers.old primary.old secondary.old → AfterStep run.entry.columns room old (last4 (setting_for run.entry.columns run.entry.dense room) (queued run.entry.items.numbers.now) (begin4 (setting_for run.entry.columns run.entry.dense room) (λ c. c) b)) result answers.new primary.new secondary.new }
{
    let once = Pair {
        primary: matrix.primary.implicit_start_line().0,
        secondary: matrix.secondary.implicit_start_line().0,
    };
    let mut cursor = once;
    for i in 0..run.items.len() {
        (matrix, cursor) = place_indefinitely_positioned_item(
            run, i, once, cursor, matrix, answers, primary, secondary,
        )?;
    }
    Ok(matrix)
}
