// Step 1: items fixed in both axes take their lines.
ghost use Rattle.std.specs.Prelude.{◌≡◌, Bool, List, ℕ, ◌+◌, ◌*◌, ◌/◌, ◌≤◌, ◌<◌, ℤ, length};
ghost use Rattle.theory_walk.specs.Axis.{Both};
ghost use Rattle.theory_walk.specs.Walk.{Board, step1, each};
ghost use Rattle.placing_request.specs.Items.{queued};
ghost use Rattle.placing_laying.specs.Ready.{setting_for, Ready, Stands, AfterItem, AfterStep, primary_of, secondary_of};

use placing_laying::{Matrix, Run, State, lay};
use refusals::Refusal;
use theory_walk::Placement;

// Item i, if it is one of them.
fn place_definite_item(
    run: Run,
    i: usize,
    matrix: Matrix,
    answers: &mut [i16],
    primary: &mut [i16],
    secondary: &mut [i16],
) -> Result<Matrix, Refusal>
    requires i_in_items { i < length run.items.numbers.now / 6 }
    requires i_in_bounds { 5 * i + 5 ≤ length answers.old }
    requires stands { Stands run.columns matrix answers.old primary.old secondary.old }
    ensures { (dense : Bool) (room : Both ℕ) (old : List ℤ) (b : Board) → Ready run.entry.columns room old b matrix answers.old primary.old secondary.old → AfterItem run.entry.columns room old i (step1 (setting_for run.entry.columns dense room) i (primary_of run.entry.columns run.entry.items.numbers.now i) (secondary_of run.entry.columns run.entry.items.numbers.now i) b) result answers.new primary.new secondary.new }
{
    let Placement::Fixed(p) = run.primary_placement(i) else {
        return Ok(matrix);
    };
    let Placement::Fixed(s) = run.secondary_placement(i) else {
        return Ok(matrix);
    };
    lay(
        run.columns,
        p,
        s,
        State::Fixed,
        2,
        matrix,
        i,
        answers,
        primary,
        secondary,
    )
}

// All of them, in document order.
pub fn place_definite_items(
    run: Run,
    mut matrix: Matrix,
    answers: &mut [i16],
    primary: &mut [i16],
    secondary: &mut [i16],
) -> Result<Matrix, Refusal>
    requires in_bounds { 5 * (length run.items.numbers.now / 6) ≤ length answers.old }
    requires stands { Stands run.columns matrix answers.old primary.old secondary.old }
    ensures { (dense : Bool) (room : Both ℕ) (old : List ℤ) (b : Board) → Ready run.entry.columns room old b matrix answers.old primary.old secondary.old → AfterStep run.entry.columns room old (each (setting_for run.entry.columns dense room) (step1 (setting_for run.entry.columns dense room)) (queued run.entry.items.numbers.now) b) result answers.new primary.new secondary.new }
{
    for i in 0..run.items.len() {
        matrix = place_definite_item(run, i, matrix, answers, primary, secondary)?;
    }
    Ok(matrix)
}
