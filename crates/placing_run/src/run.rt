// The whole walk: both lists cleared, the three steps in their order, and everything cleared again where a list was too short.
ghost use Rattle.std.specs.Prelude.{◌≡◌, List, ℕ, ◌*◌, ◌/◌, ◌≤◌, ℤ, length};
ghost use Rattle.grid_track_counts.specs.Counts.{Sound};
ghost use Rattle.theory_walk.specs.Axis.{Both};
ghost use Rattle.theory_walk.specs.Walk.{Board, walk};
ghost use Rattle.placing_request.specs.Items.{queued};
ghost use Rattle.placing_laying.specs.Ready.{setting_for, Ready, AfterStep};
ghost use Rattle.placing_step2.specs.Ends.{NoEnds, StandsFresh};
ghost use Rattle.placing_run.specs.Runs.{AfterRun};

use crate::definite::place_definite_items;
use grid_track_counts::TrackCounts;
use list_painting::clear;
use placing_laying::{Matrix, Run};
use placing_step2::place_definite_secondary_axis_items;
use placing_step4::place_remaining_items;
use refusals::Refusal;

// The steps 1, 2 and 4. (Step 3 is the caller's: its counts stand for it.)
fn walk_items(
    run: Run,
    matrix: Matrix,
    answers: &mut [i16],
    primary: &mut [i16],
    secondary: &mut [i16],
) -> Result<Matrix, Refusal>
    requires len_bound { length run.items.numbers.now / 6 ≤ 2000 }
    requires in_bounds { 5 * (length run.items.numbers.now / 6) ≤ length answers.old }
    requires stands_fresh { StandsFresh run.columns matrix answers.old primary.old secondary.old }
    ensures { (room : Both ℕ) (old : List ℤ) (b : Board) → Ready run.entry.columns room old b matrix answers.old primary.old secondary.old → NoEnds run.entry.columns b → AfterStep run.entry.columns room old (walk (setting_for run.entry.columns run.entry.dense room) (λ c. c) (queued run.entry.items.numbers.now) b) result answers.new primary.new secondary.new }
{
    let fixed = place_definite_items(run, matrix, answers, primary, secondary)?;
    let found = place_definite_secondary_axis_items(run, fixed, answers, primary, secondary)?;
    place_remaining_items(run, found, answers, primary, secondary)
}

// A checked request placed. The answer places are lent as many as the items need, so that no other place can be touched. The counts
// come back in the matrix; where a list was too short all that was lent is zero.
pub fn place_items(
    run: Run,
    primary_counts: TrackCounts,
    secondary_counts: TrackCounts,
    answers: &mut [i16],
    primary: &mut [i16],
    secondary: &mut [i16],
) -> Result<Matrix, Refusal>
    requires len_bound { length run.items.numbers.now / 6 ≤ 2000 }
    requires answers_len { length answers.old ≡ 5 * (length run.items.numbers.now / 6) }
    requires sound { Sound primary_counts × Sound secondary_counts }
    ensures { AfterRun run.entry.columns run.entry.dense run.entry.items.numbers.now primary_counts secondary_counts answers.old (length primary.old) (length secondary.old) result answers.new primary.new secondary.new }
{
    clear(primary);
    clear(secondary);
    let matrix = Matrix {
        primary: primary_counts,
        secondary: secondary_counts,
        primary_used: 0,
        secondary_used: 0,
    };
    let walked = walk_items(run, matrix, answers, primary, secondary);
    if walked.is_err() {
        clear(answers);
        clear(primary);
        clear(secondary);
    }
    walked
}
