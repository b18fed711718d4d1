// Line conversions, and a line's place in the track vector: calls of the door.
#![tactic(auto)]

ghost use Rattle.std.specs.Prelude.{◌≡◌};
ghost use Rattle.hoarbale_lines.specs.Lines.{origin_zero_answer, css_answer, index_answer};

use grid_coordinates::{GridLine, OriginZeroLine};
use grid_track_counts::TrackCounts;
use refusals::Refusal;

// The origin-zero line of a CSS line.
#[tactic(auto, unfolding(crate::specs::Lines::origin_zero_answer))]
pub fn origin_zero_line(line: GridLine, explicit: u16) -> Result<OriginZeroLine, Refusal>
    ensures { result ≡ origin_zero_answer line.0 explicit }
{
    if explicit > 10000 || line == GridLine(0) {
        return Err(Refusal::BadLine);
    }
    Ok(line.into_origin_zero_line(explicit))
}

// The CSS line of an origin-zero line.
#[tactic(auto, unfolding(crate::specs::Lines::css_answer))]
pub fn css_line(line: OriginZeroLine, explicit: u16) -> Result<GridLine, Refusal>
    ensures { result ≡ css_answer line.0 explicit }
{
    if explicit > 10000 || line < OriginZeroLine::MIN || line > OriginZeroLine::MAX {
        return Err(Refusal::BadLine);
    }
    Ok(line.into_grid_line(explicit))
}

// A line's place in the track vector. Outside the grid there is none, which is no refusal.
#[tactic(auto, using(grid_track_counts::proofs::Promises::good_sound), unfolding(crate::specs::Lines::index_answer))]
pub fn track_index(counts: TrackCounts, line: OriginZeroLine) -> Result<Option<u32>, Refusal>
    ensures { result ≡ index_answer counts line.0 }
{
    if !counts.are_good() {
        return Err(Refusal::CountsOutsideLimits);
    }
    Ok(counts.track_vec_index(line))
}
