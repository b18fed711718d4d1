// How many tracks an axis has: before the explicit grid, in it, and behind it.
#![tactic(auto)]

ghost use Rattle.std.specs.Prelude.{◌≡◌, ℕ, ◌+◌, max};
ghost use Rattle.grid_coordinates.specs.Line.{Limited};
ghost use Rattle.grid_track_counts.specs.Counts.{Sound, counts_good, grid_start, grid_end, grown, index_of};

use grid_coordinates::{Lines, OriginZeroLine};

#[derive(Clone, Copy, PartialEq, Eq)]
pub struct TrackCounts {
    pub negative: u16,
    pub explicit: u16,
    pub positive: u16,
}

impl TrackCounts {
    // Whether the counts keep within the limits.
    #[tactic(auto, unfolding(crate::specs::Counts::counts_good))]
    pub fn are_good(self) -> bool
        ensures { result ≡ counts_good self }
    {
        self.negative <= 10000 && u32::from(self.explicit) + u32::from(self.positive) <= 10000
    }

    // How many tracks there are in all.
    pub fn len(self) -> u16
        requires { Sound self }
        ensures { result ≡ self.negative + (self.explicit + self.positive) }
    {
        self.negative + (self.explicit + self.positive)
    }

    pub fn implicit_start_line(self) -> OriginZeroLine
        requires { Sound self }
        ensures { result.0 ≡ grid_start self }
    {
        OriginZeroLine(-(self.negative as i16))
    }

    pub fn implicit_end_line(self) -> OriginZeroLine
        requires { Sound self }
        ensures { result.0 ≡ grid_end self }
    {
        OriginZeroLine((self.explicit + self.positive) as i16)
    }

    // The counts with as few tracks more as cover the lines.
    #[tactic(auto, unfolding(crate::specs::Counts::grown))]
    pub fn grown(self, lines: Lines) -> TrackCounts
        requires sound { Sound self }
        requires limited { Limited lines }
        ensures { result ≡ grown self lines }
    {
        let before = OriginZeroLine(lines.start).implied_negative_implicit_tracks();
        let behind = OriginZeroLine(lines.end).implied_positive_implicit_tracks(self.explicit);
        TrackCounts {
            negative: self.negative.max(before),
            positive: self.positive.max(behind),
            ..self
        }
    }

    // The place of a line in the track vector; no place outside the grid.
    #[tactic(auto, unfolding(crate::specs::Counts::index_of))]
    pub fn track_vec_index(self, line: OriginZeroLine) -> Option<u32>
        requires { Sound self }
        ensures { result ≡ index_of self line.0 }
    {
        if line < self.implicit_start_line() || line > self.implicit_end_line() {
            return None;
        }
        let n = (line.0 + self.negative as i16) as u32;
        Some(2 * n)
    }
}
