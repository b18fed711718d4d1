// Grid lines. A line is a number of a coordinate system: CSS's, which counts from 1 up at the start edge and from -1 down at the
// end edge, or origin-zero, where 0 is the start edge of the explicit grid. Each system has a type of its own.
#![tactic(auto)]

ghost use Rattle.std.specs.Prelude.{◌≡◌, ℕ, ◌≤◌, ◌-◌};
ghost use Rattle.theory_signed.specs.Parts.{up, dn};
ghost use Rattle.grid_coordinates.specs.Line.{lowest, highest, clamp_to, origin_zero_of, css_of, limited, pressed, InGrid};

// A line as CSS numbers it. 0 is none. Its numbers are in no order along the axis: -1 is behind 1.
#[derive(Clone, Copy, PartialEq, Eq)]
pub struct GridLine(pub i16);

// A line as the placement numbers it.
#[derive(Clone, Copy, PartialEq, Eq, PartialOrd, Ord)]
pub struct OriginZeroLine(pub i16);

// A start and an end line, both origin-zero.
#[derive(Clone, Copy, PartialEq, Eq)]
pub struct Lines {
    pub start: i16,
    pub end: i16,
}

// Lines that were limited, and whether that changed one.
#[derive(Clone, Copy)]
pub struct Limiting {
    pub lines: Lines,
    pub pressed: bool,
}

impl GridLine {
    // The origin-zero line, limited. The caller has seen to it that there is such a line: 0 is none.
    #[tactic(auto, unfolding(crate::specs::Line::origin_zero_of))]
    pub fn into_origin_zero_line(self, explicit: u16) -> OriginZeroLine
        requires { explicit ≤ 10000 }
        ensures { result.0 ≡ origin_zero_of self.0 explicit }
    {
        let line = i32::from(self.0);
        if line > 0 {
            OriginZeroLine::clamped(line - 1)
        } else {
            OriginZeroLine::clamped(line + i32::from(explicit) + 1)
        }
    }
}

impl OriginZeroLine {
    pub const MIN: OriginZeroLine = OriginZeroLine(-10000);

    pub const MAX: OriginZeroLine = OriginZeroLine(10000);

    // The line of the limited grid that is nearest to `line`.
    #[tactic(auto, unfolding(crate::specs::Line::clamp_to))]
    pub fn clamped(line: i32) -> OriginZeroLine
        ensures { result.0 ≡ clamp_to lowest highest line }
    {
        let nearest = line.clamp(
            i32::from(OriginZeroLine::MIN.0),
            i32::from(OriginZeroLine::MAX.0),
        );
        OriginZeroLine(nearest as i16)
    }

    // The CSS line: counted from the start edge for a line there or behind it, else from the end edge.
    #[tactic(auto, unfolding(crate::specs::Line::css_of))]
    pub fn into_grid_line(self, explicit: u16) -> GridLine
        requires in_grid { InGrid self.0 }
        requires explicit_bound { explicit ≤ 10000 }
        ensures { result.0 ≡ css_of self.0 explicit }
    {
        let line = self.0;
        if line >= 0 {
            GridLine(line + 1)
        } else {
            GridLine(line - (explicit as i16) - 1)
        }
    }

    // The fewest negative implicit tracks that a grid has with an item that starts here.
    pub fn implied_negative_implicit_tracks(self) -> u16
        requires { InGrid self.0 }
        ensures { result ≡ dn self.0 }
    {
        (-self.0).max(0) as u16
    }

    // The fewest positive implicit tracks that a grid has with an item that ends here.
    pub fn implied_positive_implicit_tracks(self, explicit: u16) -> u16
        requires in_grid { InGrid self.0 }
        requires explicit_bound { explicit ≤ 10000 }
        ensures { result ≡ up self.0 - explicit }
    {
        (self.0.max(0) as u16).saturating_sub(explicit)
    }
}

impl Lines {
    // The lines pressed into the limited grid, at least one track of them left, and whether that changed one.
    pub fn into_limited_grid(self) -> Limiting
        ensures { (result.lines ≡ limited self) × (result.pressed ≡ pressed self) }
    {
        let start = self
            .start
            .clamp(OriginZeroLine::MIN.0, OriginZeroLine::MAX.0 - 1);
        let end = self.end.clamp(start + 1, OriginZeroLine::MAX.0);
        let lines = Lines { start, end };
        Limiting {
            lines,
            pressed: lines != self,
        }
    }
}
