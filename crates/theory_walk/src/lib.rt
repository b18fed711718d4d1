// Where an item goes in one axis. The walk itself is in specs/, the laws in proofs/.
#![tactic(auto)]

ghost use Rattle.std.specs.Prelude.{◌≡◌, ◌≤◌, pos, ◌+ℤ◌};
ghost use Rattle.std.specs.Int.{w16};
ghost use Rattle.std.proofs.Common.{SFits};
ghost use Rattle.theory_walk.specs.Axis.{from};
ghost use Rattle.theory_walk.specs.Walk.{is_fixed};

use grid_coordinates::Lines;

// Definite lines, or a span of so many tracks that is yet to find its lines.
#[derive(Clone, Copy, PartialEq, Eq)]
pub enum Placement {
    Fixed(Lines),
    Spanned(u16),
}

impl Placement {
    pub fn is_fixed(self) -> bool
        ensures { result ≡ is_fixed self }
    {
        matches!(self, Placement::Fixed(_))
    }
}

// The lines of a span that begins at `line`.
pub fn spanned(line: i16, span: u16) -> Lines
    requires span_bound { span ≤ 10000 }
    requires sfits { SFits w16 (line +ℤ pos span) }
    ensures { result ≡ from line span }
{
    Lines {
        start: line,
        end: line + span as i16,
    }
}
