// Tracks painted one behind the other, by a sweep over the records behind them.
#![tactic(auto)]

ghost use Rattle.std.specs.Prelude.{◌≡◌, ◌+◌, ◌-◌, ◌*◌, ◌≤◌, length, drop, ◌||◌, leb};
ghost use Rattle.std.proofs.Common.{of_z};
ghost use Rattle.std.specs.Int.{w16};
ghost use Rattle.theory_intervals.specs.Paint.{pt};
ghost use Rattle.list_moves.specs.Fours.{fours};
ghost use Rattle.theory_intervals.specs.Cut.{lx};
ghost use Rattle.list_pieces.specs.Reach.{runs};
ghost use Rattle.theory_intervals.proofs.Split.{Late};
ghost use Rattle.list_pieces.specs.Passes.{Gapped, Stepped, stepped, held, Ready, Roomy, Swept, Tail};

use list_areas::Area;
use list_moves::{move_down, move_up, put_in, wipe};
use list_pieces::pieces::cut_track;

// Whether a sweep paints a track on which k records become n.
fn wanted(all: bool, n: usize, k: usize) -> bool
    ensures { result ≡ (all || leb n k) }
{
    all || n <= k
}

// The list holds the records before r, a gap, and the records from w to the end of its room.
#[derive(Clone, Copy)]
struct Gap {
    pub r: usize,
    pub w: usize,
}

// One track of a sweep: the records behind the paint go up behind the gap, those that it reaches become what they become, and go up too.
fn step(list: &mut [i16], gap: Gap, top: usize, t: i16, area: Area, all: bool) -> Gap
    requires gapped { Gapped list.old gap.r gap.w top }
    requires late { Late lx (pt t area.stroke.end) (of_z w16 area.stroke.state) (runs (fours (top - gap.w) (drop (4 * gap.w) list.old))) }
    requires top_len_bound { length (stepped all area.stroke.start area.stroke.end (of_z w16 area.stroke.state) t (held list.old gap.r gap.w top)) ≤ top }
    ensures { Stepped all area.stroke.start area.stroke.end area.stroke.state t list.old gap.r gap.w top list.new result.r result.w }
{
    let Gap { r, w } = gap;
    let found = cut_track(list, r, t, area.stroke);
    let i = found.first;
    let j = found.past;
    move_up(list, 4 * j, 4 * r, 4 * (w - r));
    let v = w - (r - j);
    let n = found.pieces.count();
    if !wanted(all, n, j - i) {
        return Gap { r: j, w: v };
    }
    put_in(list, 4 * (v - n), found.pieces.numbers());
    Gap { r: i, w: v - n }
}

// All tracks of the area, from the last to the first; with `all` false those on which the records get no more. Then the gap is closed. The last
// `behind` records lie behind the area, and are moved as one.
pub fn sweep(
    list: &mut [i16],
    used: usize,
    behind: usize,
    top: usize,
    area: Area,
    all: bool,
) -> usize
    requires ready { Ready list.old used top }
    requires roomy { Roomy all area.stroke.start area.stroke.end area.stroke.state area.track_start area.track_end top (runs (fours used list.old)) }
    requires tail { Tail list.old used behind area.track_end }
    ensures swept { Swept all area.stroke.start area.stroke.end area.stroke.state area.track_start area.track_end list.old used list.new result }
    ensures tail_2 { Tail list.new result behind area.track_end }
{
    let mut gap = Gap {
        r: used - behind,
        w: top - behind,
    };
    move_up(list, 4 * gap.r, 4 * used, 4 * (top - used));
    for t in (area.track_start..area.track_end).rev() {
        gap = step(list, gap, top, t, area, all);
    }
    let n = gap.r + (top - gap.w);
    move_down(list, 4 * gap.w, 4 * top, 4 * (gap.w - gap.r));
    wipe(list, 4 * n, 4 * top);
    n
}
