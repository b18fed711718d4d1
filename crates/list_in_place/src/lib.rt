// Tracks painted in place.
#![tactic(auto)]

ghost use Rattle.std.specs.Prelude.{◌+◌, ◌-◌, ◌*◌, ◌≤◌, length, drop, true};
ghost use Rattle.std.proofs.Common.{of_z};
ghost use Rattle.std.specs.Int.{w16};
ghost use Rattle.theory_signed.specs.Parts.{gap};
ghost use Rattle.theory_intervals.specs.Paint.{pt};
ghost use Rattle.theory_intervals.specs.Cut.{lx};
ghost use Rattle.theory_intervals.proofs.Split.{Late};
ghost use Rattle.list_moves.specs.Fours.{fours, Laid};
ghost use Rattle.list_pieces.specs.Reach.{runs};
ghost use Rattle.list_pieces.specs.Passes.{Gapped, InPlace, Ready, Swept, Tail};

use list_areas::Area;
use list_moves::{move_down, move_up, put_in, wipe};
use list_pieces::pieces::{cut_track, joined};
use list_pieces::reach::{after_early, before_late};

// How many records there are, and how many of them are before the painted tracks.
#[derive(Clone, Copy)]
struct Count {
    pub before: usize,
    pub used: usize,
}

// One track, where the other records are behind it, whatever becomes of the records that the paint reaches.
fn paint_cut(list: &mut [i16], count: Count, t: i16, area: Area) -> Count
    requires gapped { Gapped list.old count.before count.before count.used × Laid list.old count.used }
    requires used_in_bounds { 4 * (count.used + 2) ≤ length list.old }
    requires late { Late lx (pt t area.stroke.end) (of_z w16 area.stroke.state) (runs (fours (count.used - count.before) (drop (4 * count.before) list.old))) }
    ensures { InPlace area.stroke.start area.stroke.end area.stroke.state t list.old count.before count.used list.new result.before result.used }
{
    let Count { before, used } = count;
    let found = cut_track(list, before, t, area.stroke);
    let i = found.first;
    let j = found.past;
    let n = found.pieces.count();
    let k = j - i;
    if n < k {
        let less = k - n;
        move_down(list, 4 * j, 4 * used, 4 * less);
        put_in(list, 4 * i, found.pieces.numbers());
        wipe(list, 4 * (used - less), 4 * used);
        return Count {
            before: i,
            used: used - less,
        };
    }
    let more = n - k;
    move_up(list, 4 * j, 4 * used, 4 * more);
    put_in(list, 4 * i, found.pieces.numbers());
    Count {
        before: i,
        used: used + more,
    }
}

// One track, likewise. Where the records that the paint reaches become one, and are one or none, that one is stored in their place.
fn paint_track(list: &mut [i16], count: Count, t: i16, area: Area) -> Count
    requires gapped { Gapped list.old count.before count.before count.used × Laid list.old count.used }
    requires used_in_bounds { 4 * (count.used + 2) ≤ length list.old }
    requires late { Late lx (pt t area.stroke.end) (of_z w16 area.stroke.state) (runs (fours (count.used - count.before) (drop (4 * count.before) list.old))) }
    ensures { InPlace area.stroke.start area.stroke.end area.stroke.state t list.old count.before count.used list.new result.before result.used }
{
    let Count { before, used } = count;
    let past = before_late(list, before, t, area.stroke);
    let first = after_early(list, past, t, area.stroke);
    if let Some((start, end)) = joined(list, first, past, area.stroke) {
        if first + 1 == past {
            put_in(list, 4 * first, &[t, start, end, area.stroke.state]);
            return Count {
                before: first,
                used,
            };
        }
        if first == past {
            move_up(list, 4 * first, 4 * used, 4);
            put_in(list, 4 * first, &[t, start, end, area.stroke.state]);
            return Count {
                before: first,
                used: used + 1,
            };
        }
    }
    paint_cut(list, count, t, area)
}

// All tracks of the area, from the last to the first. The last `behind` records lie behind the area.
pub fn paint_tracks(list: &mut [i16], used: usize, behind: usize, area: Area) -> usize
    requires ready { Ready list.old used (used + 2 * gap area.track_start area.track_end) }
    requires tail { Tail list.old used behind area.track_end }
    ensures { Swept true area.stroke.start area.stroke.end area.stroke.state area.track_start area.track_end list.old used list.new result }
{
    let mut count = Count {
        before: used - behind,
        used,
    };
    for t in (area.track_start..area.track_end).rev() {
        count = paint_track(list, count, t, area);
    }
    count.used
}
