// One tile laid. The two lists are lent as the primary list, whose tracks lie along the primary axis, and the secondary list; counts
// and how many records each list holds go by value beside them.
#![tactic(auto)]

ghost use Rattle.std.specs.Prelude.{◌≡◌, ◌||◌, ◌+◌, ◌*◌, ◌/◌, ◌≤◌, ◌<◌, ◌%◌, length};
ghost use Rattle.std.proofs.lemmas.List.Edits.{sets};
ghost use Rattle.theory_intervals.specs.OverInt.{paint_list, flat};
ghost use Rattle.theory_intervals.specs.Lists.{recs, Holds};
ghost use Rattle.list_areas.specs.Areas.{area_of};
ghost use Rattle.list_areas.specs.Meant.{meant};
ghost use Rattle.grid_coordinates.specs.Line.{Limited};
ghost use Rattle.grid_track_counts.specs.Counts.{Sound};
ghost use Rattle.theory_walk.specs.Axis.{laid};
ghost use Rattle.theory_walk.specs.Walk.{bit};
ghost use Rattle.placing_request.specs.Items.{axis_of};
ghost use Rattle.placing_laying.specs.Laying.{Laying, answer_five, refusal_of, room_of, short_of};
ghost use Rattle.placing_laying.specs.Ready.{primary_of, secondary_of};
ghost use Rattle.placing_laying.specs.States.{state_number};

use grid_coordinates::{Limiting, Lines};
use grid_track_counts::TrackCounts;
use list_areas::{Area, Stroke};
use list_painting::paint_fitting;
use list_rules::Records;
use placing_request::Items;
use refusals::Refusal;
use theory_walk::Placement;

// Beside the lists: the counts of each axis, and how many records each list holds.
#[derive(Clone, Copy)]
pub struct Matrix {
    pub primary: TrackCounts,
    pub secondary: TrackCounts,
    pub primary_used: usize,
    pub secondary_used: usize,
}

// What the steps go over: the items, and by which flow. Its primary axis is the columns, or else the rows.
#[derive(Clone, Copy)]
pub struct Run<'a> {
    pub columns: bool,
    pub dense: bool,
    pub items: Items<'a>,
}

impl<'a> Run<'a> {
    pub fn primary_placement(self, i: usize) -> Placement
        requires { i < length self.items.numbers.now / 6 }
        ensures { result ≡ primary_of self.entry.columns self.entry.items.numbers.now i }
    {
        self.items.placement(i, self.columns)
    }

    #[tactic(auto, using(crate::proofs::Steps::secondary_is))]
    pub fn secondary_placement(self, i: usize) -> Placement
        requires { i < length self.items.numbers.now / 6 }
        ensures { result ≡ secondary_of self.entry.columns self.entry.items.numbers.now i }
    {
        self.items.placement(i, !self.columns)
    }
}

// What the lists record of a tile: whether its item was fixed in both axes, or had to find its place. The numbers are theirs.
#[derive(Clone, Copy)]
pub enum State {
    Fixed = 1,
    Auto = 2,
}

// The mark: the step's flags, and bit 1 where limiting changed a line.
fn mark_of(flags: u16, p_pressed: bool, s_pressed: bool) -> u16
    requires { flags % 2 ≡ 0 }
    ensures { result ≡ bit 1 (p_pressed || s_pressed) + flags }
{
    if p_pressed || s_pressed {
        flags | 1
    } else {
        flags
    }
}

// Refuses item i where a list is too short for it, the row list first. Where the columns are primary, their list is the primary one,
// and the rows' list the other.
fn check_room(
    columns: bool,
    primary_short: bool,
    secondary_short: bool,
    i: usize,
) -> Result<(), Refusal>
    ensures { result ≡ room_of (refusal_of columns primary_short secondary_short) i }
{
    let (rows_short, columns_short) = if columns {
        (secondary_short, primary_short)
    } else {
        (primary_short, secondary_short)
    };
    if rows_short {
        Err(Refusal::ShortRowList(i))
    } else if columns_short {
        Err(Refusal::ShortColumnList(i))
    } else {
        Ok(())
    }
}

// The answer for item i: the column lines first, whichever axis they are on.
fn put_answer(answers: &mut [i16], i: usize, columns: bool, p: Lines, s: Lines, mark: u16)
    requires i_in_bounds { 5 * i + 5 ≤ length answers.old }
    requires mark_bound { mark < 32768 }
    ensures { answers.new ≡ sets answers.old (5 * i) (answer_five (laid (axis_of columns) p s) mark) }
{
    let (column, row) = if columns { (p, s) } else { (s, p) };
    answers[5 * i..5 * i + 5].copy_from_slice(&[
        column.start,
        column.end,
        row.start,
        row.end,
        mark as i16,
    ]);
}

// The area that a tile covers on a list: its lines along the list's tracks, and those across them.
fn area_on(tracks: Lines, lines: Lines, state: State) -> Area
    requires { Limited tracks × Limited lines }
    ensures { meant result ≡ area_of tracks.start tracks.end lines.start lines.end (state_number state) }
{
    Area {
        track_start: tracks.start,
        track_end: tracks.end,
        stroke: Stroke {
            start: lines.start,
            end: lines.end,
            state: state as i16,
        },
    }
}

// Whether a list has too few places for a tile.
fn is_short(list: &[i16], used: usize, tracks: Lines, lines: Lines, state: State) -> bool
    requires holds { Holds list.now used }
    requires limited { Limited tracks × Limited lines }
    ensures { result ≡ short_of (length list.now) (paint_list (area_of tracks.start tracks.end lines.start lines.end (state_number state)) (recs used list.now)) }
{
    list_painting::is_short(Records { list, used }, area_on(tracks, lines, state))
}

// Paints a tile on a list that has the places for it. How many records there are afterwards.
fn paint_tile(list: &mut [i16], used: usize, tracks: Lines, lines: Lines, state: State) -> usize
    requires holds { Holds list.old used }
    requires limited { Limited tracks × Limited lines }
    requires list_in_bounds { 4 * length (paint_list (area_of tracks.start tracks.end lines.start lines.end (state_number state)) (recs used list.old)) ≤ length list.old }
    ensures value { result ≡ length (paint_list (area_of tracks.start tracks.end lines.start lines.end (state_number state)) (recs used list.old)) }
    ensures list_after { list.new ≡ flat (length list.old) (paint_list (area_of tracks.start tracks.end lines.start lines.end (state_number state)) (recs used list.old)) }
{
    paint_fitting(list, used, area_on(tracks, lines, state))
}

// Lays a tile of these primary and secondary lines for item i, or refuses it and changes nothing.
pub fn lay(
    columns: bool,
    p: Lines,
    s: Lines,
    state: State,
    flags: u16,
    matrix: Matrix,
    i: usize,
    answers: &mut [i16],
    primary: &mut [i16],
    secondary: &mut [i16],
) -> Result<Matrix, Refusal>
    requires holds { Holds primary.old matrix.primary_used × Holds secondary.old matrix.secondary_used }
    requires sound { Sound matrix.primary × Sound matrix.secondary }
    requires flags_value { (flags % 2 ≡ 0) × (flags < 8) }
    requires i_in_bounds { 5 * i + 5 ≤ length answers.old }
    ensures { Laying columns p s (state_number state) flags matrix i answers.old primary.old secondary.old result answers.new primary.new secondary.new }
{
    let Limiting {
        lines: p_lines,
        pressed: p_pressed,
    } = p.into_limited_grid();
    let Limiting {
        lines: s_lines,
        pressed: s_pressed,
    } = s.into_limited_grid();
    let mark = mark_of(flags, p_pressed, s_pressed);
    // Room is judged before either list is changed.
    let primary_short = is_short(primary, matrix.primary_used, p_lines, s_lines, state);
    let secondary_short = is_short(secondary, matrix.secondary_used, s_lines, p_lines, state);
    check_room(columns, primary_short, secondary_short, i)?;
    let on_primary = paint_tile(primary, matrix.primary_used, p_lines, s_lines, state);
    let on_secondary = paint_tile(secondary, matrix.secondary_used, s_lines, p_lines, state);
    put_answer(answers, i, columns, p_lines, s_lines, mark);
    Ok(Matrix {
        primary: matrix.primary.grown(p_lines),
        secondary: matrix.secondary.grown(s_lines),
        primary_used: on_primary,
        secondary_used: on_secondary,
    })
}
