// A program over the list calls: a line for each call, with its answer and what it left; the file `stdout` has what document 01 says.
#![tactic(auto)]

mod telling;

use crate::telling::{damaged, jump, occupied, paint, part};

// Case 10, with as many places as the list has.
fn case_10(places: &str, list: &mut [i16]) {
    paint(
        format_args!("10 {places} places, 0..2 state 1:"),
        list,
        0,
        1,
        0,
        2,
        1,
    );
    paint(
        format_args!("10 {places} places, 2..4 state 1:"),
        list,
        0,
        1,
        2,
        4,
        1,
    );
    paint(
        format_args!("10 {places} places, 1..3 state 2:"),
        list,
        0,
        1,
        1,
        3,
        2,
    );
    paint(
        format_args!("10 {places} places, 1..3 state 1:"),
        list,
        0,
        1,
        1,
        3,
        1,
    );
}

// Case 11.
fn case_11() {
    let list: [i16; 8] = [0, 2, 5, 1, 0, 7, 9, 1];
    jump("11 range 0..3:", &list, 0, 1, 0, 3);
    jump("11 range 0..8:", &list, 0, 1, 0, 8);
    jump("11 range 5..7:", &list, 0, 1, 5, 7);
    jump("11 another track:", &list, 1, 2, 0, 9);
    jump("11 no tracks:", &list, 1, 1, 0, 9);
    jump("11 no lines:", &list, 0, 1, 3, 3);
    jump("11 far lines:", &list, -32768, 32767, -32768, 32767);
}

// No place, and one too few.
fn too_short() {
    let mut none = [0i16; 0];
    paint("length 0:", &mut none, 0, 1, 0, 2, 1);
    paint("length 0, bad area:", &mut none, 1, 1, 0, 2, 1);
    jump("length 0, jump:", &none, 0, 1, 0, 2);
    let mut short = [0i16; 4];
    paint("one record short:", &mut short, 0, 2, 0, 2, 1);
}

// Just enough, and room that overpainting frees.
fn full() {
    let mut list = [0i16; 8];
    paint("exactly full:", &mut list, 0, 2, 0, 2, 1);
    paint("one more:", &mut list, 2, 3, 0, 2, 1);
    paint("full, grown to 0..5:", &mut list, 1, 2, 1, 5, 1);
    paint("full, overpainted:", &mut list, 0, 2, -1, 6, 2);
}

// The first and the last track, and lines at both ends of the limited grid.
fn edges() {
    let mut list = [0i16; 8];
    paint("last track:", &mut list, 9999, 10000, -10000, 10000, 2);
    paint("first track:", &mut list, -10000, -9999, -10000, 10000, 1);
    paint(
        "first track, last line:",
        &mut list,
        -10000,
        -9999,
        9999,
        10000,
        1,
    );
}

fn edge_jumps() {
    let list: [i16; 8] = [-10000, -10000, 10000, 1, 9999, -10000, 10000, 2];
    jump(
        "jump over the last track:",
        &list,
        9999,
        10000,
        -32768,
        -9999,
    );
    jump("jump behind the grid:", &list, -32768, 32767, 10000, 10001);
    occupied("occupied, all tracks:", &list, -32768, 32767);
    occupied("occupied, up to the last:", &list, -10000, 9999);
    occupied("occupied, between:", &list, -9999, 9999);
}

// Areas that are refused, and change nothing.
fn bad_areas() {
    let mut list: [i16; 4] = [0, 2, 5, 1];
    paint("no tracks:", &mut list, 1, 1, 0, 2, 1);
    paint("tracks in the wrong order:", &mut list, 1, 0, 0, 2, 1);
    paint("no lines:", &mut list, 0, 1, 2, 2, 1);
    paint("lines in the wrong order:", &mut list, 0, 1, 2, -2, 1);
    paint("state 0:", &mut list, 0, 1, 2, 5, 0);
    paint("state 3:", &mut list, 0, 1, 2, 5, 3);
    paint("state -1:", &mut list, 0, 1, 2, 5, -1);
}

fn bad_lines() {
    let mut list: [i16; 4] = [0, 2, 5, 1];
    paint("track line -10001:", &mut list, -10001, 0, 2, 5, 1);
    paint("track line 10001:", &mut list, 10000, 10001, 2, 5, 1);
    paint("line -10001:", &mut list, 0, 1, -10001, 5, 1);
    paint("line 10001:", &mut list, 0, 1, 2, 10001, 1);
    paint("all of i16:", &mut list, -32768, 32767, -32768, 32767, 1);
}

// Lengths that are wrong, and which number comes first.
fn lengths() {
    let mut three = [0i16; 3];
    paint("length 3:", &mut three, 0, 1, 0, 2, 1);
    let mut six = [0i16; 6];
    paint("length 6:", &mut six, 0, 1, 0, 2, 1);
    let mut broken: [i16; 5] = [0, 5, 5, 3, 1];
    paint("length 5, broken, bad area:", &mut broken, 1, 1, 0, 2, 1);
    jump("length 5, broken, jump over no track:", &broken, 1, 1, 0, 2);
    occupied("length 5, broken, no track:", &broken, 1, 1);
    let mut empty: [i16; 4] = [0, 5, 5, 3];
    paint("broken, bad area:", &mut empty, 1, 1, 0, 2, 1);
    jump("broken, jump over no track:", &empty, 1, 1, 0, 2);
    occupied("broken, no track:", &empty, 1, 1);
}

fn longest() {
    let mut list = [0i16; 1048576];
    telling::long("length 1048576:", &mut list);
}

fn too_long() {
    let mut list = [0i16; 1048580];
    telling::long("length 1048580:", &mut list);
}

// Lists that break a rule each.
fn broken_order() {
    let mut tracks: [i16; 8] = [1, 0, 2, 1, 0, 0, 2, 1];
    damaged("tracks unsorted:", &mut tracks);
    let mut starts: [i16; 8] = [0, 5, 6, 1, 0, 0, 2, 1];
    damaged("starts unsorted:", &mut starts);
    let mut overlap: [i16; 8] = [0, 0, 4, 1, 0, 3, 6, 2];
    damaged("overlapping:", &mut overlap);
    let mut alike: [i16; 8] = [0, 0, 4, 1, 0, 4, 6, 1];
    damaged("touching alike:", &mut alike);
    let mut nothing: [i16; 8] = [0, 0, 4, 1, 0, 5, 5, 1];
    damaged("empty record:", &mut nothing);
}

fn broken_numbers() {
    let mut high: [i16; 8] = [10000, 0, 1, 1, 0, 0, 0, 0];
    damaged("track 10000:", &mut high);
    let mut low: [i16; 8] = [-10001, 0, 1, 1, 0, 0, 0, 0];
    damaged("track -10001:", &mut low);
    let mut far: [i16; 8] = [0, 0, 10001, 1, 0, 0, 0, 0];
    damaged("line 10001:", &mut far);
    let mut before: [i16; 8] = [0, -10001, 1, 1, 0, 0, 0, 0];
    damaged("line -10001:", &mut before);
}

fn broken_states() {
    let mut none: [i16; 8] = [0, 0, 1, 0, 0, 2, 3, 1];
    damaged("state 0 in the middle:", &mut none);
    let mut third: [i16; 8] = [0, 0, 1, 3, 0, 0, 0, 0];
    damaged("state 3 in the list:", &mut third);
    let mut negative: [i16; 8] = [0, 0, 1, -1, 0, 0, 0, 0];
    damaged("state -1 in the list:", &mut negative);
    let mut behind: [i16; 8] = [0, 0, 0, 0, 0, 2, 3, 1];
    damaged("record behind a zero one:", &mut behind);
    let mut rest: [i16; 8] = [0, 0, 1, 1, 0, 5, 0, 0];
    damaged("number behind the records:", &mut rest);
}

// Occupied tracks.
fn tracks() {
    let list: [i16; 12] = [-3, 0, 1, 1, 2, 0, 1, 2, 2, 4, 5, 1];
    occupied("occupied -5..5:", &list, -5, 5);
    occupied("occupied -5..2:", &list, -5, 2);
    occupied("occupied -2..2:", &list, -2, 2);
    occupied("occupied 2..3:", &list, 2, 3);
    occupied("occupied 2..2:", &list, 2, 2);
}

// The records of a track: of the column list on axis 0, of the row list on axis 1.
fn parts() {
    let rows: [i16; 12] = [-3, 0, 1, 1, 2, 0, 1, 2, 2, 4, 5, 1];
    let columns: [i16; 4] = [2, 7, 9, 2];
    let broken: [i16; 4] = [2, 7, 7, 2];
    part("axis 0 track 2:", &rows, &columns, 0, 2);
    part("axis 1 track 2:", &rows, &columns, 1, 2);
    part("axis 1 track 0:", &rows, &columns, 1, 0);
    part("axis 2 track 2:", &rows, &columns, 2, 2);
    part("axis 0, broken:", &rows, &broken, 0, 2);
    part("axis 1, other broken:", &rows, &broken, 1, 2);
    part("axis 1, length 11:", &rows[0..11], &columns, 1, 2);
}

fn main() {
    case_10("three", &mut [0i16; 12]);
    case_10("two", &mut [0i16; 8]);
    case_11();
    too_short();
    full();
    edges();
    edge_jumps();
    bad_areas();
    bad_lines();
    lengths();
    longest();
    too_long();
    broken_order();
    broken_numbers();
    broken_states();
    tracks();
    parts();
}
