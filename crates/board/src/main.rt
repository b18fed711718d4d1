// One file from standard input to its end, placed, and the answer on standard output.
#![tactic(auto)]

use board_file::place_file;
use board_text::{Output, Told};
use std::fmt::Write;

// Where an array is made, its elements are in the proof; lent, only its length is.
fn place_input(
    input: &mut [u8; 786441],
    items: &mut [i16; 12000],
    lines: &mut [i16; 10000],
    rows: &mut [i16; 32768],
    columns: &mut [i16; 32768],
) {
    let n = io::read_full(0, input);
    let answer = place_file(&input[..n], items, lines, rows, columns);
    let _ = write!(Output, "{}", Told { answer, lines });
}

// The largest file has 4 + 16 + 12 * 65535 bytes; one more tells that a file is longer. The lists have 8192 records each.
fn main() {
    let mut input = [0u8; 786441];
    let mut items = [0i16; 12000];
    let mut lines = [0i16; 10000];
    let mut rows = [0i16; 32768];
    let mut columns = [0i16; 32768];
    place_input(&mut input, &mut items, &mut lines, &mut rows, &mut columns);
}
