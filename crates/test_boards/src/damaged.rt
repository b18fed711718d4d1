// Damaged copies of case 4's file: how many of them are refused by 12, and how many are answered otherwise.
ghost use Rattle.std.specs.Prelude.{◌+◌, ◌<◌, ◌≤◌, length};

use board_file::place_file;
use board_text::Output;
use refusals::Refusal;
use std::fmt::Write;

// 1 where the bytes are refused by 12, else 0.
fn refused(bytes: &[u8]) -> usize
    ensures { result ≤ 1 }
{
    let mut items = [0i16; 12000];
    let mut lines = [0i16; 20];
    let mut rows = [0i16; 64];
    let mut columns = [0i16; 64];
    let answer = place_file(bytes, &mut items, &mut lines, &mut rows, &mut columns);
    usize::from(matches!(answer, Err(Refusal::NotAFile)))
}

fn tell(name: &str, refused: usize, all: usize)
    requires { refused ≤ all }
{
    let _ = writeln!(
        Output,
        "{name}: refused 12 {refused}, otherwise {}",
        all - refused
    );
}

// The first `from` bytes, one more, and so on up to `to`.
fn prefixes(file: &[u8], from: usize, to: usize) -> usize
    requires from_le_to { from ≤ to }
    requires to_in_bounds { to ≤ length file.now }
    ensures { result + from ≤ to }
{
    let mut sum = 0;
    for n in from..to {
        sum += refused(&file[..n]);
    }
    sum
}

// Byte `at` with each of its 255 other values.
fn changed_at(file: &mut [u8], at: usize) -> usize
    requires { at < length file.old }
    ensures { result ≤ 255 }
{
    let old = file[at];
    let mut sum = 0;
    for v in 1..=255 {
        file[at] = old.wrapping_add(v);
        sum += refused(file);
    }
    file[at] = old;
    sum
}

// Each of the first n bytes so.
fn changed(file: &mut [u8], n: usize) -> usize
    requires n_in_bounds { n ≤ length file.old }
    requires n_bound { n ≤ 20 }
    ensures { result ≤ 5100 }
{
    let mut sum = 0;
    for at in 0..n {
        sum += changed_at(file, at);
    }
    sum
}

// The length told is 16 + 12 n, the item count n, for each n below 20.
fn both_told(file: &mut [u8]) -> usize
    requires { 20 ≤ length file.old }
    ensures { result ≤ 20 }
{
    let mut sum = 0;
    for n in 0..20 {
        file[3] = 16 + 12 * n;
        file[19] = n;
        sum += refused(file);
    }
    sum
}

// Case 4: length 52, version 1, flow 0, two explicit columns and rows, three items, each two spans of 1. Its 56 bytes, and twelve more.
fn file() -> [u8; 68] {
    let mut f = [0u8; 68];
    f[3] = 52;
    f[4] = 1;
    f[9] = 2;
    f[15] = 2;
    f[19] = 3;
    f[21] = 1;
    f[23] = 1;
    f[27] = 1;
    f[29] = 1;
    f[33] = 1;
    f[35] = 1;
    f[39] = 1;
    f[41] = 1;
    f[45] = 1;
    f[47] = 1;
    f[51] = 1;
    f[53] = 1;
    f
}

fn lengths() {
    let f = file();
    tell("undamaged", prefixes(&f, 56, 57), 1);
    tell("truncated at every byte", prefixes(&f, 0, 56), 56);
    tell("longer by 1 to 11 bytes", prefixes(&f, 57, 68), 11);
}

fn heads() {
    let mut f = file();
    tell(
        "every byte of the head changed",
        changed(&mut f[0..56], 20),
        5100,
    );
}

fn lies() {
    let mut f = file();
    tell("length and count told alike", both_told(&mut f[0..56]), 20);
}

pub fn all() {
    lengths();
    heads();
    lies();
}
