// Each call with a name and what it gave, on a line.
use board_text::{Numbers, Output};
use refusals::Refusal;
use std::fmt;
use std::fmt::{Display, Write};

#[derive(Clone, Copy, Drop)]
struct Jumped(Result<Option<i16>, Refusal>);

impl Display for Jumped {
    fn fmt<W: fmt::Write>(&self, f: &mut fmt::Formatter<W>) -> fmt::Result {
        match self.0 {
            Ok(Some(line)) => write!(f, "next {line}"),
            Ok(None) => write!(f, "free"),
            Err(refusal) => write!(f, "refused {}", refusal.number()),
        }
    }
}

#[derive(Clone, Copy, Drop)]
struct Painted(Result<(), Refusal>);

impl Display for Painted {
    fn fmt<W: fmt::Write>(&self, f: &mut fmt::Formatter<W>) -> fmt::Result {
        match self.0 {
            Ok(()) => write!(f, "painted"),
            Err(refusal) => write!(f, "refused {}", refusal.number()),
        }
    }
}

// The answer, and the list afterwards.
pub fn paint(
    name: impl Display + Drop,
    list: &mut [i16],
    track_start: i16,
    track_end: i16,
    start: i16,
    end: i16,
    state: i16,
) {
    let answer = hoarbale_lists::paint(list, track_start, track_end, start, end, state);
    let _ = writeln!(Output, "{name} {};{}", Painted(answer), Numbers(list));
}

pub fn jump(name: &str, list: &[i16], track_start: i16, track_end: i16, start: i16, end: i16) {
    let answer = hoarbale_lists::collision_jump(list, track_start, track_end, start, end);
    let _ = writeln!(Output, "{name} {}", Jumped(answer));
}

pub fn occupied(name: &str, list: &[i16], track_start: i16, track_end: i16) {
    let answer = hoarbale_lists::occupied_track_jump(list, track_start, track_end);
    let _ = writeln!(Output, "{name} {}", Jumped(answer));
}

pub fn part<'a>(name: &str, rows: &'a [i16], columns: &'a [i16], axis: u8, track: i16) {
    let records = hoarbale_lists::records_of_track(rows, columns, axis, track);
    let _ = writeln!(Output, "{name}{}", Numbers(records));
}

// A paint, the two jumps and the records of track 0.
pub fn damaged(name: &str, list: &mut [i16]) {
    paint(name, list, 0, 1, 0, 1, 1);
    jump("  jump:", list, 0, 1, 0, 9);
    occupied("  occupied:", list, -10000, 10000);
    part("  part:", list, list, 0, 0);
}

// The answer only.
pub fn long<const N: usize>(name: &str, list: &mut [i16; N]) {
    let answer = hoarbale_lists::paint(list, 0, 1, 0, 2, 1);
    let _ = writeln!(Output, "{name} {}", Painted(answer));
}
