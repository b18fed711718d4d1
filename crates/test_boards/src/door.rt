// Case 6 through the door: with a row list of 10000 records, and of one record less.
use board_file::PlacedFile;
use board_text::{Numbers, Output, Told};
use grid_track_counts::TrackCounts;
use hoarbale_placing::place;
use std::fmt::Write;

fn run<const N: usize>(rows: &mut [i16; N]) {
    let items: [i16; 12] = [0, 0, 1, 0, 0, 10000, 0, 0, 1, 1, 1, 0];
    let mut lines = [0i16; 10];
    let mut columns = [0i16; 8];
    let one = TrackCounts {
        negative: 0,
        explicit: 1,
        positive: 0,
    };
    let none = TrackCounts { explicit: 0, ..one };
    let placed = place(0, one, none, &items, &mut lines, rows, &mut columns);
    let answer = placed.map(|counts| PlacedFile {
        count: 2,
        columns: counts.columns,
        rows: counts.rows,
    });
    let told = Told {
        answer,
        lines: &lines,
    };
    let _ = writeln!(
        Output,
        "case 6, {} records\n{told}column list{}",
        N / 4,
        Numbers(&columns)
    );
}

pub fn case_6() {
    run(&mut [0i16; 40000]);
    run(&mut [0i16; 39996]);
}
