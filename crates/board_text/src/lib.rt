// An answer as text.
#![tactic(auto)]

use board_file::PlacedFile;
use grid_track_counts::TrackCounts;
use refusals::Refusal;
use std::fmt;

// Standard output. What it doesn't take is not looked at: no program ends otherwise for it.
#[derive(Clone, Copy, Drop)]
pub struct Output;

impl fmt::Write for Output {
    fn write_str(&mut self, text: &str) -> fmt::Result {
        io::write_all(1, text.as_bytes());
        Ok(())
    }
}

// Each number with a blank before it.
#[derive(Clone, Copy, Drop)]
pub struct Numbers<'a>(pub &'a [i16]);

impl<'a> fmt::Display for Numbers<'a> {
    fn fmt<W: fmt::Write>(&self, f: &mut fmt::Formatter<W>) -> fmt::Result {
        for n in self.0 {
            write!(f, " {n}")?;
        }
        Ok(())
    }
}

#[derive(Clone, Copy, Drop)]
struct Counts(TrackCounts);

impl fmt::Display for Counts {
    fn fmt<W: fmt::Write>(&self, f: &mut fmt::Formatter<W>) -> fmt::Result {
        let TrackCounts {
            negative,
            explicit,
            positive,
        } = self.0;
        write!(f, "{negative} {explicit} {positive}")
    }
}

// `ok` and the item count, a line an item, of as many as there are lines for, `cols` and `rows`; or `refused`, the number and the index.
#[derive(Clone, Copy, Drop)]
pub struct Told<'a> {
    pub answer: Result<PlacedFile, Refusal>,
    pub lines: &'a [i16],
}

impl<'a> fmt::Display for Told<'a> {
    fn fmt<W: fmt::Write>(&self, f: &mut fmt::Formatter<W>) -> fmt::Result {
        match self.answer {
            Ok(placed) => {
                writeln!(f, "ok {}", placed.count)?;
                let items = self.lines.chunks_exact(5).take(usize::from(placed.count));
                for (i, lines) in items.enumerate() {
                    writeln!(f, "{i}{}", Numbers(lines))?;
                }
                writeln!(f, "cols {}", Counts(placed.columns))?;
                writeln!(f, "rows {}", Counts(placed.rows))
            }
            Err(refusal) => writeln!(f, "refused {} {}", refusal.number(), refusal.index()),
        }
    }
}
