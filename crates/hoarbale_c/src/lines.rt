// Line conversions, and a line's place in the track vector.
ghost use Rattle.std.specs.Prelude.{◌≡◌};
ghost use Rattle.hoarbale_lines.specs.Lines.{origin_zero_answer, css_answer, index_answer};
ghost use Rattle.hoarbale_c.specs.Lines.{of_line, of_zero, of_css, of_index};

use grid_coordinates::{GridLine, OriginZeroLine};
use grid_track_counts::TrackCounts;
use refusals::Refusal;

#[repr(C)]
#[derive(Clone, Copy)]
pub struct LineAnswer {
    pub number: u8,
    pub line: i16,
}

#[repr(C)]
#[derive(Clone, Copy)]
pub struct PlaceInVector {
    pub number: u8,
    pub present: bool,
    pub index: u32,
}

impl From<Result<i16, Refusal>> for LineAnswer {
    ghost from_gives = { λ answer told. told ≡ of_line answer };

    fn from(answer: Result<i16, Refusal>) -> LineAnswer {
        match answer {
            Ok(line) => LineAnswer { number: 0, line },
            Err(refusal) => LineAnswer {
                number: refusal.number(),
                line: 0,
            },
        }
    }
}

impl From<Result<Option<u32>, Refusal>> for PlaceInVector {
    ghost from_gives = { λ answer told. told ≡ of_index answer };

    fn from(answer: Result<Option<u32>, Refusal>) -> PlaceInVector {
        match answer {
            Ok(place) => PlaceInVector {
                number: 0,
                present: place.is_some(),
                index: place.unwrap_or(0),
            },
            Err(refusal) => PlaceInVector {
                number: refusal.number(),
                present: false,
                index: 0,
            },
        }
    }
}

#[unsafe(no_mangle)]
pub extern "C" fn hoarbale_origin_zero_line(css_line: i16, explicit: u16) -> LineAnswer
    ensures { result ≡ of_zero (origin_zero_answer css_line explicit) }
{
    let answer = hoarbale_lines::origin_zero_line(GridLine(css_line), explicit);
    LineAnswer::from(answer.map(|line| line.0))
}

#[unsafe(no_mangle)]
pub extern "C" fn hoarbale_css_line(line: i16, explicit: u16) -> LineAnswer
    ensures { result ≡ of_css (css_answer line explicit) }
{
    let answer = hoarbale_lines::css_line(OriginZeroLine(line), explicit);
    LineAnswer::from(answer.map(|found| found.0))
}

#[unsafe(no_mangle)]
pub extern "C" fn hoarbale_track_index(
    negative: u16,
    explicit: u16,
    positive: u16,
    line: i16,
) -> PlaceInVector
    ensures { result ≡ of_index (index_answer (record { negative = negative; explicit = explicit; positive = positive }) line) }
{
    let counts = TrackCounts {
        negative,
        explicit,
        positive,
    };
    PlaceInVector::from(hoarbale_lines::track_index(counts, OriginZeroLine(line)))
}
