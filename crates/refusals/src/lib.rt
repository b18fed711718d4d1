// Why a call is refused: document 01's rows, each with its number.
#![tactic(auto)]

ghost use Rattle.std.specs.Prelude.{◌≡◌};
ghost use Rattle.refusals.specs.Numbers.{number, index};

// An item's index goes with the rows that name one.
#[derive(Clone, Copy, PartialEq, Eq)]
pub enum Refusal {
    UnknownFlow,
    WrongItemNumbers,
    CountsOutsideLimits,
    ShortAnswers,
    WrongListLength,
    BadItem(usize),
    ShortRowList(usize),
    ShortColumnList(usize),
    // The only list lent: row 7 too.
    ShortList,
    BrokenList,
    BadArea,
    BadLine,
    NotAFile,
}

impl Refusal {
    // The document's number.
    pub fn number(self) -> u8
        ensures { result ≡ number self }
    {
        match self {
            Refusal::UnknownFlow => 1,
            Refusal::WrongItemNumbers => 2,
            Refusal::CountsOutsideLimits => 3,
            Refusal::ShortAnswers => 4,
            Refusal::WrongListLength => 5,
            Refusal::BadItem(_) => 6,
            Refusal::ShortRowList(_) | Refusal::ShortList => 7,
            Refusal::ShortColumnList(_) => 8,
            Refusal::BrokenList => 9,
            Refusal::BadArea => 10,
            Refusal::BadLine => 11,
            Refusal::NotAFile => 12,
        }
    }

    // The item's index, 0 where none is named.
    pub fn index(self) -> usize
        ensures { result ≡ index self }
    {
        match self {
            Refusal::BadItem(i) | Refusal::ShortRowList(i) | Refusal::ShortColumnList(i) => i,
            _ => 0,
        }
    }
}
