// Why a job refuses, and the number that it returns then (01, "Numbers returned"; 02).
#![tactic(auto)]

ghost use Rattle.std.specs.Prelude.{◌≡◌, ℕ};
ghost use Rattle.refusal.specs.Numbers.{number_of, answer_number};

#[derive(Clone, Copy, Debug, PartialEq, Eq)]
pub enum Refusal {
    // a year outside the calendar's years
    Year,
    // a place not below the year's month count
    Place,
    // a day of the month that is 0 or past the month's length
    DayOfMonth,
    // a handed-in row that is not the row of the month it names, or that names none
    Row,
    // a carry that would end outside the round
    Carry,
    // a lent list shorter than the year's month count
    List,
    // a day number past the calendar's days
    Day,
    // a cut of the year other than 24, 60 and 72, or a point not below the cut
    Cut,
    // a planet outside 1 to 5
    Planet,
    // a day of the sixty outside 1 to 60
    DayOfSixty,
    // neither of two lent lists of day names is exactly 360 bytes
    Names,
    // a span of years in the wrong order, or with a year that is not in the volume
    Span,
    // a lent buffer shorter than the volume
    Room,
    // bytes that are no whole number of blocks, or none; to be mended, more blocks than that takes
    Volume,
    // a block with a wrong check, or not the writer's for its place and the first block's year; totals that fall from one block to another
    Block,
    // a volume to be mended whose blocks tell no first year: none is sound, sound ones imply different first years, or the run leaves the round
    FirstYear,
}

impl Refusal {
    // A method and not `u64::from`: `number` is the word for it in every answer (`Numbered`).
    pub fn number(self) -> u64
        ensures { result ≡ number_of self }
    {
        match self {
            Refusal::Year => 1,
            Refusal::Place => 2,
            Refusal::DayOfMonth => 3,
            Refusal::Row => 4,
            Refusal::Carry => 5,
            Refusal::List => 6,
            Refusal::Day => 7,
            Refusal::Cut => 8,
            Refusal::Planet => 9,
            Refusal::DayOfSixty => 3,
            Refusal::Names => 10,
            Refusal::Span => 2,
            Refusal::Room => 6,
            Refusal::Volume => 11,
            Refusal::Block => 12,
            Refusal::FirstYear => 13,
        }
    }
}

// A job's answer is a `Result`: its values, or why it refuses. Those who can't be handed that get its number, beside the values or zeros.
pub trait Numbered {
    ghost number: { Self → ℕ };

    fn number(self) -> u64
        ensures { result ≡ number self };
}

impl<T: Drop> Numbered for Result<T, Refusal> {
    ghost number = { answer_number };

    fn number(self) -> u64 {
        match self {
            Ok(_) => 0,
            Err(e) => e.number(),
        }
    }
}
