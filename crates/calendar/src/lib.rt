// The Xinghe calendar: year heads, month rows, and dates and day numbers, for every input.
// A year is written from 1; a place is a month's index in its year, from 0; a day number is counted from the origin, from 0.
#![tactic(auto)]

ghost use Rattle.std.specs.Prelude.{◌≡◌};
ghost use Rattle.calendar.specs.Answers.{zero_row};

use node::Side;
use sun::Solstice;
use units::remainder::DayRemainder;

pub mod carries;
pub mod dates;
pub mod elements;
pub mod heads;
pub mod rows;

// A year: the months before it, the leap remainder (閏餘) of its chapter, its month count, its leap place (0 for none) and its winter solstice.
#[derive(Clone, Copy, Default)]
pub struct YearHead {
    pub before: u64,
    pub remainder: u64,
    pub months: u64,
    pub leap: u64,
    pub solstice: Solstice,
}

// A month: its number in the round (積月), its year and place, its month number (11 at place 0), whether it is the leap month (閏月), its
// first day with the small remainder (小餘) of its new moon, and its length; and of that new moon the degrees since the last node (交) and
// their remainder (the residue), the side of the road (表裏), and the day of the anomaly (入曆日) and its rest.
#[derive(Clone, Copy)]
pub struct MonthRow {
    pub lunation: u64,
    pub year: u64,
    pub place: u64,
    pub number: u64,
    pub leap: bool,
    pub day: u64,
    pub remainder: DayRemainder,
    pub length: u64,
    pub degrees: u64,
    pub residue: DayRemainder,
    pub side: Side,
    pub anomaly: u64,
    pub rest: DayRemainder,
}

// What a refused row is: all zeros, at the node. By hand and not derived, so that it is one equation with `zero_row`.
impl Default for MonthRow {
    ghost is_default = { λ row. row ≡ zero_row };

    fn default() -> MonthRow {
        MonthRow {
            lunation: 0,
            year: 0,
            place: 0,
            number: 0,
            leap: false,
            day: 0,
            remainder: DayRemainder { parts: 0 },
            length: 0,
            degrees: 0,
            residue: DayRemainder { parts: 0 },
            side: Side::AtNode,
            anomaly: 0,
            rest: DayRemainder { parts: 0 },
        }
    }
}
