// The jobs of any calendar of mean months and middle terms, once over its constants: heads, months, cuts of the year, and months carried by counts.
// Years are as each calendar writes them; a place is a month's index in its year, from 0; days and months are counted from the calendar's origin.
#![tactic(auto)]

use parts::{DayParts, DegreeParts};

pub mod carries;
pub mod cuts;
pub mod heads;
pub mod months;
pub mod parts;

// A year: the months before it, its month count, its leap place (0 for none), and its winter solstice's day and remainder.
#[derive(Clone, Copy, Default)]
pub struct MeanHead {
    pub before: u64,
    pub months: u64,
    pub leap: u64,
    pub solstice: u64,
    pub remainder: DegreeParts,
}

// A month: its number from the origin (積月), its year and place, its month number (11 at place 0), whether it is the leap month (閏月), its first day
// with the small remainder (小餘) of its new moon, and its length. These are 01's eight fields: every calendar's rows have them.
#[derive(Clone, Copy, Default)]
pub struct MeanMonth {
    pub lunation: u64,
    pub year: u64,
    pub place: u64,
    pub number: u64,
    pub leap: bool,
    pub day: u64,
    pub remainder: DayParts,
    pub length: u64,
}

// A point of a cut of the year: its day, its remainder over the degree divisor, and the rest of a part over the cut.
#[derive(Clone, Copy, Default)]
pub struct MeanPoint {
    pub day: u64,
    pub remainder: DegreeParts,
    pub rest: u64,
}
