// Any calendar of mean months and middle terms: the arithmetic, once, over the calendar's constants.
// Years are counted from 0, but where they are taken or given as the calendar writes them; months from 0 over the whole calendar.
#![tactic(auto)]

ghost use Rattle.std.specs.Prelude.{◌≡◌, ◌<◌, ltb};
ghost use Rattle.reckoning.specs.Rule.{month_count};
ghost use Rattle.lunisolar.specs.Calendars.{Sound, rule_of, year_at, lunation_for, lunation_at};

use refusal::Refusal;

pub mod dates;
pub mod means;
pub mod naming;
pub mod rule;
pub mod sixty;

// A year is year/degree days and a month month/day days.
#[derive(Clone, Copy)]
pub struct Constants {
    pub year: u64,
    // the degree divisor (度法, 蔀法)
    pub degree: u64,
    pub month: u64,
    // the day divisor (日法)
    pub day: u64,
    // the number of the first year, and how many years there are, with their months and days
    pub first: u64,
    pub years: u64,
    pub lunations: u64,
    pub days: u64,
}

// A calendar: its constants, which are sound.
#[derive(Clone, Copy)]
pub struct Calendar {
    pub constants: Constants,
    pub ghost sound: { Sound constants },
}

// A year of a calendar by the years past, and the months before it.
#[derive(Clone, Copy)]
pub struct Year {
    pub calendar: Calendar,
    pub past: u64,
    pub before: u64,
    pub ghost low: { past < 1048576 },
    pub ghost counted: { before ≡ (rule_of calendar.constants).before past },
}

// The years past before a year as it is written.
pub fn year_at(k: Calendar, year: u64) -> Result<u64, Refusal>
    ensures { result ≡ year_at k.constants year }
{
    if year < k.constants.first {
        return Err(Refusal::Year);
    }
    let past = year - k.constants.first;
    if k.constants.years <= past {
        return Err(Refusal::Year);
    }
    Ok(past)
}

// Whether a year has a place.
fn has_place(year: Year, place: u64) -> bool
    ensures { result ≡ ltb place (month_count (rule_of year.calendar.constants) year.past) }
{
    // Every year has twelve months: the thirteenth is seldom asked for, and only then looked for.
    if place < 12 {
        return true;
    }
    place < rule::month_count(year)
}

// The month at a place of a year.
pub fn lunation_in(year: Year, place: u64) -> Result<u64, Refusal>
    ensures { result ≡ lunation_for year.calendar.constants (Ok year.past) place }
{
    if has_place(year, place) {
        Ok(year.before + place)
    } else {
        Err(Refusal::Place)
    }
}

// The month at a place of a year as it is written.
#[tactic(auto, unfolding(crate::specs::Calendars::lunation_for))]
pub fn lunation_at(k: Calendar, year: u64, place: u64) -> Result<u64, Refusal>
    ensures { result ≡ lunation_at k.constants year place }
{
    let y = year_at(k, year)?;
    lunation_in(rule::begun(k, y), place)
}
