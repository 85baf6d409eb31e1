// Dates and day numbers.
ghost use Rattle.std.specs.Prelude.{◌≡◌, ◌<◌};
ghost use Rattle.reckoning.specs.Rule.{year_of};
ghost use Rattle.reckoning.specs.Means.{new_moon};
ghost use Rattle.reckoning.specs.Dates.{month_of};
ghost use Rattle.lunisolar.specs.Calendars.{InCalendar, means_of, rule_of};
ghost use Rattle.lunisolar.specs.Dates.{day_in, day_for, day_of_date, date_in, date_of_day};

use crate::means::{month_length, month_of_day, new_moon_day};
use crate::rule::{begun, year_of};
use crate::{Calendar, Year};
use refusal::Refusal;

// A day: its number, and its day of the sixty, from 1.
#[derive(Clone, Copy, Default)]
pub struct Day {
    pub number: u64,
    pub sexagenary: u64,
}

// A date: a year, a place and a day of the month, from 1.
#[derive(Clone, Copy, Default)]
pub struct Date {
    pub year: u64,
    pub place: u64,
    pub day: u64,
}

// A day of month m, from 1.
pub fn day_in(k: Calendar, m: u64, day: u64) -> Result<Day, Refusal>
    requires { m < 16777216 }
    ensures { result ≡ day_in k.constants m day }
{
    if day < 1 {
        return Err(Refusal::DayOfMonth);
    }
    if month_length(k, m) < day {
        return Err(Refusal::DayOfMonth);
    }
    let number = new_moon_day(k, m) + (day - 1);
    Ok(Day {
        number,
        sexagenary: crate::sixty::sexagenary(number),
    })
}

// A day of a month that was sought, from 1: refused as the month is, then as the day is.
#[tactic(auto, unfolding(crate::specs::Dates::day_for))]
pub fn day_for(k: Calendar, month: Result<u64, Refusal>, day: u64) -> Result<Day, Refusal>
    requires { InCalendar k.constants month }
    ensures { result ≡ day_for k.constants month day }
{
    day_in(k, month?, day)
}

pub fn day_of_date(k: Calendar, year: u64, place: u64, day: u64) -> Result<Day, Refusal>
    ensures { result ≡ day_of_date k.constants year place day }
{
    day_for(k, crate::lunation_at(k, year, place), day)
}

pub fn date_of_day(k: Calendar, number: u64) -> Result<Date, Refusal>
    ensures { result ≡ date_of_day k.constants number }
{
    if k.constants.days <= number {
        return Err(Refusal::Day);
    }
    let m = month_of_day(k, number);
    let y = year_of(k, m);
    Ok(date_in(begun(k, y), m, number))
}

// The date of a day, with the month that it lies in, the year of that, counted from 0, and the months before the year.
pub fn date_in(year: Year, m: u64, day: u64) -> Date
    requires { (m < year.calendar.constants.lunations) × (year.past ≡ year_of (rule_of year.calendar.constants) m) × (m ≡ month_of (new_moon (means_of year.calendar.constants)) day) }
    ensures { result ≡ date_in year.calendar.constants m day }
{
    Date {
        year: year.past + year.calendar.constants.first,
        place: m - year.before,
        day: day - new_moon_day(year.calendar, m) + 1,
    }
}
