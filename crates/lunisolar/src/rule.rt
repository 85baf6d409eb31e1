// THE LEAP RULE in figures: days of new moons and of middle terms are compared, nothing else. Years are counted from 0.
ghost use Rattle.std.specs.Prelude.{◌≡◌, ◌+◌, ◌*◌, ◌≤◌, ◌<◌, leb};
ghost use Rattle.reckoning.specs.Rule.{month_count, leap_place, year_of};
ghost use Rattle.reckoning.specs.Means.{new_moon, term_day};
ghost use Rattle.reckoning.specs.Figures.{LeapNear};
ghost use Rattle.lunisolar.specs.Calendars.{means_of, rule_of};
ghost use Rattle.lunisolar.specs.Heads.{year_months};

use crate::means::{month_length, month_of_day, new_moon_day, term_from};
use crate::{Calendar, Year};

// Whether middle term j falls on the first day of month m or later.
fn term_reaches(k: Calendar, j: u64, m: u64) -> bool
    requires { (j ≤ 16777216) × (m ≤ 16777216) }
    ensures { result ≡ leb (new_moon (means_of k.constants) m) (term_day (means_of k.constants) j) }
{
    term_from(k, j, new_moon_day(k, m))
}

// The months before year y: those before the month of its solstice's day.
pub fn months_before(k: Calendar, y: u64) -> u64
    requires { y ≤ 1048576 }
    ensures { result ≡ (rule_of k.constants).before y }
{
    month_of_day(k, y * k.constants.year / k.constants.degree)
}

// Year y with the months before it.
pub fn begun(k: Calendar, y: u64) -> Year
    requires { y < 1048576 }
    ensures { (result.calendar ≡ k) × (result.past ≡ y) }
{
    Year {
        calendar: k,
        past: y,
        before: months_before(k, y),
    }
}

// The months before year y from a count that may be one short: one more where the month after so many begins on the solstice's day.
pub fn months_from(k: Calendar, y: u64, count: u64) -> u64
    requires { (y ≤ 1048576) × (count ≤ (rule_of k.constants).before y) × ((rule_of k.constants).before y ≤ count + 1) }
    ensures { result ≡ (rule_of k.constants).before y }
{
    if term_reaches(k, 12 * y, count + 1) {
        count + 1
    } else {
        count
    }
}

// The months of a year: a thirteenth where the next solstice falls on the first day of the month after the thirteenth or later.
pub fn month_count(year: Year) -> u64
    ensures { result ≡ month_count (rule_of year.calendar.constants) year.past }
{
    12 + term_reaches(year.calendar, 12 * year.past + 12, year.before + 13) as u64
}

// A place next to that of a year's leap month, or its own, if the year has one: the last at which by instants it hasn't come. By instants it has come
// from the first place on whose term has fallen behind by the whole gap from the solstice to the next new moon; by days from there, or from one
// or two places before.
fn near_leap(year: Year) -> u64
    ensures { (result < 1048576) × (0 < 12 * year.past + result) × LeapNear (leap_place (rule_of year.calendar.constants) year.past) result }
{
    // in parts of which a day has the product of the two divisors, and a term falls behind by a twelfth of its gain at each place
    let k = year.calendar.constants;
    let gap = (year.before + 1) * k.month * k.degree - year.past * k.year * k.day;
    let gain = k.year * k.day - 12 * k.degree * k.month;
    (12 * gap - 1) / gain
}

// The place of the leap month of a year, 0 where it has none, from a place that is its own or next to it; where the year has none, any place serves
// that has a term before it. That place and the one before are looked at in every year, and what they tell is taken times 0 or 1: a jump would often
// be guessed wrongly. The bound on the place leaves room for the figures; it need not be one of the year's.
fn leap_beside(year: Year, near: u64) -> u64
    requires { (near < 1048576) × (0 < 12 * year.past + near) × LeapNear (leap_place (rule_of year.calendar.constants) year.past) near }
    ensures { result ≡ leap_place (rule_of year.calendar.constants) year.past }
{
    let k = year.calendar;
    let m = year.before + near;
    let first = new_moon_day(k, m);
    let come = term_from(k, 12 * year.past + near, first + month_length(k, m)) as u64;
    let had = term_from(k, 12 * year.past + near - 1, first) as u64;
    (near + 1 - come - had) * (month_count(year) - 12)
}

// What a year has of its months: those before it, how many it has, and the place of the leap month, 0 for none as `leap_place` and the heads handed to
// C have it.
#[derive(Clone, Copy)]
pub struct YearMonths {
    pub before: u64,
    pub count: u64,
    pub leap: u64,
}

// Of a year, from a place that is its leap month's or next to it.
pub fn months_near(year: Year, near: u64) -> YearMonths
    requires { (near < 1048576) × (0 < 12 * year.past + near) × LeapNear (leap_place (rule_of year.calendar.constants) year.past) near }
    ensures { result ≡ year_months year.calendar.constants year.past }
{
    let count = month_count(year);
    let leap = leap_beside(year, near);
    YearMonths {
        before: year.before,
        count,
        leap,
    }
}

// Of a year, from a place worked out from its solstice.
pub fn year_months(year: Year) -> YearMonths
    ensures { result ≡ year_months year.calendar.constants year.past }
{
    months_near(year, near_leap(year))
}

// The year of month m: the last whose solstice falls before the next month's first day.
pub fn year_of(k: Calendar, m: u64) -> u64
    requires { m < 16777216 }
    ensures { result ≡ year_of (rule_of k.constants) m }
{
    (new_moon_day(k, m + 1) * k.constants.degree - 1) / k.constants.year
}
