// The months of a calendar.
ghost use Rattle.std.specs.Prelude.{◌≡◌, ◌*◌, ◌<◌};
ghost use Rattle.reckoning.specs.Rule.{year_of};
ghost use Rattle.lunisolar.specs.Calendars.{rule_of, lunation_at};
ghost use Rattle.lunisolar.specs.Names.{name_of};
ghost use Rattle.lunisolar.specs.Dates.{month_days};
ghost use Rattle.mean_calendar.specs.Parts.{over_day};
ghost use Rattle.mean_calendar.specs.Heads.{year_head};
ghost use Rattle.mean_calendar.specs.Months.{month_of, month_row};

use crate::parts::{DayShare, over_day};
use crate::{MeanHead, MeanMonth};
use lunisolar::means::month_length;
use lunisolar::naming::MonthName;
use lunisolar::{Calendar, Constants, Year};
use refusal::Refusal;

// The month whose name, new moon and length are at hand. Nothing is worked out, so that the constants stand in the contract alone.
pub fn month_by(
    k: Constants,
    name: MonthName,
    lunation: u64,
    moon: DayShare,
    length: u64,
) -> MeanMonth
    requires { (name ≡ name_of k lunation) × (moon ≡ over_day k (lunation * k.month)) × (length ≡ month_days k lunation) }
    ensures { result ≡ month_of k lunation }
{
    MeanMonth {
        lunation,
        year: name.year,
        place: name.place,
        number: name.number,
        leap: name.leap,
        day: moon.whole,
        remainder: moon.rest,
        length,
    }
}

// The day and small remainder of a month's new moon.
fn new_moon(k: Calendar, lunation: u64) -> DayShare
    requires { lunation < k.constants.lunations }
    ensures { result ≡ over_day k.constants (lunation * k.constants.month) }
{
    over_day(k, lunation * k.constants.month)
}

// The month whose year, counted from 0, and the months before that year are at hand.
fn month_from(year: Year, lunation: u64) -> MeanMonth
    requires { (lunation < year.calendar.constants.lunations) × (year.past ≡ year_of (rule_of year.calendar.constants) lunation) }
    ensures { result ≡ month_of year.calendar.constants lunation }
{
    let moon = new_moon(year.calendar, lunation);
    let length = month_length(year.calendar, lunation);
    let next = moon.whole + length;
    let name = lunisolar::naming::name_from(
        year.calendar,
        year.past,
        lunation - year.before,
        moon.whole,
        next,
    );
    month_by(year.calendar.constants, name, lunation, moon, length)
}

// The month worked out from the origin.
pub fn month_of(k: Calendar, lunation: u64) -> MeanMonth
    requires { lunation < k.constants.lunations }
    ensures { result ≡ month_of k.constants lunation }
{
    let y = lunisolar::rule::year_of(k, lunation);
    month_from(lunisolar::rule::begun(k, y), lunation)
}

// The month at a place of a year, which was sought there.
#[tactic(auto, unfolding(crate::specs::Months::month_for))]
pub fn month_for(
    k: Calendar,
    year: u64,
    place: u64,
    month: Result<u64, Refusal>,
) -> Result<MeanMonth, Refusal>
    requires { month ≡ lunation_at k.constants year place }
    ensures { result ≡ month_row k.constants year place }
{
    let m = month?;
    // the month less its place is the months before its year
    let begun = Year {
        calendar: k,
        past: year - k.constants.first,
        before: m - place,
    };
    Ok(month_from(begun, m))
}

// The month at a place of a year whose head is at hand: one head serves all months of its year.
pub fn month_under(k: Calendar, year: u64, head: MeanHead, place: u64) -> MeanMonth
    requires { (Ok head ≡ year_head k.constants year) × (place < head.months) }
    ensures { Ok result ≡ month_row k.constants year place }
{
    let name = lunisolar::naming::name_under(k, year - k.constants.first, head.leap, place);
    let lunation = head.before + place;
    let length = month_length(k, lunation);
    month_by(k.constants, name, lunation, new_moon(k, lunation), length)
}
