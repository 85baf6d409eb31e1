// A year's head.
ghost use Rattle.std.specs.Prelude.{◌≡◌, ◌<◌};
ghost use Rattle.lunisolar.specs.Calendars.{lunation_at};
ghost use Rattle.mean_calendar.specs.Heads.{head_of, year_head};

use crate::MeanHead;
use crate::parts::over_degree;
use lunisolar::{Calendar, Year};
use refusal::Refusal;

// Of a year that has its months before it.
fn head_of(year: Year) -> MeanHead
    ensures { result ≡ head_of year.calendar.constants year.past }
{
    let months = lunisolar::rule::year_months(year);
    let solstice = over_degree(year.calendar, year.past * year.calendar.constants.year);
    MeanHead {
        before: year.before,
        months: months.count,
        leap: months.leap,
        solstice: solstice.whole,
        remainder: solstice.rest,
    }
}

// The head of a year whose first month was sought: its number is the months before the year. In line, since the divisors are known in each calendar's own
// head, and a division by a known number is a multiplication.
#[inline(always)]
pub fn head_for(k: Calendar, year: u64, first: Result<u64, Refusal>) -> Result<MeanHead, Refusal>
    requires { first ≡ lunation_at k.constants year 0 }
    ensures { result ≡ year_head k.constants year }
{
    let before = first?;
    Ok(head_of(Year {
        calendar: k,
        past: year - k.constants.first,
        before,
    }))
}
