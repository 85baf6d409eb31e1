// The mean moon and sun: the day of a new moon, a month's length, the month of a day, and where a middle term falls.
ghost use Rattle.std.specs.Prelude.{◌≡◌, ◌≤◌, leb};
ghost use Rattle.reckoning.specs.Dates.{month_of};
ghost use Rattle.reckoning.specs.Means.{new_moon, term_day};
ghost use Rattle.lunisolar.specs.Calendars.{means_of};
ghost use Rattle.lunisolar.specs.Dates.{month_days, length_by};

use crate::Calendar;

// The day on which month m begins.
pub fn new_moon_day(k: Calendar, m: u64) -> u64
    requires { m ≤ 16777216 }
    ensures { result ≡ new_moon (means_of k.constants) m }
{
    m * k.constants.month / k.constants.day
}

// The days of a month by its small remainder: the next new moon need not be worked out.
fn length_by(k: Calendar, rest: u64) -> u64
    ensures { result ≡ length_by k.constants rest }
{
    if 30 * k.constants.day - k.constants.month <= rest {
        30
    } else {
        29
    }
}

// The days of month m.
pub fn month_length(k: Calendar, m: u64) -> u64
    requires { m ≤ 16777216 }
    ensures { result ≡ month_days k.constants m }
{
    length_by(k, m * k.constants.month % k.constants.day)
}

// Whether middle term j, that is term j % 12 of year j / 12, falls on a day or later: nothing is divided.
pub fn term_from(k: Calendar, j: u64, d: u64) -> bool
    requires { (j ≤ 16777216) × (d ≤ 1073741824) }
    ensures { result ≡ leb d (term_day (means_of k.constants) j) }
{
    d * (12 * k.constants.degree) <= j * k.constants.year
}

// The month that a day lies in.
pub fn month_of_day(k: Calendar, d: u64) -> u64
    requires { d ≤ 1073741824 }
    ensures { result ≡ month_of (new_moon (means_of k.constants)) d }
{
    (d * k.constants.day + (k.constants.day - 1)) / k.constants.month
}
