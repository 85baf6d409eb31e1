// A month's name: its year, its place, its month number and whether it is the leap month.
ghost use Rattle.std.specs.Prelude.{◌≡◌, ◌+◌, ◌%◌, ◌<◌};
ghost use Rattle.reckoning.specs.Rule.{leap_place, month_count};
ghost use Rattle.reckoning.specs.Means.{new_moon};
ghost use Rattle.reckoning.specs.Figures.{leap_at, leap_or_past, number_by, number_at};
ghost use Rattle.lunisolar.specs.Calendars.{means_of, rule_of};
ghost use Rattle.lunisolar.specs.Names.{name_of};

use crate::Calendar;
use crate::means::term_from;

// A year as it is written, a place, a month number (11 at place 0) and the leap mark.
#[derive(Clone, Copy)]
pub struct MonthName {
    pub year: u64,
    pub place: u64,
    pub number: u64,
    pub leap: bool,
}

// The number so many months after the first, by a comparison: nothing is divided.
fn number_after(months: u64) -> u64
    requires { months < 24 }
    ensures { result ≡ months % 12 + 1 }
{
    if months < 12 { months + 1 } else { months - 11 }
}

// The number at a place, where the leap month has come by then or hasn't.
fn number_by(come: bool, place: u64) -> u64
    requires { place < 13 }
    ensures { result ≡ number_by come place }
{
    // The leap month and those after it are one number behind. Taken off as a number, it needs no jump.
    number_after(place + 10 - come as u64)
}

// The leap place, or one past every place where there is none: one comparison then tells where a month stands to it.
fn leap_from(leap: u64) -> u64
    ensures { result ≡ leap_or_past leap }
{
    if leap == 0 { 13 } else { leap }
}

// Leap mark and number at a place, where the year's leap place is at hand (0 for none).
fn leap_at(leap: u64, place: u64) -> bool
    requires { place < 13 }
    ensures { result ≡ leap_at leap place }
{
    place == leap_from(leap)
}

fn number_at(leap: u64, place: u64) -> u64
    requires { place < 13 }
    ensures { result ≡ number_at leap place }
{
    number_by(leap_from(leap) <= place, place)
}

// The name of the month at a place of year y, whose leap place is at hand.
pub fn name_under(k: Calendar, y: u64, leap: u64, place: u64) -> MonthName
    requires { (y < 1048576) × (leap ≡ leap_place (rule_of k.constants) y) × (place < month_count (rule_of k.constants) y) }
    ensures { result ≡ name_of k.constants ((rule_of k.constants).before y + place) }
{
    MonthName {
        year: y + k.constants.first,
        place,
        number: number_at(leap, place),
        leap: leap_at(leap, place),
    }
}

// The name of the month at a place of year y, from its own first day and the next month's: two middle terms tell it, no leap place is sought.
pub fn name_from(k: Calendar, y: u64, place: u64, first: u64, next: u64) -> MonthName
    requires { (y < 1048576) × (place < month_count (rule_of k.constants) y) × (first ≡ new_moon (means_of k.constants) ((rule_of k.constants).before y + place)) × (next ≡ new_moon (means_of k.constants) ((rule_of k.constants).before y + place + 1)) }
    ensures { result ≡ name_of k.constants ((rule_of k.constants).before y + place) }
{
    let come = term_from(k, 12 * y + place, next);
    // at place 0 no leap month has come, so that the term before it need not be asked
    let earlier = place - (0 < place) as u64;
    let had = term_from(k, 12 * y + earlier, first);
    MonthName {
        year: y + k.constants.first,
        place,
        number: number_by(come, place),
        leap: come & !had,
    }
}
