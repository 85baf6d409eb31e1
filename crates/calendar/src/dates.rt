// Dates and day numbers.
ghost use Rattle.std.specs.Prelude.{◌≡◌};
ghost use Rattle.calendar.specs.Dates.{day_of_date, date_of_day};

use lunisolar::dates::{Date, Day};
use refusal::Refusal;
use units::Xinghe;

pub fn day_of_date(year: u64, place: u64, day: u64) -> Result<Day, Refusal>
    ensures { result ≡ day_of_date year place day }
{
    let month = Xinghe::lunation_at(year, place);
    lunisolar::dates::day_for(Xinghe::calendar(), month, day)
}

pub fn date_of_day(number: u64) -> Result<Date, Refusal>
    ensures { result ≡ date_of_day number }
{
    if Xinghe::DAYS <= number {
        return Err(Refusal::Day);
    }
    let m = Xinghe::month_of_day(number);
    let y = Xinghe::year_of(m);
    Ok(lunisolar::dates::date_in(units::chapter::begun(y), m, number))
}
