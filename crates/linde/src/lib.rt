// The Linde calendar (麟德曆, Tang) by its mean months and middle terms: every job of any calendar, at its constants.
// Its years are counts from 0 to 300,000, as they stand; the year Linde 1 is 269,880.
#![tactic(auto)]

ghost use Rattle.std.specs.Prelude.{◌≡◌, map, pos, negsuc};
ghost use Rattle.lunisolar.specs.Calendars.{Sound};
ghost use Rattle.lunisolar.specs.Dates.{day_of_date, date_of_day};
ghost use Rattle.mean_calendar.specs.Heads.{year_head};
ghost use Rattle.mean_calendar.specs.Months.{month_row, month_fields};
ghost use Rattle.mean_calendar.specs.Points.{cut_point};
ghost use Rattle.mean_calendar.specs.Carries.{carried, genuine_fields, carried_fields};
ghost use Rattle.mean_walk.specs.Walked.{walk_answer, walk_answer_fields};
ghost use Rattle.mean_year.specs.Years.{mean_year};
ghost use Rattle.linde.specs.Linde.{linde};

use lunisolar::dates::{Date, Day};
use lunisolar::{Calendar, Constants};
use mean_calendar::carries::MonthFields;
use mean_calendar::{MeanHead, MeanMonth, MeanPoint};
use mean_year::{MeanYear, PLACES};
use refusal::Refusal;
use walking::Walked;

#[derive(Clone, Copy)]
pub struct Linde;

impl Linde {
    // the one divisor (推法, 總法): the day divisor, and the degree divisor
    pub const N: u64 = 1340;

    pub const D: u64 = 1340;

    // the month over N (恆朔實)
    pub const P: u64 = 39571;

    // the year over D (期實)
    pub const YEAR: u64 = 489428;

    // how many years there are, with their months and days
    pub const YEARS: u64 = 300001;

    pub const MONTHS: u64 = 3710517;

    pub const DAYS: u64 = 109573782;

    pub fn constants() -> Constants
        ensures { (result ≡ linde) × Sound result }
    {
        Constants {
            year: Linde::YEAR,
            degree: Linde::D,
            month: Linde::P,
            day: Linde::N,
            first: 0,
            years: Linde::YEARS,
            lunations: Linde::MONTHS,
            days: Linde::DAYS,
        }
    }

    pub fn calendar() -> Calendar
        ensures { result.constants ≡ linde }
    {
        Calendar {
            constants: Linde::constants(),
        }
    }

    pub fn year_head(year: u64) -> Result<MeanHead, Refusal>
        ensures { result ≡ year_head linde year }
    {
        let k = Linde::calendar();
        let first = lunisolar::lunation_at(k, year, 0);
        mean_calendar::heads::head_for(k, year, first)
    }

    pub fn month_row(year: u64, place: u64) -> Result<MeanMonth, Refusal>
        ensures { result ≡ month_row linde year place }
    {
        let k = Linde::calendar();
        let month = lunisolar::lunation_at(k, year, place);
        mean_calendar::months::month_for(k, year, place, month)
    }

    pub fn day_of_date(year: u64, place: u64, day: u64) -> Result<Day, Refusal>
        ensures { result ≡ day_of_date linde year place day }
    {
        lunisolar::dates::day_of_date(Linde::calendar(), year, place, day)
    }

    pub fn date_of_day(number: u64) -> Result<Date, Refusal>
        ensures { result ≡ date_of_day linde number }
    {
        lunisolar::dates::date_of_day(Linde::calendar(), number)
    }

    pub fn cut_point(year: u64, cut: u64, index: u64) -> Result<MeanPoint, Refusal>
        ensures { result ≡ cut_point linde year cut index }
    {
        mean_calendar::cuts::cut_point(Linde::calendar(), year, cut, index)
    }

    // Whether a month handed in as numbers is the one of the calendar that it names.
    fn is_genuine(fields: &MonthFields) -> bool
        ensures { result ≡ genuine_fields linde fields.now }
    {
        mean_calendar::carries::is_genuine(Linde::calendar(), fields)
    }

    // The month so many months on, or back, of a month handed in as numbers.
    pub fn carry_fields(fields: &MonthFields, count: i64) -> Result<MeanMonth, Refusal>
        ensures { result ≡ carried_fields linde fields.now count }
    {
        let genuine = Linde::is_genuine(fields);
        mean_calendar::carries::carry_tested(Linde::calendar(), genuine, fields, count)
    }

    // The same of a month.
    pub fn carry(month: MeanMonth, count: i64) -> Result<MeanMonth, Refusal>
        ensures { result ≡ carried linde month count }
    {
        let fields = month.fields();
        Linde::carry_fields(&fields, count)
    }

    pub fn next(month: MeanMonth) -> Result<MeanMonth, Refusal>
        ensures { result ≡ carried linde month (pos 1) }
    {
        Linde::carry(month, 1)
    }

    pub fn back(month: MeanMonth) -> Result<MeanMonth, Refusal>
        ensures { result ≡ carried linde month (negsuc 0) }
    {
        Linde::carry(month, -1)
    }

    pub fn walk_fields(start: &MonthFields, counts: &[i64]) -> Result<Walked<MeanMonth>, Refusal>
        ensures { result ≡ walk_answer_fields linde start.now counts.now }
    {
        let genuine = Linde::is_genuine(start);
        mean_walk::walk_tested(Linde::calendar(), genuine, start, counts)
    }

    pub fn walk(start: MeanMonth, counts: &[i64]) -> Result<Walked<MeanMonth>, Refusal>
        ensures { result ≡ walk_answer linde start counts.now }
    {
        let fields = start.fields();
        Linde::walk_fields(&fields, counts)
    }

    pub fn year_by_value(year: u64) -> MeanYear
        ensures { result ≡ mean_year linde year }
    {
        let head = Linde::year_head(year);
        mean_year::year_under(Linde::calendar(), year, head)
    }

    // The same with the months as numbers in a lent array.
    pub fn write_year(year: u64, rows: &mut [MonthFields; PLACES]) -> Result<MeanHead, Refusal>
        ensures { (result ≡ year_head linde year) × (rows.new ≡ map month_fields (mean_year linde year).months) }
    {
        let head = Linde::year_head(year);
        mean_year::write_months(Linde::calendar(), year, head, rows);
        head
    }
}
