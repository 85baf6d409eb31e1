// The Linde calendar for C and Rust.
ghost use Rattle.std.specs.Prelude.{◌≡◌, map};
ghost use Rattle.refusal.specs.Numbers.{answer_number};
ghost use Rattle.std.specs.Result.{result_unwrap_or};
ghost use Rattle.lunisolar.specs.Dates.{day_of_date, date_of_day};
ghost use Rattle.lunisolar.specs.Answers.{zero_day, zero_date};
ghost use Rattle.mean_calendar.specs.Heads.{year_head};
ghost use Rattle.mean_calendar.specs.Months.{month_row, month_fields};
ghost use Rattle.mean_calendar.specs.Points.{cut_point};
ghost use Rattle.mean_calendar.specs.Carries.{carried_fields};
ghost use Rattle.mean_calendar.specs.Answers.{zero_head, zero_month, zero_point};
ghost use Rattle.mean_walk.specs.Walked.{walk_answer_fields, zero_walk};
ghost use Rattle.mean_year.specs.Years.{mean_year};
ghost use Rattle.linde.specs.Linde.{linde};
ghost use Rattle.fields.specs.Fields.{day_fields, date_fields};
ghost use Rattle.fields.specs.Walks.{totals_fields};
ghost use Rattle.fields.specs.Calendars.{mean_head_fields, mean_point_fields};

use linde::Linde;
use mean_calendar::carries::MonthFields;
use mean_year::PLACES;
use refusal::Numbered;

#[unsafe(no_mangle)]
pub extern "C" fn linde_year_head(year: u64, out: &mut [u64; 5]) -> u64
    ensures { (result ≡ answer_number (year_head linde year)) × (out.new ≡ mean_head_fields (result_unwrap_or (year_head linde year) zero_head)) }
{
    let answer = Linde::year_head(year);
    *out = fields::calendars::mean_head_fields(answer.unwrap_or_default());
    answer.number()
}

#[unsafe(no_mangle)]
pub extern "C" fn linde_month_row(year: u64, place: u64, out: &mut MonthFields) -> u64
    ensures { (result ≡ answer_number (month_row linde year place)) × (out.new ≡ month_fields (result_unwrap_or (month_row linde year place) zero_month)) }
{
    let answer = Linde::month_row(year, place);
    *out = answer.unwrap_or_default().fields();
    answer.number()
}

#[unsafe(no_mangle)]
pub extern "C" fn linde_day_of_date(year: u64, place: u64, day: u64, out: &mut [u64; 2]) -> u64
    ensures { (result ≡ answer_number (day_of_date linde year place day)) × (out.new ≡ day_fields (result_unwrap_or (day_of_date linde year place day) zero_day)) }
{
    let answer = Linde::day_of_date(year, place, day);
    *out = fields::day_fields(answer.unwrap_or_default());
    answer.number()
}

#[unsafe(no_mangle)]
pub extern "C" fn linde_date_of_day(number: u64, out: &mut [u64; 3]) -> u64
    ensures { (result ≡ answer_number (date_of_day linde number)) × (out.new ≡ date_fields (result_unwrap_or (date_of_day linde number) zero_date)) }
{
    let answer = Linde::date_of_day(number);
    *out = fields::date_fields(answer.unwrap_or_default());
    answer.number()
}

#[unsafe(no_mangle)]
pub extern "C" fn linde_cut_point(year: u64, cut: u64, index: u64, out: &mut [u64; 3]) -> u64
    ensures { (result ≡ answer_number (cut_point linde year cut index)) × (out.new ≡ mean_point_fields (result_unwrap_or (cut_point linde year cut index) zero_point)) }
{
    let answer = Linde::cut_point(year, cut, index);
    *out = fields::calendars::mean_point_fields(answer.unwrap_or_default());
    answer.number()
}

// `row` is eight numbers, refused under 4 unless they are a genuine month's.
#[unsafe(no_mangle)]
pub extern "C" fn linde_carry(row: &MonthFields, count: i64, out: &mut MonthFields) -> u64
    ensures { (result ≡ answer_number (carried_fields linde row.now count)) × (out.new ≡ month_fields (result_unwrap_or (carried_fields linde row.now count) zero_month)) }
{
    let answer = Linde::carry_fields(row, count);
    *out = answer.unwrap_or_default().fields();
    answer.number()
}

#[unsafe(no_mangle)]
pub extern "C" fn linde_walk(
    row: &MonthFields,
    counts: &[i64],
    out: &mut MonthFields,
    totals: &mut [u64; 3],
) -> u64
    ensures { (result ≡ answer_number (walk_answer_fields linde row.now counts.now)) × (out.new ≡ month_fields (result_unwrap_or (walk_answer_fields linde row.now counts.now) zero_walk).row) × (totals.new ≡ totals_fields (result_unwrap_or (walk_answer_fields linde row.now counts.now) zero_walk).sum (result_unwrap_or (walk_answer_fields linde row.now counts.now) zero_walk).answered) }
{
    let answer = Linde::walk_fields(row, counts);
    let end = answer.unwrap_or_default();
    *out = end.row.fields();
    *totals = fields::walks::totals_fields(end.sum, end.answered);
    answer.number()
}

// A year by value: rows past its count are zeros.
#[unsafe(no_mangle)]
pub extern "C" fn linde_year(
    year: u64,
    head: &mut [u64; 5],
    rows: &mut [MonthFields; PLACES],
) -> u64
    ensures { (result ≡ answer_number (year_head linde year)) × (head.new ≡ mean_head_fields (result_unwrap_or (year_head linde year) zero_head)) × (rows.new ≡ map month_fields (mean_year linde year).months) }
{
    let answer = Linde::write_year(year, rows);
    *head = fields::calendars::mean_head_fields(answer.unwrap_or_default());
    answer.number()
}
