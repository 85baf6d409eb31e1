// The Zhengguang calendar for C and Rust.
ghost use Rattle.std.specs.Prelude.{◌≡◌, map};
ghost use Rattle.refusal.specs.Numbers.{answer_number};
ghost use Rattle.std.specs.Result.{result_unwrap_or};
ghost use Rattle.lunisolar.specs.Dates.{day_of_date, date_of_day};
ghost use Rattle.lunisolar.specs.Answers.{zero_day, zero_date};
ghost use Rattle.mean_calendar.specs.Points.{cut_point};
ghost use Rattle.mean_calendar.specs.Answers.{zero_point};
ghost use Rattle.zhengguang.specs.Zhengguang.{zhengguang};
ghost use Rattle.zhengguang.specs.Nodes.{nodes_at};
ghost use Rattle.zhengguang.specs.Rows.{year_head, month_row, row_fields};
ghost use Rattle.zhengguang.specs.Answers.{zero_head, zero_row, zero_nodes};
ghost use Rattle.zhengguang.specs.Carries.{carried_fields, walk_answer_fields, zero_walk};
ghost use Rattle.zhengguang.specs.Years.{year_rows};
ghost use Rattle.fields.specs.Fields.{day_fields, date_fields};
ghost use Rattle.fields.specs.Walks.{totals_fields};
ghost use Rattle.fields.specs.Calendars.{mean_point_fields, zhengguang_head_fields, month_nodes_fields};

use mean_year::PLACES;
use refusal::Numbered;
use zhengguang::Zhengguang;
use zhengguang::rows::RowFields;

#[unsafe(no_mangle)]
pub extern "C" fn zhengguang_year_head(year: u64, out: &mut [u64; 6]) -> u64
    ensures { (result ≡ answer_number (year_head year)) × (out.new ≡ zhengguang_head_fields (result_unwrap_or (year_head year) zero_head)) }
{
    let answer = zhengguang::heads::year_head(year);
    *out = fields::calendars::zhengguang_head_fields(answer.unwrap_or_default());
    answer.number()
}

#[unsafe(no_mangle)]
pub extern "C" fn zhengguang_month_row(year: u64, place: u64, out: &mut RowFields) -> u64
    ensures { (result ≡ answer_number (month_row year place)) × (out.new ≡ row_fields (result_unwrap_or (month_row year place) zero_row)) }
{
    let answer = zhengguang::rows::month_row(year, place);
    *out = answer.unwrap_or_default().fields();
    answer.number()
}

#[unsafe(no_mangle)]
pub extern "C" fn zhengguang_nodes(year: u64, place: u64, out: &mut [u64; 6]) -> u64
    ensures { (result ≡ answer_number (nodes_at year place)) × (out.new ≡ month_nodes_fields (result_unwrap_or (nodes_at year place) zero_nodes)) }
{
    let answer = zhengguang::nodes::nodes(year, place);
    *out = fields::calendars::month_nodes_fields(answer.unwrap_or_default());
    answer.number()
}

#[unsafe(no_mangle)]
pub extern "C" fn zhengguang_day_of_date(year: u64, place: u64, day: u64, out: &mut [u64; 2]) -> u64
    ensures { (result ≡ answer_number (day_of_date zhengguang year place day)) × (out.new ≡ day_fields (result_unwrap_or (day_of_date zhengguang year place day) zero_day)) }
{
    let answer = Zhengguang::day_of_date(year, place, day);
    *out = fields::day_fields(answer.unwrap_or_default());
    answer.number()
}

#[unsafe(no_mangle)]
pub extern "C" fn zhengguang_date_of_day(number: u64, out: &mut [u64; 3]) -> u64
    ensures { (result ≡ answer_number (date_of_day zhengguang number)) × (out.new ≡ date_fields (result_unwrap_or (date_of_day zhengguang number) zero_date)) }
{
    let answer = Zhengguang::date_of_day(number);
    *out = fields::date_fields(answer.unwrap_or_default());
    answer.number()
}

#[unsafe(no_mangle)]
pub extern "C" fn zhengguang_cut_point(year: u64, cut: u64, index: u64, out: &mut [u64; 3]) -> u64
    ensures { (result ≡ answer_number (cut_point zhengguang year cut index)) × (out.new ≡ mean_point_fields (result_unwrap_or (cut_point zhengguang year cut index) zero_point)) }
{
    let answer = Zhengguang::cut_point(year, cut, index);
    *out = fields::calendars::mean_point_fields(answer.unwrap_or_default());
    answer.number()
}

// `row` is ten numbers, refused under 4 unless they are a genuine row's.
#[unsafe(no_mangle)]
pub extern "C" fn zhengguang_carry(row: &RowFields, count: i64, out: &mut RowFields) -> u64
    ensures { (result ≡ answer_number (carried_fields row.now count)) × (out.new ≡ row_fields (result_unwrap_or (carried_fields row.now count) zero_row)) }
{
    let answer = zhengguang::carries::carry_fields(row, count);
    *out = answer.unwrap_or_default().fields();
    answer.number()
}

#[unsafe(no_mangle)]
pub extern "C" fn zhengguang_walk(
    row: &RowFields,
    counts: &[i64],
    out: &mut RowFields,
    totals: &mut [u64; 3],
) -> u64
    ensures { (result ≡ answer_number (walk_answer_fields row.now counts.now)) × (out.new ≡ row_fields (result_unwrap_or (walk_answer_fields row.now counts.now) zero_walk).row) × (totals.new ≡ totals_fields (result_unwrap_or (walk_answer_fields row.now counts.now) zero_walk).sum (result_unwrap_or (walk_answer_fields row.now counts.now) zero_walk).answered) }
{
    let answer = zhengguang::walks::walk_fields(row, counts);
    let end = answer.unwrap_or_default();
    *out = end.row.fields();
    *totals = fields::walks::totals_fields(end.sum, end.answered);
    answer.number()
}

// A year by value: rows past its count are zeros.
#[unsafe(no_mangle)]
pub extern "C" fn zhengguang_year(
    year: u64,
    head: &mut [u64; 6],
    rows: &mut [RowFields; PLACES],
) -> u64
    ensures { (result ≡ answer_number (year_head year)) × (head.new ≡ zhengguang_head_fields (result_unwrap_or (year_head year) zero_head)) × (rows.new ≡ map row_fields (year_rows year).rows) }
{
    let answer = zhengguang::years::write_year(year, rows);
    *head = fields::calendars::zhengguang_head_fields(answer.unwrap_or_default());
    answer.number()
}
