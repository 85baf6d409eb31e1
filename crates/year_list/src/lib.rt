// A whole year's rows: in a lent list, or by value. The year's head is worked out once and serves all its rows.
#![tactic(auto)]

ghost use Rattle.std.specs.Prelude.{◌≡◌, ◌+◌, ◌≤◌, ◌<◌, length};
ghost use Rattle.std.specs.Result.{result_unwrap_or};
ghost use Rattle.units.specs.Xinghe.{round_months};
ghost use Rattle.calendar.specs.Elements.{elements_of};
ghost use Rattle.calendar.specs.Heads.{year_head};
ghost use Rattle.calendar.specs.Answers.{zero_head};
ghost use Rattle.year_list.specs.Filled.{answer_for, row_at, fill_answer, filled, filled_front, year_rows};

use calendar::elements::Elements;
use calendar::{MonthRow, YearHead};
use refusal::Refusal;

// How many rows are written, for a year with that head and a list of that many rows.
#[tactic(auto, unfolding(crate::specs::Filled::answer_for))]
pub fn answer_for(head: Result<YearHead, Refusal>, have: usize) -> Result<u64, Refusal>
    ensures { result ≡ answer_for head have }
{
    let head = head?;
    if head.months <= have as u64 {
        Ok(head.months)
    } else {
        Err(Refusal::List)
    }
}

fn head_at(year: u64) -> Result<YearHead, Refusal>
    ensures { result ≡ year_head year }
{
    calendar::heads::year_head(year)
}

// How many rows are written to a list of that many rows: the year's, or none where the job is refused.
fn to_write(head: Result<YearHead, Refusal>, have: usize) -> usize
    ensures { result ≡ result_unwrap_or (answer_for head have) 0 }
{
    answer_for(head, have).unwrap_or(0) as usize
}

// The row at a place of the year with that head.
pub fn row_at(year: u64, head: Result<YearHead, Refusal>, place: usize) -> MonthRow
    requires { (head ≡ year_head year) × (place < (result_unwrap_or head zero_head).months) }
    ensures { result ≡ row_at year place }
{
    calendar::rows::row_under(year, head.unwrap_or_default(), place as u64)
}

// The elements of the first new moon of the year with that head.
pub fn first_elements(head: Result<YearHead, Refusal>) -> Elements
    requires { (result_unwrap_or head zero_head).before < round_months }
    ensures { result ≡ elements_of (result_unwrap_or head zero_head).before }
{
    calendar::elements::elements_of(head.unwrap_or_default().before)
}

// The row at a place of the year with that head, whose new moon's elements are at hand: so the elements go on from place to place by additions,
// which is shorter than from the origin.
pub fn row_with(
    year: u64,
    head: Result<YearHead, Refusal>,
    place: usize,
    elements: Elements,
) -> MonthRow
    requires { (head ≡ year_head year) × (place < (result_unwrap_or head zero_head).months) × (elements ≡ elements_of ((result_unwrap_or head zero_head).before + place)) }
    ensures { result ≡ row_at year place }
{
    calendar::rows::row_with(year, head.unwrap_or_default(), place as u64, elements)
}

// The rows of the year with that head are stored by place at the front of the lent list.
fn fill_under(
    rows: &mut [MonthRow],
    year: u64,
    head: Result<YearHead, Refusal>,
) -> Result<u64, Refusal>
    requires { head ≡ year_head year }
    ensures { (result ≡ fill_answer year (length rows.old)) × (rows.new ≡ filled year rows.old) }
{
    let have = rows.len();
    let n = to_write(head, have);
    for (i, row) in rows[..n].iter_mut().enumerate() {
        *row = row_at(year, head, i);
    }
    answer_for(head, have)
}

// The year's rows are stored by place at the front of the lent list, and the rest of it stays. Refused, nothing is written.
pub fn fill(rows: &mut [MonthRow], year: u64) -> Result<u64, Refusal>
    ensures { (result ≡ fill_answer year (length rows.old)) × (rows.new ≡ filled year rows.old) }
{
    let head = head_at(year);
    fill_under(rows, year, head)
}

// The rows after `fill_under` was lent the first `have` of them.
fn front_under(
    rows: [MonthRow; 13],
    have: usize,
    year: u64,
    head: Result<YearHead, Refusal>,
) -> [MonthRow; 13]
    requires { (have ≤ 13) × (head ≡ year_head year) }
    ensures { result ≡ filled_front have year rows }
{
    let mut list = rows;
    let _ = fill_under(&mut list[..have], year, head);
    list
}

// The rows after the first `have` of them were lent and filled: whoever calls this needs no lent list.
pub fn fill_front(rows: [MonthRow; 13], have: usize, year: u64) -> [MonthRow; 13]
    requires { have ≤ 13 }
    ensures { result ≡ filled_front have year rows }
{
    front_under(rows, have, year, head_at(year))
}

// A year by value: its head, or why it is refused, and its rows by place, with zeros past them.
#[derive(Clone, Copy)]
pub struct YearRows {
    pub head: Result<YearHead, Refusal>,
    pub rows: [MonthRow; 13],
}

pub fn year_by_value(year: u64) -> YearRows
    ensures { result ≡ year_rows year }
{
    let head = head_at(year);
    let rows = front_under([MonthRow::default(); 13], 13, year, head);
    YearRows { head, rows }
}
