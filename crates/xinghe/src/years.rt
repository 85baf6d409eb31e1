// A whole year's rows in a lent list of numbers.
ghost use Rattle.std.specs.Prelude.{◌≡◌, ◌+◌, ◌≤◌, ◌<◌, length};
ghost use Rattle.std.specs.Result.{result_unwrap_or};
ghost use Rattle.std.proofs.Math.Seq.{paste};
ghost use Rattle.calendar.specs.Heads.{year_head};
ghost use Rattle.calendar.specs.Elements.{elements_of};
ghost use Rattle.calendar.specs.Rows.{field_count, row_fields};
ghost use Rattle.calendar.specs.Answers.{zero_head};
ghost use Rattle.year_list.specs.Filled.{row_at};
ghost use Rattle.xinghe.specs.Years.{answer_in};

use calendar::YearHead;
use calendar::elements::Elements;
use calendar::rows::{FIELDS, RowFields};
use refusal::Refusal;

// The answer for a year with that head and a list of that many numbers.
pub fn answer_in(head: Result<YearHead, Refusal>, have: usize) -> Result<u64, Refusal>
    ensures { result ≡ answer_in head have }
{
    year_list::answer_for(head, have / FIELDS)
}

// The numbers of the row at a place of the year with that head, whose new moon's elements are at hand.
pub fn fields_at(
    year: u64,
    head: Result<YearHead, Refusal>,
    place: usize,
    elements: Elements,
) -> RowFields
    requires { (head ≡ year_head year) × (place < (result_unwrap_or head zero_head).months) × (elements ≡ elements_of ((result_unwrap_or head zero_head).before + place)) }
    ensures { result ≡ row_fields (row_at year place) }
{
    year_list::row_with(year, head, place, elements).fields()
}

// Stores a row's numbers from that place of the list on.
pub fn put(out: &mut [u64], at: usize, numbers: RowFields)
    requires { at + field_count ≤ length out.old }
    ensures { out.new ≡ paste out.old at numbers field_count }
{
    out[at..at + FIELDS].copy_from_slice(&numbers);
}
