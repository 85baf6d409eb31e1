// A whole year of any calendar by value. Its head is worked out once and serves all its months.
#![tactic(auto)]

ghost use Rattle.std.specs.Prelude.{◌≡◌, map, length};
ghost use Rattle.mean_calendar.specs.Heads.{year_head};
ghost use Rattle.mean_calendar.specs.Months.{month_fields};
ghost use Rattle.mean_year.specs.Years.{places, month_at, mean_year};

use lunisolar::Calendar;
use mean_calendar::carries::MonthFields;
use mean_calendar::{MeanHead, MeanMonth};
use refusal::Refusal;
use std::array;

// How many places a year may have.
pub const PLACES: usize = 13;

// Its head, or why it is refused, and its months by place, with zeros past them.
#[derive(Clone, Copy)]
pub struct MeanYear {
    pub head: Result<MeanHead, Refusal>,
    pub months: [MeanMonth; PLACES],
}

// The month at a place of the year with that head; zeros where there is none.
pub fn month_at(k: Calendar, year: u64, head: Result<MeanHead, Refusal>, place: u64) -> MeanMonth
    requires { head ≡ year_head k.constants year }
    ensures { result ≡ month_at k.constants year place }
{
    match head {
        Ok(head) => {
            if place < head.months {
                mean_calendar::months::month_under(k, year, head, place)
            } else {
                MeanMonth::default()
            }
        }
        Err(_) => MeanMonth::default(),
    }
}

// The year with that head.
pub fn year_under(k: Calendar, year: u64, head: Result<MeanHead, Refusal>) -> MeanYear
    requires { head ≡ year_head k.constants year }
    ensures { result ≡ mean_year k.constants year }
{
    let months = array::from_fn(|i| month_at(k, year, head, i as u64));
    MeanYear { head, months }
}

// The months of the year with that head, as numbers, in a lent list of thirteen: so they are made where they are wanted, and nothing is copied.
pub fn write_months(
    k: Calendar,
    year: u64,
    head: Result<MeanHead, Refusal>,
    rows: &mut [MonthFields],
)
    requires { (head ≡ year_head k.constants year) × (length rows.old ≡ places) }
    ensures { rows.new ≡ map month_fields (mean_year k.constants year).months }
{
    for (i, row) in rows.iter_mut().enumerate() {
        let month = month_at(k, year, head, i as u64);
        *row = month.fields();
    }
}
