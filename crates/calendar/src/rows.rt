// The rows of the round's months.
ghost use Rattle.std.specs.Prelude.{◌≡◌, ◌+◌, ◌<◌};
ghost use Rattle.reckoning.specs.Rule.{year_of};
ghost use Rattle.lunisolar.specs.Names.{name_of};
ghost use Rattle.units.specs.Xinghe.{xinghe, rule, round_months};
ghost use Rattle.calendar.specs.Heads.{year_head};
ghost use Rattle.calendar.specs.Elements.{elements_of};
ghost use Rattle.calendar.specs.Rows.{row_fields, row_of, month_row};

use crate::elements::{Elements, elements_of};
use crate::{MonthRow, YearHead};
use lunisolar::Year;
use lunisolar::naming::MonthName;
use mean_calendar::parts::{DayParts, DayShare};
use refusal::{Numbered, Refusal};
use units::Xinghe;
use walking::fields::bit;

// How many numbers a row has.
pub const FIELDS: usize = 13;

pub type RowFields = [u64; FIELDS];

impl MonthRow {
    // The fields as numbers, in their order.
    pub fn fields(self) -> RowFields
        ensures { result ≡ row_fields self }
    {
        let leap = bit(self.leap);
        let side = self.side.number();
        [
            self.lunation,
            self.year,
            self.place,
            self.number,
            leap,
            self.day,
            self.remainder.parts,
            self.length,
            self.degrees,
            self.residue.parts,
            side,
            self.anomaly,
            self.rest.parts,
        ]
    }
}

// The row of a month whose name and new moon are at hand.
fn row_named(name: MonthName, lunation: u64, elements: Elements) -> MonthRow
    requires { (lunation < round_months) × (name ≡ name_of xinghe lunation) × (elements ≡ elements_of lunation) }
    ensures { result ≡ row_of lunation }
{
    let share = DayShare {
        whole: elements.moon.day,
        rest: DayParts {
            parts: elements.moon.remainder.parts,
        },
    };
    // by the same comparison as the addition to the next new moon, so that it is made once
    let length = moon::length_of(elements.moon.remainder);
    let k = Xinghe::constants();
    let month = mean_calendar::months::month_by(k, name, lunation, share, length);
    let distance = elements.passage.distance();
    let side = elements.passage.side(lunation);
    let anomaly = anomaly::anomaly_in(elements.into);
    MonthRow {
        lunation,
        year: month.year,
        place: month.place,
        number: month.number,
        leap: month.leap,
        day: month.day,
        remainder: elements.moon.remainder,
        length: month.length,
        degrees: distance.degrees,
        residue: distance.remainder,
        side,
        anomaly: anomaly.day,
        rest: anomaly.rest,
    }
}

// The row of a month whose year is at hand.
fn row_from(year: Year, lunation: u64) -> MonthRow
    requires { (year.calendar.constants ≡ xinghe) × (lunation < round_months) × (year.past ≡ year_of rule lunation) }
    ensures { result ≡ row_of lunation }
{
    let elements = elements_of(lunation);
    let first = elements.moon.day;
    let next = first + moon::length_of(elements.moon.remainder);
    let name = lunisolar::naming::name_from(
        year.calendar,
        year.past,
        lunation - year.before,
        first,
        next,
    );
    row_named(name, lunation, elements)
}

// The row worked out from the origin for a month of the round.
pub fn row_of(lunation: u64) -> MonthRow
    requires { lunation < round_months }
    ensures { result ≡ row_of lunation }
{
    let y = Xinghe::year_of(lunation);
    row_from(units::chapter::begun(y), lunation)
}

#[tactic(auto, unfolding(crate::specs::Rows::row_for))]
pub fn month_row(year: u64, place: u64) -> Result<MonthRow, Refusal>
    ensures { result ≡ month_row year place }
{
    let m = Xinghe::lunation_at(year, place)?;
    // the month less its place is the months before its year
    let begun = Year {
        calendar: Xinghe::calendar(),
        past: year - 1,
        before: m - place,
    };
    Ok(row_from(begun, m))
}

// The row at a place of a year whose head and whose month's new moon are at hand: one head serves all rows of its year, and the new moon's elements
// go on from month to month.
pub fn row_with(year: u64, head: YearHead, place: u64, elements: Elements) -> MonthRow
    requires { (Ok head ≡ year_head year) × (place < head.months) × (elements ≡ elements_of (head.before + place)) }
    ensures { Ok result ≡ month_row year place }
{
    let name = lunisolar::naming::name_under(Xinghe::calendar(), year - 1, head.leap, place);
    row_named(name, head.before + place, elements)
}

// The row at a place of a year whose head is at hand.
pub fn row_under(year: u64, head: YearHead, place: u64) -> MonthRow
    requires { (Ok head ≡ year_head year) × (place < head.months) }
    ensures { Ok result ≡ month_row year place }
{
    row_with(year, head, place, elements_of(head.before + place))
}
