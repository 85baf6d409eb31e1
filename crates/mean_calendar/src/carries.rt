// A month carried by a signed count of months.
ghost use Rattle.std.specs.Prelude.{◌≡◌};
ghost use Rattle.mean_calendar.specs.Months.{month_fields};
ghost use Rattle.mean_calendar.specs.Carries.{genuine_fields, carried_fields};

use crate::MeanMonth;
use crate::months::month_of;
use lunisolar::Calendar;
use refusal::Refusal;
use walking::fields::{bit, same_fields};

// How many numbers a month has.
pub const FIELDS: usize = 8;

pub type MonthFields = [u64; FIELDS];

impl MeanMonth {
    // The fields as numbers, in their order.
    pub fn fields(self) -> MonthFields
        ensures { result ≡ month_fields self }
    {
        let leap = bit(self.leap);
        [
            self.lunation,
            self.year,
            self.place,
            self.number,
            leap,
            self.day,
            self.remainder.parts,
            self.length,
        ]
    }
}

// Whether a month handed in as numbers is the one of the calendar that it names.
pub fn is_genuine(k: Calendar, fields: &MonthFields) -> bool
    ensures { result ≡ genuine_fields k.constants fields.now }
{
    let m = fields[0];
    if k.constants.lunations <= m {
        return false;
    }
    let own = month_of(k, m).fields();
    same_fields(fields, &own)
}

// The month so many months on, or back, of a month handed in as numbers that were tested.
pub fn carry_tested(
    k: Calendar,
    genuine: bool,
    fields: &MonthFields,
    count: i64,
) -> Result<MeanMonth, Refusal>
    requires { genuine ≡ genuine_fields k.constants fields.now }
    ensures { result ≡ carried_fields k.constants fields.now count }
{
    let m = walking::land(k.constants.lunations, genuine, fields[0], count)?;
    Ok(month_of(k, m))
}
