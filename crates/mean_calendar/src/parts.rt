// Remainders over a calendar's own two divisors: separate units, each with its own division. The divisors are known only at run time, so no const
// parameter can tell them apart, and a marker type would stand in every record of the definitions.
ghost use Rattle.std.specs.Prelude.{◌≡◌};
ghost use Rattle.mean_calendar.specs.Parts.{over_day, over_degree};

use lunisolar::Calendar;

// A remainder over the day divisor (日法).
#[derive(Clone, Copy, Default)]
pub struct DayParts {
    pub parts: u64,
}

// A remainder over the degree divisor (度法, 蔀法).
#[derive(Clone, Copy, Default)]
pub struct DegreeParts {
    pub parts: u64,
}

// Whole days or degrees, and what is left over the day divisor.
#[derive(Clone, Copy)]
pub struct DayShare {
    pub whole: u64,
    pub rest: DayParts,
}

// Whole days, and what is left over the degree divisor.
#[derive(Clone, Copy)]
pub struct DegreeShare {
    pub whole: u64,
    pub rest: DegreeParts,
}

pub fn over_day(k: Calendar, parts: u64) -> DayShare
    ensures { result ≡ over_day k.constants parts }
{
    DayShare {
        whole: parts / k.constants.day,
        rest: DayParts {
            parts: parts % k.constants.day,
        },
    }
}

pub fn over_degree(k: Calendar, parts: u64) -> DegreeShare
    ensures { result ≡ over_degree k.constants parts }
{
    DegreeShare {
        whole: parts / k.constants.degree,
        rest: DegreeParts {
            parts: parts % k.constants.degree,
        },
    }
}
