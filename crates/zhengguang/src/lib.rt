// The Zhengguang calendar (正光曆, Wei, 520): every job of any calendar at its constants, with the leap remainder of its chapter in the head and the
// distance since the node in the row. Years run from 1, inclusively; the year Xiaochang 3 is 167,756.
#![tactic(auto)]

ghost use Rattle.std.specs.Prelude.{◌≡◌};
ghost use Rattle.lunisolar.specs.Calendars.{Sound};
ghost use Rattle.lunisolar.specs.Dates.{day_of_date, date_of_day};
ghost use Rattle.mean_calendar.specs.Points.{cut_point};
ghost use Rattle.zhengguang.specs.Zhengguang.{zhengguang};

use lunisolar::dates::{Date, Day};
use lunisolar::{Calendar, Constants};
use mean_calendar::parts::DayParts;
use mean_calendar::{MeanHead, MeanMonth, MeanPoint};
use refusal::Refusal;

pub mod carries;
pub mod heads;
pub mod nodes;
pub mod rows;
pub mod walks;
pub mod years;

// A year: any calendar's head, and the leap remainder (閏餘) of its chapter.
#[derive(Clone, Copy, Default)]
pub struct ZhengguangHead {
    pub mean: MeanHead,
    pub remainder: u64,
}

// A month: any calendar's, and the degrees since the last node (交) at its new moon with their remainder (the residue).
#[derive(Clone, Copy, Default)]
pub struct ZhengguangRow {
    pub mean: MeanMonth,
    pub degrees: u64,
    pub residue: DayParts,
}

// A distance since the last node in degrees, with its remainder over N and the half of a part beside it.
#[derive(Clone, Copy, Default)]
pub struct NodeDistance {
    pub degrees: u64,
    pub remainder: DayParts,
    pub half: u64,
}

// The distances at a month's new moon and at its full moon.
#[derive(Clone, Copy, Default)]
pub struct MonthNodes {
    pub new: NodeDistance,
    pub full: NodeDistance,
}

#[derive(Clone, Copy)]
pub struct Zhengguang;

impl Zhengguang {
    // the day divisor (日法)
    pub const N: u64 = 74952;

    // the degree divisor (度法, 蔀法)
    pub const D: u64 = 6060;

    // the days of the year over D and of the month over N (周天分, 月通)
    pub const P: u64 = 2213377;

    // the node half-round (會通)
    pub const M: u64 = 12989904;

    // the years and the months of a chapter (章歲, 章月)
    pub const CHAPTER: u64 = 505;

    pub const CHAPTER_MONTHS: u64 = 6246;

    // the great round (元): its years, months and days
    pub const YEARS: u64 = 363600;

    pub const MONTHS: u64 = 4497120;

    pub const DAYS: u64 = 132802620;

    pub fn constants() -> Constants
        ensures { (result ≡ zhengguang) × Sound result }
    {
        Constants {
            year: Zhengguang::P,
            degree: Zhengguang::D,
            month: Zhengguang::P,
            day: Zhengguang::N,
            first: 1,
            years: Zhengguang::YEARS,
            lunations: Zhengguang::MONTHS,
            days: Zhengguang::DAYS,
        }
    }

    pub fn calendar() -> Calendar
        ensures { result.constants ≡ zhengguang }
    {
        Calendar {
            constants: Zhengguang::constants(),
        }
    }

    pub fn day_of_date(year: u64, place: u64, day: u64) -> Result<Day, Refusal>
        ensures { result ≡ day_of_date zhengguang year place day }
    {
        lunisolar::dates::day_of_date(Zhengguang::calendar(), year, place, day)
    }

    pub fn date_of_day(number: u64) -> Result<Date, Refusal>
        ensures { result ≡ date_of_day zhengguang number }
    {
        lunisolar::dates::date_of_day(Zhengguang::calendar(), number)
    }

    pub fn cut_point(year: u64, cut: u64, index: u64) -> Result<MeanPoint, Refusal>
        ensures { result ≡ cut_point zhengguang year cut index }
    {
        mean_calendar::cuts::cut_point(Zhengguang::calendar(), year, cut, index)
    }
}
