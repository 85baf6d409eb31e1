// The Xinghe calendar's numbers, by name, its printed chapter, and its units: remainders over N and over D.
#![tactic(auto)]

ghost use Rattle.std.specs.Prelude.{◌≡◌, ◌≤◌, ◌<◌};
ghost use Rattle.reckoning.specs.Rule.{year_of};
ghost use Rattle.reckoning.specs.Means.{new_moon};
ghost use Rattle.reckoning.specs.Dates.{month_of};
ghost use Rattle.lunisolar.specs.Calendars.{year_at, lunation_at};
ghost use Rattle.units.specs.Xinghe.{xinghe, means, rule};
ghost use Rattle.units.specs.Chapter.{leap_remainder};

use lunisolar::{Calendar, Constants};
use refusal::Refusal;

pub mod chapter;
mod entries;
pub mod remainder;

#[derive(Clone, Copy)]
pub struct Xinghe;

impl Xinghe {
    // the day divisor (日法)
    pub const N: u64 = 208530;

    // the degree divisor (度法, 蔀法)
    pub const D: u64 = 16860;

    // the days of the year over D and of the month over N (周天, 通數)
    pub const P: u64 = 6158017;

    // the node half-round (會通)
    pub const M: u64 = 36142807;

    // the anomaly round (通周)
    pub const T: u64 = 5745941;

    // the small circuit (小周)
    pub const C: u64 = 7513;

    // a month has 30 days from this small remainder on
    pub const LONG_FROM: u64 = 97883;

    // the years and the months of a chapter (章歲, 章月)
    pub const CHAPTER: u64 = 562;

    pub const CHAPTER_MONTHS: u64 = 6951;

    // the months of an era (紀)
    pub const ERA: u64 = 2085300;

    // the great round (元): its years, months and days
    pub const YEARS: u64 = 1011600;

    pub const MONTHS: u64 = 12511800;

    pub const DAYS: u64 = 369481020;

    pub fn constants() -> Constants
        ensures { result ≡ xinghe }
    {
        Constants {
            year: Xinghe::P,
            degree: Xinghe::D,
            month: Xinghe::P,
            day: Xinghe::N,
            first: 1,
            years: Xinghe::YEARS,
            lunations: Xinghe::MONTHS,
            days: Xinghe::DAYS,
        }
    }

    pub fn calendar() -> Calendar
        ensures { result.constants ≡ xinghe }
    {
        Calendar {
            constants: Xinghe::constants(),
        }
    }

    // The years past before a year as it is written.
    pub fn year_at(year: u64) -> Result<u64, Refusal>
        ensures { result ≡ year_at xinghe year }
    {
        lunisolar::year_at(Xinghe::calendar(), year)
    }

    // The month of the round at a place of a year.
    #[tactic(auto, unfolding(lunisolar::specs::Calendars::lunation_for))]
    pub fn lunation_at(year: u64, place: u64) -> Result<u64, Refusal>
        ensures { result ≡ lunation_at xinghe year place }
    {
        // Not by `?`: so the refusal has an arm, and it shows there under which number.
        match Xinghe::year_at(year) {
            Ok(y) => lunisolar::lunation_in(chapter::begun(y), place),
            Err(e) => Err(e),
        }
    }

    // The leap remainder of a year, counted from 0.
    pub fn leap_remainder(y: u64) -> u64
        requires { y < 1048576 }
        ensures { result ≡ leap_remainder y }
    {
        y * Xinghe::CHAPTER_MONTHS % Xinghe::CHAPTER
    }

    // The year of a month, counted from 0, and the month of a day.
    pub fn year_of(lunation: u64) -> u64
        requires { lunation < 16777216 }
        ensures { result ≡ year_of rule lunation }
    {
        lunisolar::rule::year_of(Xinghe::calendar(), lunation)
    }

    pub fn month_of_day(day: u64) -> u64
        requires { day ≤ 1073741824 }
        ensures { result ≡ month_of (new_moon means) day }
    {
        lunisolar::means::month_of_day(Xinghe::calendar(), day)
    }
}
