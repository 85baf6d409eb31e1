// What is taken from the printed chapter (章): the months before any year, from its table and whole chapters, one more where the rule of days says
// so; and where the leap month is looked for. Years are counted from 0.
ghost use Rattle.std.specs.Prelude.{◌≡◌, ◌+◌, ◌*◌, ◌≤◌, ◌<◌};
ghost use Rattle.reckoning.specs.Rule.{leap_place};
ghost use Rattle.reckoning.specs.Figures.{LeapNear};
ghost use Rattle.lunisolar.specs.Heads.{year_months};
ghost use Rattle.units.specs.Xinghe.{xinghe, rule};
ghost use Rattle.units.specs.Chapter.{by_chapter};

use crate::Xinghe;
use crate::entries::entry;
use lunisolar::Year;
use lunisolar::rule::YearMonths;

// From this leap remainder on the month after the solstice's may begin on its day; below, it begins a day or more after the solstice.
const SAME_DAY_FROM: u64 = 543;

// The leap months of a chapter (章閏).
const LEAPS: u64 = 207;

// The months before year y. Of most years the leap remainder tells that the chapter's count stands: the machine guesses so and goes on, where
// it would wait for the comparison of days. The remainder is had from the count without a division.
pub fn months_before(y: u64) -> u64
    requires { y ≤ 1048576 }
    ensures { result ≡ rule.before y }
{
    let count = chapter_months(y);
    if y * Xinghe::CHAPTER_MONTHS - count * Xinghe::CHAPTER < SAME_DAY_FROM {
        return count;
    }
    lunisolar::rule::months_from(Xinghe::calendar(), y, count)
}

// The months before year y as the chapter gives them: those of the whole chapters before it, and the table's entry for its year of the
// chapter.
fn chapter_months(y: u64) -> u64
    requires { y ≤ 1048576 }
    ensures { result ≡ by_chapter y }
{
    y / Xinghe::CHAPTER * Xinghe::CHAPTER_MONTHS + entry(y % Xinghe::CHAPTER) as u64
}

// A place next to that of year y's leap month, or its own, if the year has one: as any calendar's, but in figures of the chapter, which are small. It
// is had from the leap remainder alone, so that it need not wait for the months before the year: where those are one more than the chapter's, the
// year has no leap month.
fn near_leap(y: u64) -> u64
    requires { y < 1048576 }
    ensures { (result < 1048576) × (0 < 12 * y + result) × LeapNear (leap_place rule y) result }
{
    (12 * (Xinghe::CHAPTER - Xinghe::leap_remainder(y)) - 1) / LEAPS
}

// What a year has of its months.
pub fn year_months(year: Year) -> YearMonths
    requires { year.calendar.constants ≡ xinghe }
    ensures { result ≡ year_months xinghe year.past }
{
    lunisolar::rule::months_near(year, near_leap(year.past))
}

// Year y with the months before it.
pub fn begun(y: u64) -> Year
    requires { y < 1048576 }
    ensures { (result.calendar.constants ≡ xinghe) × (result.past ≡ y) }
{
    Year {
        calendar: Xinghe::calendar(),
        past: y,
        before: months_before(y),
    }
}
