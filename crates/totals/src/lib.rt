// Leap months and marked eclipses of a run of years.
#![tactic(auto)]

ghost use Rattle.std.specs.Prelude.{◌≡◌, ◌+◌, ◌-◌, ◌≤◌};
ghost use Rattle.units.specs.Xinghe.{rule, round_years};
ghost use Rattle.calendar.specs.Heads.{year_head};
ghost use Rattle.totals.specs.Totals.{totals};

use calendar::YearHead;

#[derive(Clone, Copy)]
pub struct Totals {
    pub leaps: u64,
    pub news: u64,
    pub fulls: u64,
}

// Of the round's first y years, whose months are at hand: every year has twelve that are no leap months, and each node marks two moons.
fn of_first(y: u64, months: u64) -> Totals
    requires { (y ≤ round_years) × (months ≡ rule.before y) }
    ensures { result ≡ totals 1 y }
{
    let news = node::marks::new_moons_marked(months);
    let fulls = node::marks::full_moons_marked(months);
    Totals {
        leaps: months - 12 * y,
        news,
        fulls,
    }
}

// Of all years of the round before one of them.
pub fn before(first: u64) -> Totals
    requires { (1 ≤ first) × (first ≤ round_years) }
    ensures { result ≡ totals 1 (first - 1) }
{
    of_first(first - 1, units::chapter::months_before(first - 1))
}

// Of the years from a first one, before which the totals are at hand, to the one with that head.
pub fn since(first: u64, start: Totals, year: u64, head: YearHead) -> Totals
    requires { (1 ≤ first) × (first ≤ year) × (start ≡ totals 1 (first - 1)) × (Ok head ≡ year_head year) }
    ensures { result ≡ totals first (year + 1 - first) }
{
    let all = of_first(year, head.before + head.months);
    Totals {
        leaps: all.leaps - start.leaps,
        news: all.news - start.news,
        fulls: all.fulls - start.fulls,
    }
}
