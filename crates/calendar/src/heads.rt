// A year's head.
ghost use Rattle.std.specs.Prelude.{◌≡◌, ◌<◌};
ghost use Rattle.calendar.specs.Heads.{head_of, year_head};

use crate::YearHead;
use refusal::Refusal;
use units::Xinghe;

fn head_of(y: u64) -> YearHead
    requires { y < 1048576 }
    ensures { result ≡ head_of y }
{
    let year = units::chapter::begun(y);
    let remainder = Xinghe::leap_remainder(y);
    let months = units::chapter::year_months(year);
    let solstice = sun::winter_solstice(y);
    YearHead {
        before: year.before,
        remainder,
        months: months.count,
        leap: months.leap,
        solstice,
    }
}

#[tactic(auto, unfolding(crate::specs::Heads::head_for))]
pub fn year_head(year: u64) -> Result<YearHead, Refusal>
    ensures { result ≡ year_head year }
{
    let y = Xinghe::year_at(year)?;
    Ok(head_of(y))
}
