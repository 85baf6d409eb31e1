// A year's head.
ghost use Rattle.std.specs.Prelude.{◌≡◌, ◌≤◌};
ghost use Rattle.mean_calendar.specs.Heads as heads;
ghost use Rattle.zhengguang.specs.Zhengguang.{zhengguang, leap_remainder};
ghost use Rattle.zhengguang.specs.Rows.{year_head};

use crate::{Zhengguang, ZhengguangHead};
use mean_calendar::MeanHead;
use refusal::Refusal;

// The leap remainder of a year, counted from 0.
fn leap_remainder(y: u64) -> u64
    requires { y ≤ 1048576 }
    ensures { result ≡ leap_remainder y }
{
    y * Zhengguang::CHAPTER_MONTHS % Zhengguang::CHAPTER
}

// The head of a year from any calendar's.
#[tactic(auto, unfolding(crate::specs::Rows::head_by))]
pub fn head_by(year: u64, mean: Result<MeanHead, Refusal>) -> Result<ZhengguangHead, Refusal>
    requires { mean ≡ heads.year_head zhengguang year }
    ensures { result ≡ year_head year }
{
    let mean = mean?;
    let remainder = leap_remainder(year - 1);
    Ok(ZhengguangHead { mean, remainder })
}

// Any calendar's head of a year.
pub fn mean_head(year: u64) -> Result<MeanHead, Refusal>
    ensures { result ≡ heads.year_head zhengguang year }
{
    let k = Zhengguang::calendar();
    let first = lunisolar::lunation_at(k, year, 0);
    mean_calendar::heads::head_for(k, year, first)
}

pub fn year_head(year: u64) -> Result<ZhengguangHead, Refusal>
    ensures { result ≡ year_head year }
{
    head_by(year, mean_head(year))
}
