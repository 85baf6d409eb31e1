// The points of a cut of a year.
ghost use Rattle.std.specs.Prelude.{◌≡◌, ◌≤◌, ◌<◌};
ghost use Rattle.mean_calendar.specs.Points.{point_of, point_in, cut_point};

use crate::MeanPoint;
use crate::parts::over_degree;
use lunisolar::Calendar;
use refusal::Refusal;

// Point `index` of year y, counted from 0, cut in `cut` equal parts.
fn point_of(k: Calendar, y: u64, cut: u64, index: u64) -> MeanPoint
    requires { (y < 1048576) × (0 < cut) × (cut ≤ 72) × (index < cut) }
    ensures { result ≡ point_of k.constants y cut index }
{
    let over = (y * cut + index) * k.constants.year;
    let share = over_degree(k, over / cut);
    MeanPoint {
        day: share.whole,
        remainder: share.rest,
        rest: over % cut,
    }
}

// Each cut has a branch of its own, so that its divisions are by a constant.
fn point_in(k: Calendar, y: u64, cut: u64, index: u64) -> Result<MeanPoint, Refusal>
    requires { y < 1048576 }
    ensures { result ≡ point_in k.constants y cut index }
{
    if cut <= index {
        return Err(Refusal::Cut);
    }
    if cut == 24 {
        return Ok(point_of(k, y, 24, index));
    }
    if cut == 60 {
        return Ok(point_of(k, y, 60, index));
    }
    if cut == 72 {
        return Ok(point_of(k, y, 72, index));
    }
    Err(Refusal::Cut)
}

#[tactic(auto, unfolding(crate::specs::Points::point_for))]
pub fn cut_point(k: Calendar, year: u64, cut: u64, index: u64) -> Result<MeanPoint, Refusal>
    ensures { result ≡ cut_point k.constants year cut index }
{
    point_in(k, lunisolar::year_at(k, year)?, cut, index)
}
