// The sky asked of a year and a place: phases, nodes and eclipses, corrections; and the points of a cut of a year. All of a month's come in one
// answer. Months begin by the mean moon: nothing here moves a month.
#![tactic(auto)]

ghost use Rattle.std.specs.Prelude.{◌≡◌, ◌<◌};
ghost use Rattle.ephemeris.specs.Jobs.{phases_at, nodes_at, corrections_at, point_in, cut_point};

use anomaly::Corrections;
use moon::phases::Phases;
use node::Nodes;
use refusal::Refusal;
use sun::Point;
use units::Xinghe;

#[tactic(auto, unfolding(crate::specs::Jobs::phases_for))]
pub fn phases(year: u64, place: u64) -> Result<Phases, Refusal>
    ensures { result ≡ phases_at year place }
{
    let m = Xinghe::lunation_at(year, place)?;
    Ok(moon::phases::phases_of(m))
}

#[tactic(auto, unfolding(crate::specs::Jobs::nodes_for))]
pub fn nodes(year: u64, place: u64) -> Result<Nodes, Refusal>
    ensures { result ≡ nodes_at year place }
{
    let m = Xinghe::lunation_at(year, place)?;
    Ok(node::nodes_of(m))
}

#[tactic(auto, unfolding(crate::specs::Jobs::corrections_for))]
pub fn corrections(year: u64, place: u64) -> Result<Corrections, Refusal>
    ensures { result ≡ corrections_at year place }
{
    let m = Xinghe::lunation_at(year, place)?;
    Ok(anomaly::corrections_of(m))
}

// Each cut has a branch of its own, so that its divisions are by a constant.
fn point_in(y: u64, cut: u64, index: u64) -> Result<Point, Refusal>
    requires { y < 1048576 }
    ensures { result ≡ point_in y cut index }
{
    if cut <= index {
        return Err(Refusal::Cut);
    }
    if cut == 24 {
        return Ok(sun::point_of(y, 24, index));
    }
    if cut == 60 {
        return Ok(sun::point_of(y, 60, index));
    }
    if cut == 72 {
        return Ok(sun::point_of(y, 72, index));
    }
    Err(Refusal::Cut)
}

#[tactic(auto, unfolding(crate::specs::Jobs::point_for))]
pub fn cut_point(year: u64, cut: u64, index: u64) -> Result<Point, Refusal>
    ensures { result ≡ cut_point year cut index }
{
    // Not by `?`: so the refusal has an arm, and it shows there under which number.
    match Xinghe::year_at(year) {
        Ok(y) => point_in(y, cut, index),
        Err(e) => Err(e),
    }
}
