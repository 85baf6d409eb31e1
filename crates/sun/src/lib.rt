// Functions of the year alone: years are counted from 0 at the origin.
#![tactic(auto)]

ghost use Rattle.std.specs.Prelude.{◌≡◌, ◌≤◌, ◌<◌};
ghost use Rattle.sun.specs.Solstices.{solstice_of};
ghost use Rattle.sun.specs.Points.{point_of};

use units::Xinghe;
use units::remainder::DegreeRemainder;

// The winter solstice: its day and remainder over D.
#[derive(Clone, Copy, Default)]
pub struct Solstice {
    pub day: u64,
    pub remainder: DegreeRemainder,
}

pub fn winter_solstice(y: u64) -> Solstice
    requires { y < 1048576 }
    ensures { result ≡ solstice_of y }
{
    let carried = DegreeRemainder { parts: 0 }.carry(y * Xinghe::P);
    Solstice {
        day: carried.whole,
        remainder: carried.remainder,
    }
}

// A point of a cut of the year: its day, its remainder over D, and the rest of a part over the cut.
#[derive(Clone, Copy, Default)]
pub struct Point {
    pub day: u64,
    pub remainder: DegreeRemainder,
    pub rest: u64,
}

// Point `index` of the year cut in `cut` equal parts.
pub fn point_of(y: u64, cut: u64, index: u64) -> Point
    requires { (y < 1048576) × (0 < cut) × (cut ≤ 72) × (index < cut) }
    ensures { result ≡ point_of y cut index }
{
    let over = (y * cut + index) * Xinghe::P;
    let carried = DegreeRemainder { parts: 0 }.carry(over / cut);
    Point {
        day: carried.whole,
        remainder: carried.remainder,
        rest: over % cut,
    }
}
