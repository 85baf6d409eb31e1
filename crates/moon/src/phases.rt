// The four phases of a month.
ghost use Rattle.std.specs.Prelude.{◌≡◌, ◌<◌};
ghost use Rattle.moon.specs.Phases.{phase_at, phases_of};

use units::Xinghe;
use units::remainder::DayRemainder;

// A phase: its day, its remainder over N, and the quarters of a part beside it.
#[derive(Clone, Copy, Default)]
pub struct Phase {
    pub day: u64,
    pub remainder: DayRemainder,
    pub quarters: u64,
}

// The new moon, the first quarter, the full moon and the last quarter.
#[derive(Clone, Copy, Default)]
pub struct Phases {
    pub new: Phase,
    pub first: Phase,
    pub full: Phase,
    pub last: Phase,
}

// The phase so many quarters of a month after the origin.
pub fn phase_at(quarter: u64) -> Phase
    requires { quarter < 67108864 }
    ensures { result ≡ phase_at quarter }
{
    let quarters = quarter * Xinghe::P;
    let carried = DayRemainder { parts: 0 }.carry(quarters / 4);
    Phase {
        day: carried.whole,
        remainder: carried.remainder,
        quarters: quarters % 4,
    }
}

pub fn phases_of(lunation: u64) -> Phases
    requires { lunation < 16777216 }
    ensures { result ≡ phases_of lunation }
{
    let new = phase_at(4 * lunation);
    let first = phase_at(4 * lunation + 1);
    let full = phase_at(4 * lunation + 2);
    let last = phase_at(4 * lunation + 3);
    Phases {
        new,
        first,
        full,
        last,
    }
}
