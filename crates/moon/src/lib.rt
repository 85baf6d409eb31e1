// Functions of the lunation alone: lunations are counted from 0 at the origin.
#![tactic(auto)]

ghost use Rattle.std.specs.Prelude.{◌≡◌, ◌<◌};
ghost use Rattle.units.specs.Xinghe.{N};
ghost use Rattle.moon.specs.NewMoons.{new_moon_of, length_of, monthly_addition};

use units::Xinghe;
use units::remainder::DayRemainder;

pub mod phases;

// The mean new moon: its day and small remainder.
#[derive(Clone, Copy)]
pub struct NewMoon {
    pub day: u64,
    pub remainder: DayRemainder,
}

pub fn new_moon(lunation: u64) -> NewMoon
    requires { lunation < 16777216 }
    ensures { result ≡ new_moon_of lunation }
{
    let carried = DayRemainder { parts: 0 }.carry(lunation * Xinghe::P);
    NewMoon {
        day: carried.whole,
        remainder: carried.remainder,
    }
}

// The length of the month whose new moon has this remainder.
pub fn length_of(remainder: DayRemainder) -> u64
    ensures { result ≡ length_of remainder }
{
    if Xinghe::LONG_FROM <= remainder.parts {
        30
    } else {
        29
    }
}

impl NewMoon {
    // The next new moon, by the monthly addition: a month's length later, and by what a month has over so many days.
    pub fn next(self) -> NewMoon
        requires { (self.day < 4294967296) × (self.remainder.parts < N) }
        ensures { result ≡ monthly_addition self }
    {
        let length = length_of(self.remainder);
        let parts = self.remainder.parts + Xinghe::P - length * Xinghe::N;
        NewMoon {
            day: self.day + length,
            remainder: DayRemainder { parts },
        }
    }
}
