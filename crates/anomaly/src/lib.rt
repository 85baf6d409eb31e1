// The moon's anomaly and its correction, of a lunation alone. Instants and rests come in halves of a part over N, so that the full moon's
// are whole numbers.
#![tactic(auto)]

ghost use Rattle.std.specs.Prelude.{◌≡◌, ◌+◌, ◌*◌, ◌<◌};
ghost use Rattle.units.specs.Xinghe.{P, T, round_months};
ghost use Rattle.anomaly.specs.Rates.{printed};
ghost use Rattle.anomaly.specs.Corrections.{CorrectionBound, anomaly_at, correction_at, moved, corrected_at, corrections_of};
ghost use Rattle.anomaly.specs.Steps.{into_anomaly, next_into};

use crate::amounts::Amount;
use units::Xinghe;
use units::remainder::{DayCarry, DayRemainder};

pub mod amounts;

// The day of the anomaly (入曆日), 1 to 28, and its rest over N with the half of a part beside it.
#[derive(Clone, Copy, Default)]
pub struct Anomaly {
    pub day: u64,
    pub rest: DayRemainder,
    pub half: u64,
}

// A phase's anomaly and correction (盈縮定積分), and its day and remainder after it.
#[derive(Clone, Copy, Default)]
pub struct Corrected {
    pub anomaly: Anomaly,
    pub correction: i64,
    pub day: u64,
    pub remainder: DayRemainder,
    pub half: u64,
}

// A month's new moon and full moon, corrected.
#[derive(Clone, Copy, Default)]
pub struct Corrections {
    pub new: Corrected,
    pub full: Corrected,
}

// The signed rates of days 1 to 28, as printed.
const RATES: [i64; 28] = [
    757, 689, 616, 545, 466, 315, 89, -139, -283, -390, -502, -618, -729, -816, -731, -646, -558,
    -445, -334, -214, -79, 63, 225, 388, 549, 674, 701, 734,
];

// The anomaly at an instant in halves of a part.
fn anomaly_at(instant: u64) -> Anomaly
    ensures { result ≡ anomaly_at instant }
{
    let into = instant % (2 * Xinghe::T);
    let carried = DayRemainder { parts: 0 }.carry(into / 2);
    Anomaly {
        day: carried.whole + 1,
        rest: carried.remainder,
        half: into % 2,
    }
}

// How far a new moon is in the round of the anomaly, held in 32 bits, in which a division is shorter.
pub fn into_anomaly(lunation: u64) -> u32
    requires { lunation < round_months }
    ensures { result ≡ into_anomaly lunation }
{
    (lunation * Xinghe::P % Xinghe::T) as u32
}

// The next new moon's: P more, which is a round and less than another.
pub fn next_into(into: u32) -> u32
    requires { into < T }
    ensures { result ≡ next_into into }
{
    let sum = into + (Xinghe::P - Xinghe::T) as u32;
    if Xinghe::T as u32 <= sum {
        sum - Xinghe::T as u32
    } else {
        sum
    }
}

// The anomaly of a new moon that is so far in the round.
pub fn anomaly_in(into: u32) -> Anomaly
    requires { into < T }
    ensures { result ≡ anomaly_at (2 * into) }
{
    let carried = DayRemainder { parts: 0 }.carry(into as u64);
    Anomaly {
        day: carried.whole + 1,
        rest: carried.remainder,
        half: 0,
    }
}

// The correction at an instant in halves of a part.
fn correction_at(instant: u64) -> Amount
    ensures { result ≡ correction_at printed instant }
{
    let since = instant % (2 * Xinghe::T);
    let day = since / (2 * Xinghe::N) + 1;
    let rest = since % (2 * Xinghe::N);
    amounts::correction_on(RATES, day, rest)
}

// A day and its remainder, moved by a correction: a positive one is taken from the remainder, a negative one added.
fn moved_by(day: u64, remainder: DayRemainder, correction: Amount) -> DayCarry
    requires { CorrectionBound day remainder correction }
    ensures { result ≡ moved day remainder correction }
{
    let size = correction.size;
    if correction.minus {
        let carried = remainder.carry(size);
        return DayCarry {
            whole: day + carried.whole,
            remainder: carried.remainder,
        };
    }
    // a day back, and on by what is left of it
    let carried = remainder.carry(Xinghe::N - size);
    DayCarry {
        whole: day + carried.whole - 1,
        remainder: carried.remainder,
    }
}

// The phase so many half months after the origin, corrected.
fn corrected_at(halves: u64) -> Corrected
    requires { halves < 33554432 }
    ensures { result ≡ corrected_at (halves * P) }
{
    let instant = halves * Xinghe::P;
    let anomaly = anomaly_at(instant);
    let correction = correction_at(instant);
    let mean = DayRemainder { parts: 0 }.carry(instant / 2);
    let moved = moved_by(mean.whole, mean.remainder, correction);
    let signed = amounts::signed_of(correction);
    Corrected {
        anomaly,
        correction: signed,
        day: moved.whole,
        remainder: moved.remainder,
        half: instant % 2,
    }
}

pub fn corrections_of(lunation: u64) -> Corrections
    requires { lunation < 16777216 }
    ensures { result ≡ corrections_of lunation }
{
    let new = corrected_at(2 * lunation);
    let full = corrected_at(2 * lunation + 1);
    Corrections { new, full }
}
