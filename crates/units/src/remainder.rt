// Remainders over N and over D: separate units, each with its own carry.
ghost use Rattle.std.specs.Prelude.{◌≡◌, ◌+◌, ◌<◌};
ghost use Rattle.units.specs.Units.{carry_over};

use crate::Xinghe;

// A remainder over a divisor. Remainders over two divisors are of two types.
#[derive(Clone, Copy, Default)]
pub struct Remainder<const DIVISOR: u64> {
    pub parts: u64,
}

// Whole days or degrees, and what is left over the divisor.
#[derive(Clone, Copy, Default)]
pub struct Carry<const DIVISOR: u64> {
    pub whole: u64,
    pub remainder: Remainder<DIVISOR>,
}

// Over the day divisor, N (小餘 over 日法).
pub type DayRemainder = Remainder<{ Xinghe::N }>;

pub type DayCarry = Carry<{ Xinghe::N }>;

// Over the degree divisor, D (小餘 over 蔀法).
pub type DegreeRemainder = Remainder<{ Xinghe::D }>;

pub type DegreeCarry = Carry<{ Xinghe::D }>;

impl<const DIVISOR: u64> Remainder<DIVISOR> {
    // So many parts more: each whole divisor is a day, or a degree.
    pub fn carry(self, parts: u64) -> Carry<DIVISOR>
        requires { (0 < DIVISOR) × (self.parts + parts < 18446744073709551616) }
        ensures { result ≡ carry_over DIVISOR self.entry parts }
    {
        let sum = self.parts + parts;
        Carry {
            whole: sum / DIVISOR,
            remainder: Remainder {
                parts: sum % DIVISOR,
            },
        }
    }
}
