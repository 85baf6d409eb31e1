// Amounts worked out from 28 signed rates, whatever they are from -1,000 to 1,000: none is stored.
ghost use Rattle.std.specs.Prelude.{◌≡◌, ◌+◌, ◌-◌, ◌≤◌, ◌<◌, T};
ghost use Rattle.anomaly.specs.Rates.{small, sum_of};
ghost use Rattle.anomaly.specs.Amounts.{sized_of, amount_of, raises, changed, Lowers, Day, correction_on, signed_of};

use units::Xinghe;
use walking::Sign;

// A signed amount by its sign and its size: a minus 0 differs from 0, so that no `i64` holds it.
#[derive(Clone, Copy)]
pub struct Amount {
    pub minus: bool,
    pub size: u64,
}

// The sum of the first k rates.
fn sum_of(rates: [i64; 28], k: usize) -> i64
    requires { T (small rates) × (k ≤ 28) }
    ensures { result ≡ sum_of rates k }
{
    let mut sum: i64 = 0;
    for rate in &rates[..k] {
        sum += *rate;
    }
    sum
}

// A signed number by its sign and its size.
pub fn sized_of(count: i64) -> Amount
    ensures { result ≡ sized_of count }
{
    match walking::sign_of(count) {
        Sign::Up(n) => Amount {
            minus: false,
            size: n,
        },
        Sign::Down(n) => Amount {
            minus: true,
            size: n + 1,
        },
    }
}

// The accumulated amount before a day.
fn amount_of(rates: [i64; 28], day: u64) -> Amount
    requires { T (small rates) × (0 < day) × (day ≤ 28) }
    ensures { result ≡ amount_of rates day }
{
    let k = (day - 1) as usize;
    let sum = sized_of(sum_of(rates, k));
    Amount {
        minus: sum.minus | ((sum.size == 0) & (day == 15)),
        size: (2 * (sum.size * Xinghe::N) + Xinghe::C) / (2 * Xinghe::C),
    }
}

// Whether a day raises the amount (益).
fn raises_on(day: u64) -> bool
    ensures { result ≡ raises day }
{
    (day <= 7) | ((15 <= day) & (day <= 21))
}

// An amount raised by a change, or lowered by one.
fn changed_by(up: bool, amount: u64, change: u64) -> u64
    requires { Lowers up amount change × (amount < 4294967296) × (change < 4294967296) }
    ensures { result ≡ changed up amount change }
{
    if up { amount + change } else { amount - change }
}

// The correction on a day of the anomaly, at a rest in halves. The caller sees to it that no change lowers an amount below 0.
pub fn correction_on(rates: [i64; 28], day: u64, rest: u64) -> Amount
    requires { Day rates day rest }
    ensures { result ≡ correction_on rates day rest }
{
    let amount = amount_of(rates, day);
    let i = (day - 1) as usize;
    let rate = sized_of(rates[i]);
    let change = rate.size * rest / (2 * Xinghe::C);
    let size = changed_by(raises_on(day), amount.size, change);
    Amount {
        minus: amount.minus,
        size,
    }
}

// A signed amount as one number.
pub fn signed_of(amount: Amount) -> i64
    requires { amount.size < 4294967296 }
    ensures { result ≡ signed_of amount }
{
    if amount.minus {
        walking::difference(0, amount.size)
    } else {
        walking::difference(amount.size, 0)
    }
}
