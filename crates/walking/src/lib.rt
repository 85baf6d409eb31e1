// Months of a round and signed counts, over any size of the round. specs/Walk.antt has the carry and the walk over any row.
#![tactic(auto)]

ghost use Rattle.std.specs.Prelude.{◌≡◌, ◌-◌, ◌<◌, ◌≤◌, true, pos, ◌+ℤ◌, ◌-ℤ◌};
ghost use Rattle.walking.specs.Signed.{sign_of, bits_of, target_of, landing_of};
ghost use Rattle.walking.specs.Paper.{steps_of, arrival_of};

use refusal::Refusal;

pub mod fields;

// A whole number by its sign: Up(n) is n and Down(n) is -(n + 1), so that every i64 has its side and none overflows.
#[derive(Clone, Copy)]
pub enum Sign {
    Up(u64),
    Down(u64),
}

pub fn sign_of(count: i64) -> Sign
    ensures { result ≡ sign_of count }
{
    if count < 0 {
        Sign::Down((-1 - count) as u64)
    } else {
        Sign::Up(count as u64)
    }
}

// A count as the unsigned number with the same 64 bits.
fn bits_of(count: i64) -> u64
    ensures { result ≡ bits_of count }
{
    match sign_of(count) {
        Sign::Up(n) => n,
        Sign::Down(n) => u64::MAX - n,
    }
}

// The month so many months on from a month of a round of that size, in whole numbers. A sum below 0 wraps to 2^63 or more, past every
// round, so that one comparison tells both sides and the compiler needs no jump.
pub fn reach(size: u64, month: u64, count: i64) -> Option<u64>
    requires { (month < size) × (size ≤ 9223372036854775808) }
    ensures { result ≡ target_of size (pos month +ℤ count) }
{
    let to = std::num::wrapping_add_u64(month, bits_of(count));
    if to < size { Some(to) } else { None }
}

// A carry from a month, where what was handed in for its row is genuine or isn't.
pub fn land(size: u64, genuine: bool, month: u64, count: i64) -> Result<u64, Refusal>
    requires { (genuine ≡ true → month < size) × (size ≤ 9223372036854775808) }
    ensures { result ≡ landing_of size genuine month count }
{
    if !genuine {
        return Err(Refusal::Row);
    }
    reach(size, month, count).ok_or(Refusal::Carry)
}

// How many months one month lies after another, in whole numbers.
pub fn difference(to: u64, from: u64) -> i64
    requires { (to - from < 9223372036854775808) × (from - to < 9223372036854775808) }
    ensures { result ≡ pos to -ℤ pos from }
{
    if from <= to {
        (to - from) as i64
    } else {
        -1 - ((from - to - 1) as i64)
    }
}

// The month in which a walk ends that keeps only the month, and how many of the counts were answered.
#[derive(Clone, Copy)]
pub struct Steps {
    pub month: u64,
    pub answered: usize,
}

// A walk by months: each count leads on from the month that the last answered one reached, at first from the month it starts from.
pub fn walk_months(size: u64, from: u64, counts: &[i64]) -> Steps
    requires { (from < size) × (size ≤ 9223372036854775808) }
    ensures { result ≡ steps_of size from counts.now }
{
    let mut month = from;
    let mut answered: usize = 0;
    for count in counts {
        if let Some(k) = reach(size, month, *count) {
            month = k;
            answered += 1;
        }
    }
    Steps { month, answered }
}

// Where a walk comes to: a month, how far that is from the first, and how many of the counts were answered.
// Of its own and not `Walked<u64>`: its `row` would hold a month's number, which is no row.
#[derive(Clone, Copy)]
pub struct Arrival {
    pub month: u64,
    pub sum: i64,
    pub answered: usize,
}

pub fn arrive(size: u64, from: u64, counts: &[i64]) -> Arrival
    requires { (from < size) × (size ≤ 9223372036854775808) }
    ensures { result ≡ arrival_of size from counts.now }
{
    let end = walk_months(size, from, counts);
    // refused counts move nothing, so the sum is how far the walk has come
    let sum = difference(end.month, from);
    Arrival {
        month: end.month,
        sum,
        answered: end.answered,
    }
}

// Where a walk of rows ends, the sum of the answered counts, and how many were answered.
#[derive(Clone, Copy, Default)]
pub struct Walked<R> {
    pub row: R,
    pub sum: i64,
    pub answered: usize,
}
