// The check of a block.
ghost use Rattle.std.specs.Prelude.{◌≡◌, ◌*◌, ◌≤◌, length};
ghost use Rattle.blocks.specs.Check.{weighted, check_of, right_check};

use crate::{CHECK, bytes};

const MODULUS: u32 = 65521;

// Half of the bytes before the check, few enough for weights of their own in sixteen bits.
const HALF: usize = CHECK / 2;

// A byte times its weight. While that is below 2^16 the processor multiplies eight at once.
fn term(weight: u16, byte: u8) -> u16
    requires { weight ≤ 256 }
    ensures { result ≡ weight * byte }
{
    weight * (byte as u16)
}

// The weighted sum of bytes before which so many others come, in two terms each: its weight among these, and the bytes before them.
fn weigh(past: u16, bytes: &[u8]) -> u32
    requires { (past ≤ 256) × (length bytes.now ≤ 256) }
    ensures { (result ≡ weighted past bytes.now) × (result ≤ 33553920) }
{
    let mut sum: u32 = 0;
    // one more than the index, in sixteen bits of its own
    let mut weight: u16 = 1;
    for byte in bytes {
        let own = term(weight, *byte) as u32;
        let more = term(past, *byte) as u32;
        sum += own + more;
        weight += 1;
    }
    sum
}

// The check of a block of which these at most 256 bytes come first and all others are zero.
pub fn check(bytes: &[u8]) -> u32
    requires { length bytes.now ≤ 256 }
    ensures { result ≡ check_of bytes.now }
{
    weigh(0, bytes) % MODULUS
}

// Whether a block's last two bytes are the check of those before them.
pub fn right_check(block: &[u8]) -> bool
    requires { length block.now ≡ 512 }
    ensures { result ≡ right_check block.now }
{
    let sum = weigh(0, &block[..HALF]) + weigh(HALF as u16, &block[HALF..CHECK]);
    (sum % MODULUS) as u64 == bytes::u16_at(block, CHECK)
}
