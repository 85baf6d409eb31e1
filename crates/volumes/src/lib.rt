// Almanac volumes: runs of consecutive years, one block of 512 bytes a year.
#![tactic(auto)]

ghost use Rattle.std.specs.Prelude.{◌≡◌, ◌-◌, T, length};
ghost use Rattle.units.specs.Xinghe.{is_year};
ghost use Rattle.totals.specs.Totals.{totals};
ghost use Rattle.volumes.specs.Volume.{is_run, block_at};
ghost use Rattle.volumes.specs.Reader.{whole_blocks};

use blocks::BLOCK;
use totals::Totals;
use units::Xinghe;

pub mod reader;
pub mod writer;

// Whether the round has that year.
pub fn is_year(n: u64) -> bool
    ensures { result ≡ is_year n }
{
    (1 <= n) & (n < Xinghe::YEARS + 1)
}

// Whether the years from one to another are a run of the round's.
pub fn is_run(first: u64, year: u64) -> bool
    ensures { result ≡ is_run first year }
{
    is_year(first) & (is_year(year) & (first <= year))
}

// Whether so many bytes are a whole number of blocks, and not none.
pub fn whole_blocks(bytes: usize) -> bool
    ensures { result ≡ whole_blocks bytes }
{
    (1 <= bytes) & (bytes % BLOCK == 0)
}

// The block of a year in the volume from a first year on, over the whole of a lent part. The totals of all years before the first are at hand.
fn put_block(out: &mut [u8], first: u64, start: Totals, year: u64)
    requires { (length out.old ≡ 512) × T (is_run first year) × (start ≡ totals 1 (first - 1)) }
    ensures { out.new ≡ block_at first (year - first) }
{
    let head = calendar::heads::year_head(year);
    let totals = totals::since(first, start, year, head.unwrap_or_default());
    blocks::fill_block(out, year, head, totals)
}

// The same by value.
pub fn block(first: u64, year: u64) -> [u8; BLOCK]
    requires { T (is_run first year) }
    ensures { result ≡ block_at first (year - first) }
{
    let mut bytes = [0u8; BLOCK];
    put_block(&mut bytes, first, totals::before(first), year);
    bytes
}
