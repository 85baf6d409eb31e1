// The writer: a volume at the front of a lent buffer.
ghost use Rattle.std.specs.Prelude.{◌≡◌, ◌++◌, ◌+◌, ◌*◌, ◌≤◌, length, drop};
ghost use Rattle.units.specs.Xinghe.{round_years};
ghost use Rattle.volumes.specs.Volume.{blocks};
ghost use Rattle.volumes.specs.Writer.{span_answer, write_for, write_answer, after_write};

use blocks::BLOCK;
use refusal::Refusal;

// How many bytes a year takes.
const BYTES: u64 = BLOCK as u64;

pub fn span(first: u64, last: u64) -> Result<u64, Refusal>
    ensures { result ≡ span_answer first last }
{
    if crate::is_year(first) & crate::is_year(last) {
        if first <= last {
            Ok(last + 1 - first)
        } else {
            Err(Refusal::Span)
        }
    } else {
        Err(Refusal::Year)
    }
}

// The answer for a span and a buffer of so many bytes.
#[tactic(auto, unfolding(crate::specs::Writer::write_for))]
fn answer_for(span: Result<u64, Refusal>, room: usize) -> Result<u64, Refusal>
    ensures { result ≡ write_for span room }
{
    let n = span?;
    // in blocks, since the bytes of any number of years whatever could wrap
    if n <= room as u64 / BYTES {
        Ok(BYTES * n)
    } else {
        Err(Refusal::Room)
    }
}

// The blocks of n years at the front of the buffer.
fn put_blocks(out: &mut [u8], first: u64, n: usize)
    requires { (1 ≤ first) × (1 ≤ n) × (first + n ≤ round_years + 1) × (512 * n ≤ length out.old) }
    ensures { out.new ≡ blocks first n ++ drop (512 * n) out.old }
{
    let start = totals::before(first);
    // By index: of a slice that `chunks_exact_mut` went through a proof knows no element afterwards, only the length.
    for i in 0..n {
        let at = BLOCK * i;
        let end = at + BLOCK;
        crate::put_block(&mut out[at..end], first, start, first + i as u64);
    }
}

// The volume from one year to another at the front of the buffer, and the rest of it stays. Refused, nothing is written.
#[tactic(auto, unfolding(crate::specs::Writer::buffer_after))]
pub fn write(first: u64, last: u64, out: &mut [u8]) -> Result<u64, Refusal>
    ensures { (result ≡ write_answer first last (length out.old)) × (out.new ≡ after_write first last out.old) }
{
    let bytes = answer_for(span(first, last), out.len())?;
    put_blocks(out, first, (bytes / BYTES) as usize);
    Ok(bytes)
}
