// Mending: a buffer that holds a volume of which blocks and bytes were altered, and a list for the indices of the damaged blocks.
ghost use Rattle.std.specs.Prelude.{◌≡◌, ◌+◌, ◌*◌, ◌<◌, ◌≤◌, length};

use crate::volume_edges;
use crate::volume_edges::{BUFFER, WHOLE};
use blocks::BLOCK;
use lines::digest::Digest;
use lines::{Line, answers};
use mending::MOST_BLOCKS;
use refusal::Refusal;
use std::io;

// Every number of the list before it is lent.
const LENT: u64 = 9;

// The bytes of one block become those of another.
fn copy_block(buffer: &mut [u8], from: usize, to: usize)
    requires { (from < 4) × (to < 4) × (length buffer.old ≡ 2048) }
    ensures { length buffer.new ≡ 2048 }
{
    buffer.copy_within(BLOCK * from..BLOCK * (from + 1), BLOCK * to);
}

// A volume with a block that is a copy of another, and then a byte altered.
fn scratched(first: u64, last: u64, from: usize, to: usize, at: usize, byte: u8) -> [u8; BUFFER]
    requires { (from < 4) × (to < 4) }
    ensures { 2048 ≡ length result }
{
    let mut buffer = volume_edges::altered(first, last, WHOLE, 0);
    copy_block(&mut buffer, from, to);
    if at < BUFFER {
        buffer[at] = byte;
    }
    buffer
}

// The part of the buffer from one place to another is mended.
fn mend_part(
    buffer: &mut [u8],
    begin: usize,
    end: usize,
    list: &mut [u64; MOST_BLOCKS],
) -> Result<u64, Refusal>
    requires { (begin ≤ end) × (end ≤ length buffer.old) }
    ensures { length buffer.new ≡ length buffer.old }
{
    mending::mend(&mut buffer[begin..end], list)
}

// How many blocks were written afresh, the first four numbers of the list, and the digest of the whole buffer afterwards.
fn ask_mend(
    rt: &impl Print,
    first: u64,
    last: u64,
    from: usize,
    to: usize,
    at: usize,
    byte: u8,
    start: usize,
    length: usize,
) -> io::Result<()>
    requires { (from < 4) × (to < 4) × (512 * start + length ≤ 2048) }
{
    let line = Line::new()
        .text(b"mend")
        .number(first)
        .number(last)
        .number(from as u64)
        .number(to as u64)
        .number(at as u64)
        .number(byte as u64)
        .number(start as u64)
        .number(length as u64);
    let mut buffer = scratched(first, last, from, to, at, byte);
    let mut list = [LENT; MOST_BLOCKS];
    let begin = BLOCK * start;
    let answer = mend_part(&mut buffer, begin, begin + length, &mut list);
    let digest = Digest::new().feed_bytes(&buffer);
    line.answer(rt, answer, |line, n| {
        answers::numbers(line.number(n), &list[..4]).number(digest.value())
    })
}

fn ask_whole(rt: &impl Print) -> io::Result<()> {
    ask_mend(rt, 1, 1, 0, 0, WHOLE, 0, 0, 512)?;
    ask_mend(rt, 1, 4, 0, 0, WHOLE, 0, 0, 2048)?;
    ask_mend(rt, 293996, 293998, 0, 0, WHOLE, 0, 0, 1536)?;
    ask_mend(rt, 1011597, 1011600, 0, 0, WHOLE, 0, 0, 2048)
}

// Lengths that are none, before what the blocks hold.
fn ask_lengths(rt: &impl Print) -> io::Result<()> {
    ask_mend(rt, 1, 4, 0, 0, WHOLE, 0, 0, 0)?;
    ask_mend(rt, 1, 4, 0, 0, WHOLE, 0, 0, 511)?;
    ask_mend(rt, 1, 4, 0, 0, WHOLE, 0, 0, 2047)?;
    ask_mend(rt, 0, 0, 0, 0, WHOLE, 0, 0, 513)
}

// One altered byte: in a middle block, in the first block's year, in the last block's check, beside an era's head, and once to the byte that stood there.
fn ask_bytes(rt: &impl Print) -> io::Result<()> {
    ask_mend(rt, 1, 4, 0, 0, 740, 1, 0, 2048)?;
    ask_mend(rt, 1, 4, 0, 0, 0, 9, 0, 2048)?;
    ask_mend(rt, 1, 4, 0, 0, 2047, 255, 0, 2048)?;
    ask_mend(rt, 168600, 168602, 0, 0, 1030, 1, 0, 1536)?;
    ask_mend(rt, 2, 3, 0, 0, 512, 3, 0, 1024)
}

// Blocks of zeros: in place of the first year, of the last, and behind the volume.
fn ask_zeros(rt: &impl Print) -> io::Result<()> {
    ask_mend(rt, 293996, 293998, 3, 0, WHOLE, 0, 0, 1536)?;
    ask_mend(rt, 293996, 293998, 3, 2, WHOLE, 0, 0, 1536)?;
    ask_mend(rt, 293996, 293998, 0, 0, WHOLE, 0, 0, 2048)?;
    ask_mend(rt, 1, 1, 0, 0, WHOLE, 0, 0, 2048)
}

// No block is sound.
fn ask_unsound(rt: &impl Print) -> io::Result<()> {
    ask_mend(rt, 0, 0, 0, 0, WHOLE, 0, 0, 512)?;
    ask_mend(rt, 0, 0, 0, 0, WHOLE, 0, 0, 2048)?;
    ask_mend(rt, 1, 1, 0, 0, 0, 9, 0, 512)?;
    ask_mend(rt, 1, 1, 0, 0, WHOLE, 0, 1, 512)
}

// A year twice, so that sound blocks imply different first years, however many agree.
fn ask_different(rt: &impl Print) -> io::Result<()> {
    ask_mend(rt, 1, 4, 0, 1, WHOLE, 0, 0, 2048)?;
    ask_mend(rt, 1, 4, 3, 0, WHOLE, 0, 0, 2048)?;
    ask_mend(rt, 5, 8, 1, 2, WHOLE, 0, 0, 2048)?;
    ask_mend(rt, 5, 8, 1, 2, 520, 1, 0, 2048)
}

// One sound block behind a damaged one: the first year would be 0, then 1; then a run past the round, and one that just stays in it.
fn ask_ends(rt: &impl Print) -> io::Result<()> {
    ask_mend(rt, 1, 1, 0, 1, 0, 9, 0, 1024)?;
    ask_mend(rt, 2, 2, 0, 1, 0, 9, 0, 1024)?;
    ask_mend(rt, 1011600, 1011600, 0, 0, WHOLE, 0, 0, 1024)?;
    ask_mend(rt, 1011598, 1011600, 0, 0, WHOLE, 0, 0, 2048)?;
    ask_mend(rt, 1011600, 1011600, 0, 3, 0, 9, 0, 2048)
}

// Cut at the front, so that the totals are another volume's.
fn ask_cut(rt: &impl Print) -> io::Result<()> {
    ask_mend(rt, 1, 4, 0, 0, WHOLE, 0, 1, 1536)?;
    ask_mend(rt, 293996, 293998, 0, 0, WHOLE, 0, 1, 1024)?;
    ask_mend(rt, 1011597, 1011600, 0, 0, WHOLE, 0, 3, 512)
}

pub fn ask_mending(rt: &impl Print) -> io::Result<()> {
    ask_whole(rt)?;
    ask_lengths(rt)?;
    ask_bytes(rt)?;
    ask_zeros(rt)?;
    ask_unsound(rt)?;
    ask_different(rt)?;
    ask_ends(rt)?;
    ask_cut(rt)
}
