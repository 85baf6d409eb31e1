// Reigns: the marked moons of a span, told from a buffer that holds a volume.
ghost use Rattle.std.specs.Prelude.{◌≤◌};

use crate::volume_edges;
use crate::volume_edges::WHOLE;
use lines::Line;
use std::io;

// Of the first so many bytes, after one byte was altered.
fn ask_marked(
    rt: &impl Print,
    first: u64,
    last: u64,
    at: usize,
    byte: u8,
    length: usize,
    from: u64,
    to: u64,
) -> io::Result<()>
    requires { length ≤ 2048 }
{
    let line = Line::new()
        .text(b"marked")
        .number(first)
        .number(last)
        .number(at as u64)
        .number(byte as u64)
        .number(length as u64)
        .number(from)
        .number(to);
    let buffer = volume_edges::altered(first, last, at, byte);
    line.answer(
        rt,
        reigns::marked(&buffer[..length], from, to),
        |line, (news, fulls)| line.number(news).number(fulls),
    )
}

// Spans that start the volume and spans that do not, of one year and of more; about an era's head and both ends of the round, and in a volume that
// is cut after a block.
fn ask_whole(rt: &impl Print) -> io::Result<()> {
    ask_marked(rt, 1, 1, WHOLE, 0, 512, 1, 1)?;
    ask_marked(rt, 1, 4, WHOLE, 0, 2048, 1, 4)?;
    ask_marked(rt, 1, 4, WHOLE, 0, 2048, 1, 2)?;
    ask_marked(rt, 1, 4, WHOLE, 0, 2048, 2, 4)?;
    ask_marked(rt, 1, 4, WHOLE, 0, 2048, 4, 4)?;
    ask_marked(rt, 1, 4, WHOLE, 0, 1536, 2, 3)?;
    ask_marked(rt, 293996, 293998, WHOLE, 0, 1536, 293996, 293998)?;
    ask_marked(rt, 293996, 293998, WHOLE, 0, 1536, 293997, 293997)?;
    ask_marked(rt, 168600, 168602, WHOLE, 0, 1536, 168601, 168602)?;
    ask_marked(rt, 1011600, 1011600, WHOLE, 0, 512, 1011600, 1011600)?;
    ask_marked(rt, 1011597, 1011600, WHOLE, 0, 2048, 1011598, 1011600)
}

// Lengths that are none, before years that are not in the volume; then such years, below it, above it, or in it but in the wrong order, before altered
// blocks. Of some only the lower 32 bits are a year of the volume.
fn ask_refused(rt: &impl Print) -> io::Result<()> {
    ask_marked(rt, 1, 1, WHOLE, 0, 0, 1, 1)?;
    ask_marked(rt, 1, 1, WHOLE, 0, 511, 1, 1)?;
    ask_marked(rt, 1, 4, WHOLE, 0, 513, 1, 1)?;
    ask_marked(rt, 1, 4, WHOLE, 0, 2047, 4, 1)?;
    ask_marked(rt, 1, 4, 0, 9, 1000, u64::MAX, 0)?;
    ask_marked(rt, 1, 4, WHOLE, 0, 2048, 3, 2)?;
    ask_marked(rt, 1, 4, WHOLE, 0, 2048, 0, 4)?;
    ask_marked(rt, 2, 3, WHOLE, 0, 1024, 1, 3)?;
    ask_marked(rt, 1, 4, WHOLE, 0, 2048, 2, 5)?;
    ask_marked(rt, 1, 4, WHOLE, 0, 1536, 4, 4)?;
    ask_marked(rt, 1, 4, WHOLE, 0, 2048, 5, 5)?;
    ask_marked(rt, 1, 4, WHOLE, 0, 2048, 1, u64::MAX)?;
    ask_marked(rt, 1, 4, WHOLE, 0, 2048, u64::MAX, u64::MAX)?;
    ask_marked(rt, 1, 4, WHOLE, 0, 2048, 4294967298, 4294967299)?;
    ask_marked(rt, 1, 4, 1030, 1, 2048, 4, 3)?;
    ask_marked(rt, 1, 4, 1030, 1, 2048, 3, 5)
}

// Altered in the second of four blocks: asked for as the one before the span and as its last, then not at all; in the totals, the check and the year
// of a last block, and once to the byte that stood there. Then in the first four bytes, so that the years are others: the first block is asked for,
// then not.
fn ask_altered(rt: &impl Print) -> io::Result<()> {
    ask_marked(rt, 1, 4, 740, 1, 2048, 3, 4)?;
    ask_marked(rt, 1, 4, 740, 1, 2048, 1, 2)?;
    ask_marked(rt, 1, 4, 740, 1, 2048, 4, 4)?;
    ask_marked(rt, 1, 4, 740, 1, 2048, 1, 3)?;
    ask_marked(rt, 2, 3, 732, 99, 1024, 2, 3)?;
    ask_marked(rt, 2, 3, 1023, 255, 1024, 3, 3)?;
    ask_marked(rt, 2, 3, 512, 4, 1024, 2, 3)?;
    ask_marked(rt, 2, 3, 512, 3, 1024, 2, 3)?;
    ask_marked(rt, 1, 4, 0, 9, 2048, 2, 3)?;
    ask_marked(rt, 1, 4, 0, 9, 2048, 9, 9)?;
    ask_marked(rt, 1, 4, 0, 9, 2048, 10, 11)?;
    ask_marked(rt, 1, 4, 0, 9, 2048, 11, 12)?;
    ask_marked(rt, 1, 4, 0, 9, 2048, 9, 11)?;
    ask_marked(rt, 1, 4, 3, 255, 2048, 4278190083, 4278190084)
}

// Blocks of zeros have right checks: alone, where the first year is 0; then behind a year, below whose totals theirs are.
fn ask_zeros(rt: &impl Print) -> io::Result<()> {
    ask_marked(rt, 0, 0, WHOLE, 0, 512, 0, 0)?;
    ask_marked(rt, 0, 0, WHOLE, 0, 1024, 1, 1)?;
    ask_marked(rt, 0, 0, WHOLE, 0, 512, 0, 1)?;
    ask_marked(rt, 0, 0, 510, 1, 512, 0, 0)?;
    ask_marked(rt, 1, 1, WHOLE, 0, 1024, 2, 2)?;
    ask_marked(rt, 3, 3, WHOLE, 0, 1024, 4, 4)?;
    ask_marked(rt, 3, 3, WHOLE, 0, 1024, 3, 4)?;
    ask_marked(rt, 3, 3, WHOLE, 0, 1536, 5, 5)
}

pub fn ask_reigns(rt: &impl Print) -> io::Result<()> {
    ask_whole(rt)?;
    ask_refused(rt)?;
    ask_altered(rt)?;
    ask_zeros(rt)
}
