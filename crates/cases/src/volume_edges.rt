// Volumes: what is written to a lent buffer, then what is read from one.
ghost use Rattle.std.specs.Prelude.{◌≡◌, ◌≤◌, length};

use lines::Line;
use lines::digest::Digest;
use refusal::Refusal;
use std::io;

// The bytes of the buffer, room for four years.
pub const BUFFER: usize = 2048;

// A place at which no byte is altered.
pub const WHOLE: usize = BUFFER;

// What the writer answered, and the buffer afterwards.
#[derive(Clone, Copy)]
struct Writing {
    answer: Result<u64, Refusal>,
    buffer: [u8; BUFFER],
}

fn lent(byte: u8) -> [u8; BUFFER]
    ensures { 2048 ≡ length result }
{
    [byte; BUFFER]
}

// Into the first so many bytes of the buffer.
fn write_in(first: u64, last: u64, room: usize) -> Writing
    requires { room ≤ 2048 }
    ensures { 2048 ≡ length result.buffer }
{
    let mut buffer = lent(165);
    let answer = volumes::writer::write(first, last, &mut buffer[..room]);
    Writing { answer, buffer }
}

// How many bytes are written, and the digest of the whole buffer afterwards.
fn ask_write(rt: &impl Print, first: u64, last: u64, room: usize) -> io::Result<()>
    requires { room ≤ 2048 }
{
    let line = Line::new()
        .text(b"write")
        .number(first)
        .number(last)
        .number(room as u64);
    let writing = write_in(first, last, room);
    let digest = Digest::new().feed_bytes(&writing.buffer);
    line.answer(rt, writing.answer, |line, n| {
        line.number(n).number(digest.value())
    })
}

// A volume with one byte altered, at the front of zeros; where the writer refuses there are zeros alone.
pub fn altered(first: u64, last: u64, at: usize, byte: u8) -> [u8; BUFFER]
    ensures { 2048 ≡ length result }
{
    let mut buffer = lent(0);
    let _ = volumes::writer::write(first, last, &mut buffer);
    if at < BUFFER {
        buffer[at] = byte;
    }
    buffer
}

// The years of the first so many bytes, after one byte was altered.
fn ask_read(
    rt: &impl Print,
    first: u64,
    last: u64,
    at: usize,
    byte: u8,
    length: usize,
) -> io::Result<()>
    requires { length ≤ 2048 }
{
    let line = Line::new()
        .text(b"read")
        .number(first)
        .number(last)
        .number(at as u64)
        .number(byte as u64)
        .number(length as u64);
    let buffer = altered(first, last, at, byte);
    line.answer(
        rt,
        volumes::reader::read(&buffer[..length]),
        |line, (first, last)| line.number(first).number(last),
    )
}

// Both ends of the round, an era's head, years of twelve and thirteen months, as many as there is room for.
fn ask_written(rt: &impl Print) -> io::Result<()> {
    ask_write(rt, 1, 1, 512)?;
    ask_write(rt, 1, 1, 2048)?;
    ask_write(rt, 3, 3, 513)?;
    ask_write(rt, 1, 4, 2048)?;
    ask_write(rt, 2, 3, 1535)?;
    ask_write(rt, 293996, 293998, 1536)?;
    ask_write(rt, 168600, 168600, 512)?;
    ask_write(rt, 168600, 168602, 2048)?;
    ask_write(rt, 1011600, 1011600, 512)?;
    ask_write(rt, 1011597, 1011600, 2048)
}

// Too little room; then what is refused for its years, of which the lowest number counts.
fn ask_writing_refused(rt: &impl Print) -> io::Result<()> {
    ask_write(rt, 1, 1, 0)?;
    ask_write(rt, 1, 1, 511)?;
    ask_write(rt, 1, 4, 2047)?;
    ask_write(rt, 1, 5, 2048)?;
    ask_write(rt, 1, 1011600, 2048)?;
    ask_write(rt, 2, 1, 2048)?;
    ask_write(rt, 1011600, 1, 0)?;
    ask_write(rt, 0, 0, 2048)?;
    ask_write(rt, 0, 1, 0)?;
    ask_write(rt, 1, 0, 2048)?;
    ask_write(rt, 1011600, 1011601, 2048)?;
    ask_write(rt, 1011601, 1011600, 0)?;
    ask_write(rt, 1, u64::MAX, 2048)?;
    ask_write(rt, u64::MAX, 1, 0)
}

// Whole volumes, a cut between blocks, lengths that are none, blocks that are missing or past the round.
fn ask_whole(rt: &impl Print) -> io::Result<()> {
    ask_read(rt, 1, 1, WHOLE, 0, 512)?;
    ask_read(rt, 1, 4, WHOLE, 0, 2048)?;
    ask_read(rt, 1, 4, WHOLE, 0, 1536)?;
    ask_read(rt, 293996, 293998, WHOLE, 0, 1536)?;
    ask_read(rt, 168600, 168602, WHOLE, 0, 1536)?;
    ask_read(rt, 1011600, 1011600, WHOLE, 0, 512)?;
    ask_read(rt, 1011597, 1011600, WHOLE, 0, 2048)?;
    ask_read(rt, 1, 1, WHOLE, 0, 0)?;
    ask_read(rt, 1, 1, WHOLE, 0, 511)?;
    ask_read(rt, 1, 1, WHOLE, 0, 513)?;
    ask_read(rt, 1, 4, 0, 9, 2047)?;
    ask_read(rt, 1, 1, WHOLE, 0, 1024)?;
    ask_read(rt, 1011600, 1011600, WHOLE, 0, 1024)
}

// One altered byte: of the year, the count, the leap place, the zeros, the records, the totals and the check.
fn ask_altered(rt: &impl Print) -> io::Result<()> {
    ask_read(rt, 1, 1, 0, 0, 512)?;
    ask_read(rt, 1, 1, 0, 2, 512)?;
    ask_read(rt, 1011600, 1011600, 0, 145, 512)?;
    ask_read(rt, 1, 1, 3, 1, 512)?;
    ask_read(rt, 3, 3, 4, 12, 512)?;
    ask_read(rt, 3, 3, 5, 8, 512)?;
    ask_read(rt, 1, 1, 6, 1, 512)?;
    ask_read(rt, 1, 1, 8, 1, 512)?;
    ask_read(rt, 3, 3, 20, 31, 512)?;
    ask_read(rt, 3, 3, 22, 1, 512)?;
    ask_read(rt, 3, 3, 23, 1, 512)?;
    ask_read(rt, 3, 3, 216, 0, 512)?;
    ask_read(rt, 3, 3, 220, 0, 512)?;
    ask_read(rt, 3, 3, 224, 0, 512)?;
    ask_read(rt, 3, 3, 228, 1, 512)?;
    ask_read(rt, 3, 3, 509, 1, 512)?;
    ask_read(rt, 3, 3, 510, 0, 512)?;
    ask_read(rt, 3, 3, 511, 0, 512)
}

// Altered in the second block: three times it is refused, then it is not read, and then the byte is what it was.
fn ask_second_block(rt: &impl Print) -> io::Result<()> {
    ask_read(rt, 2, 3, 512, 4, 1024)?;
    ask_read(rt, 2, 3, 728, 0, 1024)?;
    ask_read(rt, 2, 3, 1023, 255, 1024)?;
    ask_read(rt, 2, 3, 1023, 255, 512)?;
    ask_read(rt, 2, 3, 512, 3, 1024)
}

pub fn ask_volumes(rt: &impl Print) -> io::Result<()> {
    ask_written(rt)?;
    ask_writing_refused(rt)?;
    ask_whole(rt)?;
    ask_altered(rt)?;
    ask_second_block(rt)
}
