// Reads a volume from standard input and prints its first and its last year.
#![tactic(auto)]

use blocks::BLOCK;
use refusal::Refusal;
use std::io;
use std::io::Read;
use volumes::reader::Reader;

// What comes after the last whole block, where that isn't known: something.
const UNKNOWN: usize = 1;

// How many bytes come after the last whole block, where so many were read: an input that has not ended there, since a read failed, is no volume.
fn left_over<R: Read>(input: &mut R, got: usize) -> usize {
    if reading::has_ended(input) {
        got
    } else {
        UNKNOWN
    }
}

// What `volumes::reader::read` does with a list of bytes, with blocks as they come, so that a volume of any length needs no more memory than one. A
// proved loop has to end, and nothing says that an input does: the loop has more turns than any run uses up.
fn read_volume<R: Read>(input: &mut R) -> Result<(u64, u64), Refusal> {
    let mut reader = Reader::new();
    for _ in 0..u64::MAX {
        let mut part = [0u8; BLOCK];
        let got = reading::read_full(input, &mut part);
        if got != BLOCK {
            return reader.finish(left_over(input, got));
        }
        reader = reader.block(&part);
    }
    reader.finish(UNKNOWN)
}

fn main(rt: HostRuntime) -> io::Result<()> {
    let mut line = [0u8; 64];
    let n = volume_text::writer::render(read_volume(&mut rt.stdin()), &mut line);
    rt.write_all(&line[..n])
}
