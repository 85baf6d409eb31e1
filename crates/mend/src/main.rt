// Reads a scratched volume from standard input, mends it, and prints the indices of the damaged blocks, their number and the mended volume.
#![tactic(auto)]

ghost use Rattle.std.specs.Prelude.{◌≡◌, ◌≤◌, length};

use blocks::BLOCK;
use mending::MOST_BLOCKS;
use mending_text::LINES;
use std::io;
use std::io::Read;

// One byte more than the longest volume that is mended: an input that fills it is longer, and no more of it is read.
const ROOM: usize = BLOCK * MOST_BLOCKS + 1;

// Nothing: no volume.
const NONE: usize = 0;

// So many zeros. Their number is a parameter, since a proof at the number itself would count them out one by one.
fn zeros<const N: usize>() -> [u8; N]
    ensures { N ≡ length result }
{
    [0; N]
}

// How many bytes of the input are at the front of the buffer. An input that has not ended there, since a read failed, is no volume.
fn read_volume<R: Read>(input: &mut R, buffer: &mut [u8]) -> usize
    ensures { result ≤ length buffer.new }
{
    let got = reading::read_full(input, buffer);
    if got == buffer.len() {
        return got;
    }
    if reading::has_ended(input) { got } else { NONE }
}

// It ends where a write does not go through: nobody reads on.
fn mend_and_print(rt: &impl Print, volume: &mut [u8]) -> io::Result<()> {
    let mut lines = [0u8; LINES];
    let report = mending_text::render(volume, &mut lines);
    rt.write_all(&lines[..report.text])?;
    rt.write_all(&volume[..report.volume])
}

fn main(rt: HostRuntime) -> io::Result<()> {
    let mut buffer: [u8; ROOM] = zeros();
    let got = read_volume(&mut rt.stdin(), &mut buffer);
    mend_and_print(&rt, &mut buffer[..got])
}
