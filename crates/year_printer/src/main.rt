// Reads one line with a year from standard input and prints the year.
#![tactic(auto)]

use std::io;
use std::io::Read;
use std::ops::ControlFlow;
use year_text::reader::Reader;

// No year has this number; as a year it is refused under 1.
const NO_YEAR: u64 = 0;

// What `year_text::reader::year_asked` does with a list of bytes, with bytes as they come: one at a time, so that what follows the line is left for
// whoever reads next. A read that a signal cuts short is tried again; after any other failure it isn't known what the line goes on with.
fn read_year<R: Read + Drop>(input: R) -> u64 {
    let mut reader = Reader::new();
    for byte in input.bytes() {
        let Ok(byte) = byte else {
            return NO_YEAR;
        };
        match reader.step(byte) {
            ControlFlow::Break(year) => return year,
            ControlFlow::Continue(next) => reader = next,
        }
    }
    reader.year()
}

fn main(rt: HostRuntime) -> io::Result<()> {
    let mut out = [0u8; 2048];
    let n = year_text::writer::render(read_year(rt.stdin()), &mut out);
    rt.write_all(&out[..n])
}
