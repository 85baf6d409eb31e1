// Reads one line with a first and a last year from standard input and writes the volume of these years, both included, block by block.
#![tactic(auto)]

ghost use Rattle.std.specs.Prelude.{◌+◌, ◌≤◌};
ghost use Rattle.units.specs.Xinghe.{round_years};

use std::io;
use std::io::Read;
use volume_text::reader::SpanReader;

// One byte at a time, so that what follows the line is left for whoever reads next. The line ends at a newline, at the end of the input, and where it
// is settled. A read that fails, also where a signal cuts it short, leaves a line that isn't known: it asks for no year. So the bytes don't come by
// `bytes()`, which tries such a read again. A proved loop has to end: the turns are more than any run uses up.
fn read_span<R: Read>(input: &mut R) -> SpanReader {
    let mut reader = SpanReader::new();
    for _ in 0..u64::MAX {
        let mut byte = [0u8; 1];
        let Ok(got) = input.read(&mut byte) else {
            return SpanReader::new();
        };
        if (got == 0) | (byte[0] == b'\n') {
            return reader;
        }
        reader = reader.feed(byte[0]);
        if reader.settled() {
            return reader;
        }
    }
    SpanReader::new()
}

// It ends where a write does not go through: nobody reads on.
fn write_blocks(rt: &impl Print, first: u64, n: u64) -> io::Result<()>
    requires { (1 ≤ first) × (first + n ≤ round_years + 1) }
{
    for year in first..first + n {
        rt.write_all(&volumes::block(first, year))?;
    }
    Ok(())
}

fn main(rt: HostRuntime) -> io::Result<()> {
    let reader = read_span(&mut rt.stdin());
    match reader.span() {
        Ok(n) => write_blocks(&rt, reader.first.year(), n),
        Err(e) => {
            let mut line = [0u8; 64];
            let n = volume_text::writer::render(Err(e), &mut line);
            rt.write_all(&line[..n])
        }
    }
}
