// Reading a line, fed one byte at a time, in fixed memory.
ghost use Rattle.std.specs.Prelude.{◌≡◌, [], ◌+◌, ◌*◌, ◌<◌, min};
ghost use Rattle.year_text.specs.Lines.{past_round, not_digits, read_of, year_read, fed, is_settled, stepped, asked};

use std::ops::ControlFlow;
use units::Xinghe;

// One past every year of the round, which stands for all that are past it.
const PAST_ROUND: u64 = Xinghe::YEARS + 1;

#[derive(Clone, Copy)]
pub struct Reader {
    // the number of the line's digits, or one past every year where it is more; none, once any other byte has come
    pub number: Option<u64>,
}

impl Reader {
    pub fn new() -> Reader
        ensures { result ≡ read_of [] }
    {
        Reader { number: Some(0) }
    }

    // One byte more of the line, whatever the bytes before it were.
    pub fn feed(self, byte: u8) -> Reader
        ensures { result ≡ fed self byte }
    {
        let Some(number) = self.number else {
            return self;
        };
        if byte < 48 {
            return refused();
        }
        if 57 < byte {
            return refused();
        }
        Reader {
            number: Some(longer(number, u64::from(byte - 48))),
        }
    }

    // Whether the line asks for no year of the round, whatever follows: nothing more has to be read.
    pub fn settled(self) -> bool
        ensures { result ≡ is_settled self }
    {
        match self.number {
            Some(number) => Xinghe::YEARS < number,
            None => true,
        }
    }

    // The year that the line asks for, where it ends here: 0, which is no year, where it has any byte but a digit.
    pub fn year(self) -> u64
        ensures { result ≡ year_read self }
    {
        self.number.unwrap_or(0)
    }

    // What a byte more makes of a line: the year that it asks for, where it ends or is settled, or a reader of the next byte.
    pub fn step(self, byte: u8) -> ControlFlow<u64, Reader>
        ensures { result ≡ stepped self byte }
    {
        if byte == b'\n' {
            return ControlFlow::Break(self.year());
        }
        let next = self.feed(byte);
        if next.settled() {
            return ControlFlow::Break(next.year());
        }
        ControlFlow::Continue(next)
    }
}

fn refused() -> Reader
    ensures { result ≡ not_digits }
{
    Reader { number: None }
}

// A number with a digit more at its end, but at the most one past every year.
fn longer(year: u64, digit: u64) -> u64
    requires { digit < 10 }
    ensures { result ≡ min (10 * year + digit) past_round }
{
    if PAST_ROUND / 10 < year {
        return PAST_ROUND;
    }
    PAST_ROUND.min(10 * year + digit)
}

// The year that an input asks for, byte by byte, as the printer reads it.
pub fn year_asked(input: &[u8]) -> u64
    ensures { result ≡ asked (read_of []) input.now }
{
    let mut reader = Reader::new();
    for &byte in input {
        match reader.step(byte) {
            ControlFlow::Break(year) => return year,
            ControlFlow::Continue(next) => reader = next,
        }
    }
    reader.year()
}
