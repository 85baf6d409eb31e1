// Reading a line with a first and a last year, fed one byte at a time, in fixed memory.
ghost use Rattle.std.specs.Prelude.{◌≡◌, []};
ghost use Rattle.volumes.specs.Writer.{span_answer};
ghost use Rattle.year_text.specs.Lines.{year_read};
ghost use Rattle.volume_text.specs.Lines.{span_read, last_year, span_fed, span_settled};

use refusal::Refusal;
use year_text::reader::Reader;

#[derive(Clone, Copy)]
pub struct SpanReader {
    // what stands before the first blank
    pub first: Reader,
    // what stands after it, once it has come
    pub last: Option<Reader>,
}

impl SpanReader {
    pub fn new() -> SpanReader
        ensures { result ≡ span_read [] }
    {
        SpanReader {
            first: Reader::new(),
            last: None,
        }
    }

    // One byte more of the line.
    pub fn feed(self, byte: u8) -> SpanReader
        ensures { result ≡ span_fed self byte }
    {
        if let Some(last) = self.last {
            return SpanReader {
                last: Some(last.feed(byte)),
                ..self
            };
        }
        if byte == b' ' {
            return SpanReader {
                last: Some(Reader::new()),
                ..self
            };
        }
        SpanReader {
            first: self.first.feed(byte),
            ..self
        }
    }

    // Whether the line asks for no span of the round's years, whatever follows: nothing more has to be read.
    pub fn settled(self) -> bool
        ensures { result ≡ span_settled self }
    {
        self.first.settled() || self.last.is_some_and(|last| last.settled())
    }

    // How many years the line asks for; without a blank none, since no year is 0.
    pub fn span(self) -> Result<u64, Refusal>
        ensures { result ≡ span_answer (year_read self.first) (last_year self) }
    {
        let last = self.last.map_or(0, |last| last.year());
        volumes::writer::span(self.first.year(), last)
    }
}
