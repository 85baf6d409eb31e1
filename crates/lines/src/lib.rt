// Lines of output for the programs cases and survey, digests of what they are about, and the answers that go onto either. A line is built by value and written by one system call, since a call for each number would take most of the run.
#![tactic(auto)]

use arrayvec::ArrayVec;
use refusal::{Numbered, Refusal};
use std::io::{self, Write};

pub mod answers;
pub mod calendars;
pub mod digest;
pub mod sink;

// Room for the longest line, which has 276 bytes, and its end. What does not fit is left out, so that building a line asks nothing of its caller.
const ROOM: usize = 288;

// Room for a blank and the longest number, or the longest signed one.
const DIGITS: usize = 21;

// An array and a length: an `ArrayVec` would not be `Copy`.
#[derive(Clone, Copy)]
pub struct Line {
    pub bytes: [u8; ROOM],
    pub len: usize,
}

impl Line {
    pub fn new() -> Self {
        Self {
            bytes: [0; ROOM],
            len: 0,
        }
    }

    pub fn byte(self, byte: u8) -> Self {
        self.text(&[byte])
    }

    pub fn text(mut self, text: &[u8]) -> Self {
        let at = self.len;
        if at < ROOM {
            let count = text.len().min(ROOM - at);
            self.bytes[at..at + count].copy_from_slice(&text[..count]);
            self.len = at + count;
        }
        self
    }

    // A number after a space, as every number of a line stands.
    pub fn number(self, number: u64) -> Self {
        let mut digits: ArrayVec<u8, DIGITS> = ArrayVec::new();
        let _ = write!(digits, " {number}");
        self.text(digits.as_slice())
    }

    pub fn signed(self, number: i64) -> Self {
        let mut digits: ArrayVec<u8, DIGITS> = ArrayVec::new();
        let _ = write!(digits, " {number}");
        self.text(digits.as_slice())
    }

    // Ends and writes the line.
    pub fn write(self, rt: &impl Print) -> io::Result<()> {
        let ended = self.byte(b'\n');
        if let Some(bytes) = ended.bytes.get(..ended.len) {
            rt.write_all(bytes)?;
        }
        Ok(())
    }

    // Writes the question with the number of its refusal.
    pub fn refuse(self, rt: &impl Print, refusal: Refusal) -> io::Result<()> {
        self.text(b" refused").number(refusal.number()).write(rt)
    }

    // Writes the question with its answer as `with` puts it on the line, or with the number of its refusal.
    pub fn answer<T, F: FnOnce(Line, T) -> Line>(
        self,
        rt: &impl Print,
        answer: Result<T, Refusal>,
        with: F,
    ) -> io::Result<()>
        requires { F.IsAlwaysCallable with }
    {
        match answer {
            Ok(value) => with(self, value).write(rt),
            Err(refusal) => self.refuse(rt, refusal),
        }
    }
}
