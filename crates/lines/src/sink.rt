// Where the numbers of an answer go, one after the other: onto a line or into a digest.
use crate::Line;
use crate::digest::Digest;
use walking::Sign;

// Added to a signed number in a digest, so that none of the calendar's is negative.
const SHIFT: u64 = 1000000;

pub trait Sink {
    fn number(self, number: u64) -> Self;

    fn signed(self, number: i64) -> Self;
}

impl Sink for Line {
    fn number(self, number: u64) -> Self {
        Line::number(self, number)
    }

    fn signed(self, number: i64) -> Self {
        Line::signed(self, number)
    }
}

impl Sink for Digest {
    fn number(self, number: u64) -> Self {
        self.feed(number)
    }

    fn signed(self, number: i64) -> Self {
        self.feed(match walking::sign_of(number) {
            Sign::Up(n) => SHIFT.wrapping_add(n),
            // `Down(n)` is -(n + 1)
            Sign::Down(n) => (SHIFT - 1).wrapping_sub(n),
        })
    }
}
