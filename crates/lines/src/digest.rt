// A digest: two running sums over every number that it is fed, in order.

// Each sum stays below its modulus, which is below 2^32. Held as u32 it needs no bound to be stated.
#[derive(Clone, Copy)]
pub struct Digest {
    pub h1: u32,
    pub h2: u32,
}

impl Digest {
    pub fn new() -> Self {
        Self { h1: 1, h2: 1 }
    }

    // No sum wraps for the numbers of the calendar, which are below 2^40; the wrapping sum spares stating so for each of them.
    pub fn feed(self, value: u64) -> Self {
        let first = (u64::from(self.h1) * 65599).wrapping_add(value);
        let second = (u64::from(self.h2) * 31337).wrapping_add(value);
        Self {
            h1: (first % 4294967291) as u32,
            h2: (second % 4294967279) as u32,
        }
    }

    // Each of the bytes.
    pub fn feed_bytes(self, bytes: &[u8]) -> Self {
        bytes
            .iter()
            .fold(self, |fed, &byte| fed.feed(u64::from(byte)))
    }

    // Both sums of another digest, the first one first.
    pub fn feed_digest(self, other: Digest) -> Self {
        self.feed(u64::from(other.h1)).feed(u64::from(other.h2))
    }

    // Both sums in one number.
    pub fn value(self) -> u64 {
        u64::from(self.h1) * 4294967296 + u64::from(self.h2)
    }
}
