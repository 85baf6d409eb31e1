// Bytes written to places of a lent buffer, read back and compared.
ghost use Rattle.std.specs.Prelude.{◌≡◌, [], ◌∷◌, ◌++◌, ◌+◌, ◌≤◌, ◌<◌, length};
ghost use Rattle.writing.specs.Written.{Wrote};
ghost use Rattle.blocks.specs.Bytes.{le32, le16, zeros, value32, value16, same};

pub fn put_four(out: &mut [u8], at: usize, a: u8, b: u8, c: u8, d: u8)
    requires { at + 4 ≤ length out.old }
    ensures { Wrote out.old out.new at (at + 4) (a ∷ b ∷ c ∷ d ∷ []) }
{
    out[at] = a;
    out[at + 1] = b;
    out[at + 2] = c;
    out[at + 3] = d;
}

pub fn put_u32(out: &mut [u8], at: usize, x: u64)
    requires { at + 4 ≤ length out.old }
    ensures { Wrote out.old out.new at (at + 4) (le32 x) }
{
    put_four(
        out,
        at,
        (x % 256) as u8,
        (x / 256 % 256) as u8,
        (x / 65536 % 256) as u8,
        (x / 16777216 % 256) as u8,
    )
}

// Three numbers of four bytes each.
pub fn put_three(out: &mut [u8], at: usize, a: u64, b: u64, c: u64)
    requires { at + 12 ≤ length out.old }
    ensures { Wrote out.old out.new at (at + 12) (le32 a ++ le32 b ++ le32 c) }
{
    put_u32(out, at, a);
    put_u32(out, at + 4, b);
    put_u32(out, at + 8, c);
}

pub fn put_u16(out: &mut [u8], at: usize, x: u64)
    requires { at + 2 ≤ length out.old }
    ensures { Wrote out.old out.new at (at + 2) (le16 x) }
{
    out[at] = (x % 256) as u8;
    out[at + 1] = (x / 256 % 256) as u8;
}

pub fn put_zeros(out: &mut [u8], at: usize, n: usize)
    requires { at + n ≤ length out.old }
    ensures { Wrote out.old out.new at (at + n) (zeros n) }
{
    out[at..at + n].fill(0);
}

fn wide(byte: u8) -> u64
    ensures { (result ≡ byte) × (result < 256) }
{
    byte as u64
}

// The number that the four bytes from a place on mean.
pub fn u32_at(bytes: &[u8], at: usize) -> u64
    requires { at + 4 ≤ length bytes.now }
    ensures { (result ≡ value32 bytes.now at) × (result < 4294967296) }
{
    wide(bytes[at])
        + 256 * wide(bytes[at + 1])
        + 65536 * wide(bytes[at + 2])
        + 16777216 * wide(bytes[at + 3])
}

// The same of two bytes.
pub fn u16_at(bytes: &[u8], at: usize) -> u64
    requires { at + 2 ≤ length bytes.now }
    ensures { result ≡ value16 bytes.now at }
{
    wide(bytes[at]) + 256 * wide(bytes[at + 1])
}

// Whether two lists of one length hold the same bytes. It goes to the end whatever it finds, with no branch: over a block that is faster than `==`.
pub fn same_bytes(a: &[u8], b: &[u8]) -> bool
    requires { length a.now ≡ length b.now }
    ensures { result ≡ same a.now b.now }
{
    let mut equal = true;
    for (x, y) in a.iter().zip(b) {
        equal = equal & (x == y);
    }
    equal
}
