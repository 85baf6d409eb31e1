// The volume of the whole round, block by block.
ghost use Rattle.std.specs.Prelude.{◌≡◌, ◌+◌, ◌≤◌, length};

use blocks::BLOCK;
use lines::digest::Digest;

// How many bytes two blocks have.
pub const PAIR: usize = 2 * BLOCK;

// The numbers of four bytes of which blocks are made, in order.
pub fn feed_words(digest: Digest, bytes: &[u8]) -> Digest {
    let mut fed = digest;
    for word in bytes.chunks_exact(4) {
        fed = fed.feed(blocks::bytes::u32_at(word, 0));
    }
    fed
}

// The year's block in the volume that begins with the round.
pub fn feed_block(digest: Digest, year: u64) -> Digest {
    if volumes::is_run(1, year) {
        let block = volumes::block(1, year);
        return feed_words(digest, &block);
    }
    digest
}

// The same block from a place of a buffer on.
pub fn put_block(out: &mut [u8], at: usize, year: u64)
    requires { at + 512 ≤ length out.old }
    ensures { length out.new ≡ length out.old }
{
    if volumes::is_run(1, year) {
        let block = volumes::block(1, year);
        writing::put_text(out, at, &block);
    }
}
