// Every year's block and the one before it, out of the volume of the whole round: one byte is altered, and they are mended as a volume of two years.
ghost use Rattle.std.specs.Prelude.{◌≡◌, ◌<◌, ◌≤◌, length};

use crate::volume;
use crate::volume::{PAIR, put_block};
use blocks::BLOCK;
use lines::answers;
use lines::digest::Digest;
use mending::MOST_BLOCKS;

// One more, or 0 where it is the greatest.
fn alter(bytes: &mut [u8], at: usize)
    requires { at < length bytes.old }
    ensures { length bytes.new ≡ length bytes.old }
{
    bytes[at] = bytes[at].wrapping_add(1);
}

// So many, or as many as a list has.
fn at_most(count: u64) -> usize
    ensures { result ≤ 1024 }
{
    MOST_BLOCKS.min(count as usize)
}

// How many blocks were written afresh, which, and the mended volume.
fn feed_volume(digest: Digest, bytes: &mut [u8]) -> Digest {
    let mut list = [0u64; MOST_BLOCKS];
    let count = mending::mend(bytes, &mut list).unwrap_or(0);
    let with_list = answers::numbers(digest.feed(count), &list[..at_most(count)]);
    volume::feed_words(with_list, bytes)
}

// The first year has no block before it, and its own is left whole.
pub fn feed_mended(digest: Digest, year: u64) -> Digest {
    let mut pair = [0u8; PAIR];
    if year <= 1 {
        put_block(&mut pair, 0, year);
        return feed_volume(digest, &mut pair[..BLOCK]);
    }
    put_block(&mut pair, 0, year - 1);
    put_block(&mut pair, BLOCK, year);
    alter(
        &mut pair,
        (year % 2) as usize * BLOCK + (year % 512) as usize,
    );
    feed_volume(digest, &mut pair)
}
