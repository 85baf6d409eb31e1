// The marked moons of every year, told from the volume of the whole round: from two of its blocks, as if all before them had been cut off.
use crate::volume::{PAIR, put_block};
use blocks::BLOCK;
use lines::digest::Digest;
use refusal::Refusal;

fn feed_moons(digest: Digest, answer: Result<(u64, u64), Refusal>) -> Digest {
    let (news, fulls) = answer.unwrap_or_default();
    digest.feed(news).feed(fulls)
}

// The first year starts the volume; of any other, what its block has more than the one before.
pub fn feed_marked(digest: Digest, year: u64) -> Digest {
    let mut pair = [0u8; PAIR];
    if year <= 1 {
        put_block(&mut pair, 0, year);
        return feed_moons(digest, reigns::marked(&pair[..BLOCK], year, year));
    }
    put_block(&mut pair, 0, year - 1);
    put_block(&mut pair, BLOCK, year);
    feed_moons(digest, reigns::marked(&pair, year, year))
}
