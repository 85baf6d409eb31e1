// How many in a reign: the marked moons of a span of a volume's years, from the totals in one or two of its blocks.
#![tactic(auto)]

ghost use Rattle.std.specs.Prelude.{◌≡◌, length};
ghost use Rattle.reigns.specs.Marked.{in_volume, none_below, from_last, from_both, marked_answer};

use blocks::{BLOCK, check};
use refusal::Refusal;
use totals::Totals;

fn in_volume(first: u64, end: u64, from: u64, to: u64) -> bool
    ensures { result ≡ in_volume first end from to }
{
    (first <= from) & ((from <= to) & (to < end))
}

fn none_below(earlier: Totals, later: Totals) -> bool
    ensures { result ≡ none_below earlier later }
{
    (earlier.leaps <= later.leaps) & ((earlier.news <= later.news) & (earlier.fulls <= later.fulls))
}

// From the block of the span's last year alone.
fn from_last(last: &[u8]) -> Result<(u64, u64), Refusal>
    requires { length last.now ≡ 512 }
    ensures { result ≡ from_last last.now }
{
    if check::right_check(last) {
        let totals = blocks::totals_in(last);
        Ok((totals.news, totals.fulls))
    } else {
        Err(Refusal::Block)
    }
}

// From that and the block of the year before the span.
fn from_both(before: &[u8], last: &[u8]) -> Result<(u64, u64), Refusal>
    requires { (length before.now ≡ 512) × (length last.now ≡ 512) }
    ensures { result ≡ from_both before.now last.now }
{
    let earlier = blocks::totals_in(before);
    let later = blocks::totals_in(last);
    if check::right_check(before) & (check::right_check(last) & none_below(earlier, later)) {
        let news = later.news - earlier.news;
        let fulls = later.fulls - earlier.fulls;
        Ok((news, fulls))
    } else {
        Err(Refusal::Block)
    }
}

// The marked moons from one year to another. Beyond the volume's length and its first four bytes only the one or two blocks are looked at.
pub fn marked(volume: &[u8], from: u64, to: u64) -> Result<(u64, u64), Refusal>
    ensures { result ≡ marked_answer volume.now from to }
{
    if !volumes::whole_blocks(volume.len()) {
        return Err(Refusal::Volume);
    }
    let first = blocks::bytes::u32_at(volume, 0);
    let end = first + (volume.len() / BLOCK) as u64;
    if !in_volume(first, end, from, to) {
        return Err(Refusal::Span);
    }
    let last = BLOCK * (to - first) as usize;
    let last_end = last + BLOCK;
    if from == first {
        return from_last(&volume[last..last_end]);
    }
    let before = BLOCK * (from - 1 - first) as usize;
    let before_end = before + BLOCK;
    from_both(&volume[before..before_end], &volume[last..last_end])
}
