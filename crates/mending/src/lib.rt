// A scratched volume mended in place: the first year from its sound blocks, and each block that differs from what it calls for written afresh.
#![tactic(auto)]

ghost use Rattle.std.specs.Prelude.{◌≡◌, ◌&&◌, ◌||◌, not, ◌++◌, ◌+◌, ◌-◌, ◌*◌, ◌≤◌, ◌<◌, T, eqb, length, set, drop};
ghost use Rattle.reckoning.specs.Search.{pick, any, all, first_from};
ghost use Rattle.units.specs.Xinghe.{round_years};
ghost use Rattle.blocks.specs.Bytes.{same};
ghost use Rattle.volumes.specs.Volume.{is_run, block_at};
ghost use Rattle.mending.specs.FirstYear.{year_in, sound, sound_at, implied_at, implies_at};
ghost use Rattle.mending.specs.Mended.{most_blocks, mendable, differing, afresh, mend_answer, after_mend, after_notes};

use blocks::{BLOCK, bytes};
use refusal::Refusal;

// How many blocks a volume to be mended has at the most.
pub const MOST_BLOCKS: usize = 1024;

fn is_mendable(bytes: usize) -> bool
    ensures { result ≡ mendable bytes }
{
    volumes::whole_blocks(bytes) & (bytes / BLOCK <= MOST_BLOCKS)
}

// The year is tested first, since a block that names none needs no check.
fn is_sound(block: &[u8]) -> bool
    requires { length block.now ≡ 512 }
    ensures { result ≡ sound block.now }
{
    if volumes::is_year(bytes::u32_at(block, 0)) {
        blocks::check::right_check(block)
    } else {
        false
    }
}

// The year of the first block as a block at an index implies it.
fn implied_by(block: &[u8], i: u64) -> u64
    requires { length block.now ≡ 512 }
    ensures { (result ≡ year_in block.now - i) × (result < 4294967296) }
{
    let year = bytes::u32_at(block, 0);
    if i <= year { year - i } else { 0 }
}

// The same as the first sound one of n blocks implies it, 0 where none is sound.
fn implied_first(volume: &[u8], n: usize) -> u64
    requires { length volume.now ≡ 512 * n }
    ensures { (result ≡ pick (any (sound_at volume.now) n) (implied_at volume.now (first_from (sound_at volume.now) 0 n)) 0) × (result < 4294967296) }
{
    for (i, part) in (0..n as u64).zip(volume.chunks_exact(BLOCK)) {
        if is_sound(part) {
            return implied_by(part, i);
        }
    }
    0
}

// Whether a block at an index implies that first year, if it is sound. One that names its own year does in any case, and its check is not worked out.
fn implies(block: &[u8], first: u64, i: u64) -> bool
    requires { (length block.now ≡ 512) × (1 ≤ first) × (first + i ≤ round_years) }
    ensures { result ≡ not (sound block.now) || eqb (year_in block.now - i) first }
{
    if bytes::u32_at(block, 0) == first + i {
        true
    } else {
        !is_sound(block)
    }
}

fn all_imply(volume: &[u8], first: u64, n: usize) -> bool
    requires { (length volume.now ≡ 512 * n) × (1 ≤ first) × (first + n ≤ round_years + 1) }
    ensures { result ≡ all (implies_at volume.now first) n }
{
    let mut imply = true;
    for (i, part) in (0..n as u64).zip(volume.chunks_exact(BLOCK)) {
        imply = imply & implies(part, first, i);
    }
    imply
}

// Whether n blocks from a first year on are a run of the round's, and the sound ones imply it.
fn is_first(volume: &[u8], first: u64, n: usize) -> bool
    requires { (length volume.now ≡ 512 * n) × (1 ≤ n) × (n ≤ most_blocks) × (first < 4294967296) }
    ensures { result ≡ is_run first (first + n - 1) && all (implies_at volume.now first) n }
{
    if volumes::is_run(first, first + n as u64 - 1) {
        all_imply(volume, first, n)
    } else {
        false
    }
}

// A block is afterwards what its year and the first year call for. The answer is whether it was.
fn mend_block(part: &mut [u8], first: u64, year: u64) -> bool
    requires { (length part.old ≡ 512) × T (is_run first year) }
    ensures { (result ≡ same part.old (block_at first (year - first))) × (part.new ≡ block_at first (year - first)) }
{
    let own = volumes::block(first, year);
    if bytes::same_bytes(part, &own) {
        true
    } else {
        writing::put_text(part, 0, &own);
        false
    }
}

// The index of a block is noted at a place of the list unless the block was right. The answer is the next place.
fn note(list: &mut [u64], count: usize, i: u64, right: bool) -> usize
    requires { count < length list.old }
    ensures { (result ≡ pick right count (count + 1)) × (list.new ≡ pick right list.old (set list.old count i)) }
{
    if right {
        count
    } else {
        list[count] = i;
        count + 1
    }
}

fn mend_blocks(volume: &mut [u8], list: &mut [u64], first: u64, n: usize) -> usize
    requires { (length volume.old ≡ 512 * n) × (n ≤ length list.old) × (1 ≤ first) × (first + n ≤ round_years + 1) }
    ensures { (result ≡ length (differing volume.old first n)) × (volume.new ≡ afresh volume.old first n) × (list.new ≡ differing volume.old first n ++ drop result list.old) }
{
    let mut count = 0;
    // By index: of a slice that `chunks_exact_mut` went through a proof knows no element afterwards, only the length.
    for i in 0..n {
        let at = BLOCK * i;
        let end = at + BLOCK;
        let right = mend_block(&mut volume[at..end], first, first + i as u64);
        count = note(list, count, i as u64, right);
    }
    count
}

// Each block that differs from what its year and the first year call for is written afresh, and its index is stored at the front of the lent list, the
// rest of which stays. Refused, nothing is written.
pub fn mend(volume: &mut [u8], list: &mut [u64; MOST_BLOCKS]) -> Result<u64, Refusal>
    ensures { (result ≡ mend_answer volume.old) × (volume.new ≡ after_mend volume.old) × (list.new ≡ after_notes volume.old list.old) }
{
    if !is_mendable(volume.len()) {
        return Err(Refusal::Volume);
    }
    let n = volume.len() / BLOCK;
    let first = implied_first(volume, n);
    if !is_first(volume, first, n) {
        return Err(Refusal::FirstYear);
    }
    let count = mend_blocks(volume, list, first, n);
    Ok(count as u64)
}
