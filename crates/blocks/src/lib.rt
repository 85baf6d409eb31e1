// A year's block of an almanac volume: 512 bytes.
#![tactic(auto)]

ghost use Rattle.std.specs.Prelude.{◌≡◌, ◌+◌, ◌*◌, ◌≤◌, length};
ghost use Rattle.std.specs.Result.{result_unwrap_or};
ghost use Rattle.writing.specs.Written.{Wrote};
ghost use Rattle.calendar.specs.Heads.{year_head};
ghost use Rattle.calendar.specs.Answers.{zero_head};
ghost use Rattle.blocks.specs.Block.{head_bytes, record_bytes, records, totals_bytes, block_of, totals_in};

use calendar::{MonthRow, YearHead};
use refusal::Refusal;
use totals::Totals;

pub mod bytes;
pub mod check;

// How many bytes a block has. A block in a volume is a part of it, so it comes as a slice with a length that contracts ask for: an array would be
// copied out of it, or come from a call that can fail.
pub const BLOCK: usize = 512;

// The records of the months begin here.
const RECORDS: usize = 8;

// How many bytes a record has.
const RECORD: usize = 16;

// How many months have room.
const PLACES: usize = 13;

// The totals begin here, the zeros after them, and the check.
const TOTALS: usize = 216;

const ZEROS: usize = 228;

const CHECK: usize = 510;

// How many zeros these are.
const GAP: usize = CHECK - ZEROS;

fn put_head(out: &mut [u8], year: u64, head: YearHead)
    requires { 8 ≤ length out.old }
    ensures { Wrote out.old out.new 0 8 (head_bytes year head) }
{
    bytes::put_u32(out, 0, year);
    bytes::put_four(
        out,
        4,
        (head.months % 256) as u8,
        (head.leap % 256) as u8,
        0,
        0,
    )
}

fn put_record(out: &mut [u8], at: usize, row: MonthRow)
    requires { at + 16 ≤ length out.old }
    ensures { Wrote out.old out.new at (at + 16) (record_bytes row) }
{
    bytes::put_three(out, at, row.lunation, row.day, row.remainder.parts);
    bytes::put_four(
        out,
        at + 12,
        (row.length % 256) as u8,
        (row.number % 256) as u8,
        row.leap as u8,
        0,
    )
}

// The records of all months of the year with that head.
fn put_records(out: &mut [u8], year: u64, head: Result<YearHead, Refusal>, n: usize)
    requires { (216 ≤ length out.old) × (head ≡ year_head year) × (n ≡ (result_unwrap_or head zero_head).months) }
    ensures { Wrote out.old out.new 8 (8 + 16 * n) (records year n) }
{
    let mut elements = year_list::first_elements(head);
    for place in 0..n {
        let row = year_list::row_with(year, head, place, elements);
        put_record(out, RECORDS + RECORD * place, row);
        elements = elements.next();
    }
}

fn put_totals(out: &mut [u8], totals: Totals)
    requires { 228 ≤ length out.old }
    ensures { Wrote out.old out.new 216 228 (totals_bytes totals) }
{
    bytes::put_three(out, TOTALS, totals.leaps, totals.news, totals.fulls)
}

// The block of the year with that head, over the whole of a lent part of 512 bytes. Between byte 227 and the check all is zero and adds nothing
// to it.
pub fn fill_block(out: &mut [u8], year: u64, head: Result<YearHead, Refusal>, totals: Totals)
    requires { (length out.old ≡ 512) × (head ≡ year_head year) }
    ensures { out.new ≡ block_of year totals }
{
    let values = head.unwrap_or_default();
    let n = values.months as usize;
    put_head(out, year, values);
    put_records(out, year, head, n);
    bytes::put_zeros(out, RECORDS + RECORD * n, RECORD * (PLACES - n));
    put_totals(out, totals);
    let sum = check::check(&out[..ZEROS]);
    bytes::put_zeros(out, ZEROS, GAP);
    bytes::put_u16(out, CHECK, sum as u64);
}

// The totals that a block holds, whatever else it does.
pub fn totals_in(block: &[u8]) -> Totals
    requires { length block.now ≡ 512 }
    ensures { result ≡ totals_in block.now }
{
    Totals {
        leaps: bytes::u32_at(block, TOTALS),
        news: bytes::u32_at(block, TOTALS + 4),
        fulls: bytes::u32_at(block, TOTALS + 8),
    }
}
