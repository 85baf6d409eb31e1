// Writing a year into a lent buffer: each function writes at a place of it and answers the place after.
ghost use Rattle.std.specs.Prelude.{◌≡◌, [], ◌∷◌, ◌+◌, ◌*◌, ◌≤◌, ◌<◌, length, take, set};
ghost use Rattle.year_text.specs.Decimal.{decimal};
ghost use Rattle.year_text.specs.Lines.{line_of, year_of_line};
ghost use Rattle.writing.specs.Written.{Wrote, after_text};
ghost use Rattle.year_text.specs.Text.{field, named, mark, head_line, place_text, moon_text, month_line, row_lines, refusal_line, text_of};

use calendar::{MonthRow, YearHead};
use refusal::{Numbered, Refusal};
use writing::put_text;

fn store(out: &mut [u8], at: usize, byte: u8)
    requires { at < length out.old }
    ensures { out.new ≡ set out.old at byte }
{
    out[at] = byte;
}

fn put(out: &mut [u8], at: usize, byte: u8) -> usize
    requires { at < length out.old }
    ensures { Wrote out.old out.new at result (byte ∷ []) }
{
    store(out, at, byte);
    at + 1
}

// A number's decimal digits.
fn put_decimal(out: &mut [u8], at: usize, n: u64) -> usize
    requires { at + length (decimal n) ≤ length out.old }
    ensures { Wrote out.old out.new at result (decimal n) }
{
    let digit = (48 + n % 10) as u8;
    if n < 10 {
        return put(out, at, digit);
    }
    let last = put_decimal(out, at, n / 10);
    put(out, last, digit)
}

// A number, and a byte after it.
pub fn put_field(out: &mut [u8], at: usize, n: u64, end: u8) -> usize
    requires { at + 21 ≤ length out.old }
    ensures { Wrote out.old out.new at result (field n end) }
{
    let after = put_decimal(out, at, n);
    put(out, after, end)
}

// A word, and a number after it.
fn put_named(out: &mut [u8], at: usize, word: &[u8], n: u64) -> usize
    requires { at + length word.now + 20 ≤ length out.old }
    ensures { Wrote out.old out.new at result (named word.now n) }
{
    let after = put_text(out, at, word);
    put_decimal(out, after, n)
}

fn put_head(out: &mut [u8], at: usize, year: u64, head: YearHead) -> usize
    requires { at + 100 ≤ length out.old }
    ensures { Wrote out.old out.new at result (head_line year head) }
{
    let a = put_named(out, at, b"year ", year);
    let b = put_named(out, a, b" months ", head.months);
    let c = put_named(out, b, b" leap ", head.leap);
    put(out, c, 10)
}

// L for the leap month.
fn mark_of(leap: bool) -> u8
    ensures { result ≡ mark leap }
{
    if leap { 76 } else { 45 }
}

// A month's place, number and leap mark.
fn put_place(out: &mut [u8], at: usize, row: MonthRow) -> usize
    requires { at + 44 ≤ length out.old }
    ensures { Wrote out.old out.new at result (place_text row) }
{
    let a = put_field(out, at, row.place, 32);
    let b = put_field(out, a, row.number, 32);
    let c = put(out, b, mark_of(row.leap));
    put(out, c, 32)
}

// Its day of the sixty, remainder and length.
fn put_moon(out: &mut [u8], at: usize, row: MonthRow) -> usize
    requires { at + 63 ≤ length out.old }
    ensures { Wrote out.old out.new at result (moon_text row) }
{
    let a = put_field(out, at, lunisolar::sixty::sexagenary(row.day), 32);
    let b = put_field(out, a, row.remainder.parts, 32);
    put_field(out, b, row.length, 10)
}

fn put_row(out: &mut [u8], at: usize, row: MonthRow) -> usize
    requires { at + 107 ≤ length out.old }
    ensures { Wrote out.old out.new at result (month_line row) }
{
    let after = put_place(out, at, row);
    put_moon(out, after, row)
}

// The lines of the first so many rows.
fn put_rows(out: &mut [u8], at: usize, rows: [MonthRow; 13], count: usize) -> usize
    requires { (count ≤ 13) × (at + 107 * count ≤ length out.old) }
    ensures { Wrote out.old out.new at result (row_lines (take count rows)) }
{
    let mut end = at;
    for &row in &rows[..count] {
        end = put_row(out, end, row);
    }
    end
}

// A refusal's line.
pub fn put_refusal(out: &mut [u8], at: usize, refusal: Refusal) -> usize
    requires { at + 29 ≤ length out.old }
    ensures { Wrote out.old out.new at result (refusal_line refusal) }
{
    let end = put_text(out, at, b"refused ");
    put_field(out, end, refusal.number(), 10)
}

// A year in the printer's text, or its refusal, at the front of the buffer; the answer is its length.
pub fn render(year: u64, out: &mut [u8; 2048]) -> usize
    ensures { (result ≡ length (text_of year)) × (out.new ≡ after_text (text_of year) out.old) }
{
    let listed = year_list::year_by_value(year);
    match listed.head {
        Ok(head) => {
            let end = put_head(out, 0, year, head);
            put_rows(out, end, listed.rows, head.months as usize)
        }
        Err(e) => put_refusal(out, 0, e),
    }
}

// What the printer answers to an input.
pub fn answer(input: &[u8], out: &mut [u8; 2048]) -> usize
    ensures { (result ≡ length (text_of (year_of_line (line_of input.now)))) × (out.new ≡ after_text (text_of (year_of_line (line_of input.now))) out.old) }
{
    render(crate::reader::year_asked(input), out)
}
