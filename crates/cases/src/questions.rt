// Questions: each writes one line, what is asked and then its values or the number of its refusal.
ghost use Rattle.std.specs.Prelude.{◌<◌};
ghost use Rattle.units.specs.Xinghe.{round_months};
ghost use Rattle.calendar.specs.Rows.{field_count};

use calendar::MonthRow;
use calendar::rows::FIELDS;
use lines::{Line, answers};
use lunisolar::dates::Day;
use refusal::Refusal;
use std::io;
use units::remainder::DayRemainder;

fn asked_of_month(question: &[u8], year: u64, place: u64) -> Line {
    Line::new().text(question).number(year).number(place)
}

pub fn ask_head(rt: &impl Print, year: u64) -> io::Result<()> {
    let line = Line::new().text(b"head").number(year);
    line.answer(rt, calendar::heads::year_head(year), answers::head)
}

// A row with the day of the sixty on which its month begins.
pub fn ask_row(rt: &impl Print, year: u64, place: u64) -> io::Result<()> {
    let line = asked_of_month(b"row", year, place);
    line.answer(rt, calendar::rows::month_row(year, place), |line, row| {
        answers::row(line, row).number(lunisolar::sixty::sexagenary(row.day))
    })
}

pub fn ask_phases(rt: &impl Print, year: u64, place: u64) -> io::Result<()> {
    let line = asked_of_month(b"phases", year, place);
    line.answer(rt, ephemeris::phases(year, place), answers::phases)
}

pub fn ask_nodes(rt: &impl Print, year: u64, place: u64) -> io::Result<()> {
    let line = asked_of_month(b"nodes", year, place);
    line.answer(rt, ephemeris::nodes(year, place), answers::nodes)
}

pub fn ask_corrections(rt: &impl Print, year: u64, place: u64) -> io::Result<()> {
    let line = asked_of_month(b"corrections", year, place);
    line.answer(
        rt,
        ephemeris::corrections(year, place),
        answers::corrections,
    )
}

pub fn ask_cut(rt: &impl Print, year: u64, cut: u64, index: u64) -> io::Result<()> {
    let line = Line::new()
        .text(b"cut")
        .number(year)
        .number(cut)
        .number(index);
    line.answer(rt, ephemeris::cut_point(year, cut, index), answers::point)
}

// A day: its number, its day of the sixty, and its stem and branch.
fn with_day(line: Line, day: Day) -> Line {
    let house = names::ganzhi::names();
    answers::day(line, day)
        .byte(b' ')
        .text(names::label(day.sexagenary, b"", &house))
}

pub fn ask_day(rt: &impl Print, year: u64, place: u64, day: u64) -> io::Result<()> {
    let line = asked_of_month(b"day", year, place).number(day);
    line.answer(rt, calendar::dates::day_of_date(year, place, day), with_day)
}

pub fn ask_date(rt: &impl Print, number: u64) -> io::Result<()> {
    let line = Line::new().text(b"date").number(number);
    line.answer(rt, calendar::dates::date_of_day(number), answers::date)
}

fn with_carried(line: Line, row: MonthRow) -> Line {
    answers::row(line.text(b" ->"), row)
}

pub fn ask_carry(rt: &impl Print, lunation: u64, count: i64) -> io::Result<()>
    requires { lunation < round_months }
{
    let line = Line::new().text(b"carry").number(lunation).signed(count);
    line.answer(
        rt,
        calendar::rows::row_of(lunation).carry(count),
        with_carried,
    )
}

// The month after, and the month before.
pub fn ask_next(rt: &impl Print, lunation: u64) -> io::Result<()>
    requires { lunation < round_months }
{
    let line = Line::new().text(b"next").number(lunation);
    line.answer(rt, calendar::rows::row_of(lunation).next(), with_carried)
}

pub fn ask_back(rt: &impl Print, lunation: u64) -> io::Result<()>
    requires { lunation < round_months }
{
    let line = Line::new().text(b"back").number(lunation);
    line.answer(rt, calendar::rows::row_of(lunation).back(), with_carried)
}

fn write_forged(rt: &impl Print, line: Line, answer: Result<MonthRow, Refusal>) -> io::Result<()> {
    line.answer(rt, answer, |line, _| line.text(b" taken"))
}

// A row with one number changed, which no carry may take.
fn ask_forged(rt: &impl Print, lunation: u64, field: usize, count: i64) -> io::Result<()>
    requires { (lunation < round_months) × (field < field_count) }
{
    let mut numbers = calendar::rows::row_of(lunation).fields();
    numbers[field] = numbers[field].wrapping_add(1);
    let line = Line::new()
        .text(b"forged")
        .number(lunation)
        .number(field as u64)
        .signed(count);
    write_forged(rt, line, calendar::carries::carry_fields(&numbers, count))
}

pub fn ask_forged_fields(rt: &impl Print, lunation: u64, count: i64) -> io::Result<()>
    requires { lunation < round_months }
{
    for field in 0..FIELDS {
        ask_forged(rt, lunation, field, count)?;
    }
    Ok(())
}

// A row whose small remainder is changed, which no step may take.
fn forged_row(lunation: u64) -> MonthRow
    requires { lunation < round_months }
{
    let row = calendar::rows::row_of(lunation);
    MonthRow {
        remainder: DayRemainder {
            parts: row.remainder.parts.wrapping_add(1),
        },
        ..row
    }
}

pub fn ask_forged_steps(rt: &impl Print, lunation: u64) -> io::Result<()>
    requires { lunation < round_months }
{
    let next = Line::new().text(b"forged-next").number(lunation);
    write_forged(rt, next, forged_row(lunation).next())?;
    let back = Line::new().text(b"forged-back").number(lunation);
    write_forged(rt, back, forged_row(lunation).back())
}
