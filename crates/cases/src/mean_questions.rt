// What the Zhengguang and the Linde calendar are asked alike: each question writes one line, what is asked and then its values or the number of its
// refusal.
ghost use Rattle.std.specs.Prelude.{◌<◌};

use crate::asked::Asked;
use lines::{Line, answers};
use mean_year::PLACES;
use refusal::Refusal;
use std::io;
use walking::Walked;

// One place more than a year may have, so that one is always refused.
const PLACES_ASKED: u64 = PLACES as u64 + 1;

fn asked<C: Asked>(question: &[u8]) -> Line {
    Line::new().text(C::name()).byte(b' ').text(question)
}

fn asked_of_month<C: Asked>(question: &[u8], year: u64, place: u64) -> Line {
    asked::<C>(question).number(year).number(place)
}

pub fn ask_head<C: Asked>(rt: &impl Print, year: u64) -> io::Result<()> {
    let line = asked::<C>(b"head").number(year);
    line.answer(rt, C::year_head(year), |line, head| {
        C::with_head(line, head)
    })
}

// A row with the day of the sixty on which its month begins.
pub fn ask_row<C: Asked>(rt: &impl Print, year: u64, place: u64) -> io::Result<()> {
    let line = asked_of_month::<C>(b"row", year, place);
    line.answer(rt, C::month_row(year, place), |line, row| {
        C::with_row(line, row).number(lunisolar::sixty::sexagenary(C::mean_month(row).day))
    })
}

pub fn ask_cut<C: Asked>(rt: &impl Print, year: u64, cut: u64, index: u64) -> io::Result<()> {
    let line = asked::<C>(b"cut").number(year).number(cut).number(index);
    line.answer(rt, C::cut_point(year, cut, index), answers::mean_point)
}

pub fn ask_day<C: Asked>(rt: &impl Print, year: u64, place: u64, day: u64) -> io::Result<()> {
    let line = asked_of_month::<C>(b"day", year, place).number(day);
    line.answer(rt, C::day_of_date(year, place, day), answers::day)
}

pub fn ask_date<C: Asked>(rt: &impl Print, number: u64) -> io::Result<()> {
    let line = asked::<C>(b"date").number(number);
    line.answer(rt, C::date_of_day(number), answers::date)
}

fn write_carried<C: Asked>(
    rt: &impl Print,
    line: Line,
    answer: Result<C::Row, Refusal>,
) -> io::Result<()> {
    line.answer(rt, answer, |line, row| {
        C::with_row(line.text(b" ->"), row)
    })
}

pub fn ask_carry<C: Asked>(rt: &impl Print, lunation: u64, count: i64) -> io::Result<()>
    requires { lunation < C.months }
{
    let line = asked::<C>(b"carry").number(lunation).signed(count);
    write_carried::<C>(rt, line, C::carry(C::row_of(lunation), count))
}

// The month after, and the month before.
pub fn ask_next<C: Asked>(rt: &impl Print, lunation: u64) -> io::Result<()>
    requires { lunation < C.months }
{
    let line = asked::<C>(b"next").number(lunation);
    write_carried::<C>(rt, line, C::next(C::row_of(lunation)))
}

pub fn ask_back<C: Asked>(rt: &impl Print, lunation: u64) -> io::Result<()>
    requires { lunation < C.months }
{
    let line = asked::<C>(b"back").number(lunation);
    write_carried::<C>(rt, line, C::back(C::row_of(lunation)))
}

// Each number of a row is changed in turn.
pub fn ask_forged_fields<C: Asked>(rt: &impl Print, lunation: u64) -> io::Result<()>
    requires { lunation < C.months }
{
    for field in 0..C::FIELDS {
        let line = asked::<C>(b"forged").number(lunation).number(field as u64);
        write_carried::<C>(rt, line, C::carry_forged(C::row_of(lunation), field))?;
    }
    Ok(())
}

fn write_walk<C: Asked>(
    rt: &impl Print,
    line: Line,
    answer: Result<Walked<C::Row>, Refusal>,
) -> io::Result<()> {
    line.answer(rt, answer, |line, end| {
        C::with_row(line.text(b" ->"), end.row)
            .signed(end.sum)
            .number(end.answered as u64)
    })
}

pub fn ask_walk<C: Asked>(rt: &impl Print, lunation: u64, counts: &[i64]) -> io::Result<()>
    requires { lunation < C.months }
{
    let line = asked::<C>(b"walk").number(lunation);
    write_walk::<C>(rt, line, C::walk(C::row_of(lunation), counts))
}

// The small remainder is changed.
pub fn ask_forged_walk<C: Asked>(rt: &impl Print, lunation: u64, counts: &[i64]) -> io::Result<()>
    requires { lunation < C.months }
{
    let line = asked::<C>(b"walk forged");
    write_walk::<C>(rt, line, C::walk_forged(C::row_of(lunation), 6, counts))
}

// A year by value is written as a digest: its numbers are written by the questions for its head and rows.
pub fn ask_list<C: Asked>(rt: &impl Print, year: u64) -> io::Result<()> {
    let line = asked::<C>(b"list").number(year);
    line.answer(rt, C::list_digest(year), |line, digest| {
        line.number(digest.value())
    })
}

// A whole year: its head, each place that a year may have and one past them, and the points at both ends of its cuts.
pub fn ask_year<C: Asked>(rt: &impl Print, year: u64) -> io::Result<()> {
    ask_head::<C>(rt, year)?;
    for place in 0..PLACES_ASKED {
        ask_row::<C>(rt, year, place)?;
        C::ask_more(rt, year, place)?;
        ask_day::<C>(rt, year, place, 30)?;
    }
    ask_cut::<C>(rt, year, 24, 0)?;
    ask_cut::<C>(rt, year, 24, 23)?;
    ask_cut::<C>(rt, year, 60, 59)?;
    ask_cut::<C>(rt, year, 72, 71)
}
