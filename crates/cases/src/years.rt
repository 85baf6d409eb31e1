// Full answers for chosen years.
use crate::questions;
use std::io;

// The years at the seams of the round; years in which the days of the middle terms decide, a leap place one or two before the chapter's (6,
// 28, 41, 52, 294,000) and a thirteenth month that the chapter gives to the year after (19 and 20, 1,011,285 and 1,011,286); and one that
// rounding gets wrong (11).
const SEAMS: [u64; 25] = [
    2, 3, 4, 6, 11, 19, 20, 28, 41, 52, 168600, 168601, 293997, 294000, 337200, 337201, 505800,
    505801, 674400, 674401, 843000, 843001, 1011285, 1011286, 1011600,
];

fn ask_month(rt: &impl Print, year: u64, place: u64) -> io::Result<()> {
    questions::ask_row(rt, year, place)?;
    questions::ask_phases(rt, year, place)?;
    questions::ask_nodes(rt, year, place)?;
    questions::ask_corrections(rt, year, place)
}

fn ask_months(rt: &impl Print, year: u64) -> io::Result<()> {
    let months = calendar::heads::year_head(year).unwrap_or_default().months;
    for place in 0..months {
        ask_month(rt, year, place)?;
    }
    Ok(())
}

fn ask_terms(rt: &impl Print, year: u64) -> io::Result<()> {
    for index in 0..24 {
        questions::ask_cut(rt, year, 24, index)?;
    }
    Ok(())
}

fn ask_year(rt: &impl Print, year: u64) -> io::Result<()> {
    questions::ask_head(rt, year)?;
    ask_months(rt, year)?;
    ask_terms(rt, year)
}

// 41 years at even distances over the round.
pub fn ask_spread(rt: &impl Print) -> io::Result<()> {
    for i in 0..41 {
        ask_year(rt, 1 + 25289 * i)?;
    }
    Ok(())
}

pub fn ask_seams(rt: &impl Print) -> io::Result<()> {
    for year in SEAMS {
        ask_year(rt, year)?;
    }
    Ok(())
}

// The heads of a whole chapter, so that each entry of the printed chapter is written, and of the year that begins the next.
pub fn ask_chapter(rt: &impl Print) -> io::Result<()> {
    for year in 1..=units::Xinghe::CHAPTER + 1 {
        questions::ask_head(rt, year)?;
    }
    Ok(())
}
