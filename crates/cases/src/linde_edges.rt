// The Linde calendar: whole years, then the first and last values that each question answers, and the first that it refuses.
use crate::mean_questions as questions;
use linde::Linde;
use std::io;

// The first years, Linde 1, and the last year.
fn ask_years(rt: &impl Print) -> io::Result<()> {
    for year in [0, 1, 2, 269880, 300000] {
        questions::ask_year::<Linde>(rt, year)?;
    }
    Ok(())
}

fn ask_years_and_places(rt: &impl Print) -> io::Result<()> {
    questions::ask_head::<Linde>(rt, 300001)?;
    questions::ask_head::<Linde>(rt, u64::MAX)?;
    questions::ask_row::<Linde>(rt, 0, 12)?;
    questions::ask_row::<Linde>(rt, 300001, 99)?;
    questions::ask_row::<Linde>(rt, 0, u64::MAX)
}

fn ask_cuts(rt: &impl Print) -> io::Result<()> {
    questions::ask_cut::<Linde>(rt, 300001, 24, 0)?;
    questions::ask_cut::<Linde>(rt, 0, 25, 0)?;
    questions::ask_cut::<Linde>(rt, 0, 24, 24)?;
    questions::ask_cut::<Linde>(rt, 0, 0, 0)?;
    questions::ask_cut::<Linde>(rt, 300001, 0, 0)?;
    questions::ask_cut::<Linde>(rt, 0, 72, u64::MAX)
}

fn ask_days(rt: &impl Print) -> io::Result<()> {
    questions::ask_day::<Linde>(rt, 0, 0, 0)?;
    questions::ask_day::<Linde>(rt, 0, 0, 29)?;
    questions::ask_day::<Linde>(rt, 0, 0, 30)?;
    questions::ask_day::<Linde>(rt, 0, 12, 0)?;
    questions::ask_day::<Linde>(rt, 300001, 99, 99)?;
    questions::ask_day::<Linde>(rt, 300000, 11, 29)?;
    questions::ask_day::<Linde>(rt, 300000, 11, 30)?;
    questions::ask_day::<Linde>(rt, 300000, 11, 31)
}

fn ask_dates(rt: &impl Print) -> io::Result<()> {
    questions::ask_date::<Linde>(rt, 0)?;
    questions::ask_date::<Linde>(rt, 28)?;
    questions::ask_date::<Linde>(rt, 29)?;
    questions::ask_date::<Linde>(rt, 98572246)?;
    questions::ask_date::<Linde>(rt, 109573781)?;
    questions::ask_date::<Linde>(rt, 109573782)?;
    questions::ask_date::<Linde>(rt, u64::MAX)
}

fn ask_carries(rt: &impl Print) -> io::Result<()> {
    questions::ask_carry::<Linde>(rt, 0, 5)?;
    questions::ask_carry::<Linde>(rt, 5, -3)?;
    questions::ask_carry::<Linde>(rt, 3337970, 0)?;
    questions::ask_carry::<Linde>(rt, 3710515, 1)?;
    questions::ask_carry::<Linde>(rt, 3710516, -3710516)?;
    questions::ask_carry::<Linde>(rt, 3710516, 1)?;
    questions::ask_carry::<Linde>(rt, 0, -1)?;
    questions::ask_carry::<Linde>(rt, 0, i64::MAX)?;
    questions::ask_carry::<Linde>(rt, 3710516, i64::MIN)
}

fn ask_steps(rt: &impl Print) -> io::Result<()> {
    questions::ask_next::<Linde>(rt, 0)?;
    questions::ask_next::<Linde>(rt, 3710516)?;
    questions::ask_back::<Linde>(rt, 1)?;
    questions::ask_back::<Linde>(rt, 0)
}

// The walk's second, third and last counts are refused; the one before the last reaches the last month.
fn ask_walks(rt: &impl Print) -> io::Result<()> {
    let counts = [3, -20, i64::MIN, 7, 0, 3710501, 1];
    questions::ask_walk::<Linde>(rt, 5, &counts)?;
    questions::ask_forged_walk::<Linde>(rt, 5, &counts)
}

fn ask_lists(rt: &impl Print) -> io::Result<()> {
    questions::ask_list::<Linde>(rt, 2)?;
    questions::ask_list::<Linde>(rt, 300000)?;
    questions::ask_list::<Linde>(rt, 300001)
}

pub fn ask_linde(rt: &impl Print) -> io::Result<()> {
    ask_years(rt)?;
    ask_years_and_places(rt)?;
    ask_cuts(rt)?;
    ask_days(rt)?;
    ask_dates(rt)?;
    ask_carries(rt)?;
    ask_steps(rt)?;
    questions::ask_forged_fields::<Linde>(rt, 3337970)?;
    ask_walks(rt)?;
    ask_lists(rt)
}
