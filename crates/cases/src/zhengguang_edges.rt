// The Zhengguang calendar: whole years, then the first and last values that each question answers, and the first that it refuses.
use crate::mean_questions as questions;
use lines::{Line, answers};
use std::io;
use zhengguang::Zhengguang;

// The first years, Xiaochang 3, and the last year of the round.
fn ask_years(rt: &impl Print) -> io::Result<()> {
    for year in [1, 2, 3, 167756, 363600] {
        questions::ask_year::<Zhengguang>(rt, year)?;
    }
    Ok(())
}

fn ask_years_and_places(rt: &impl Print) -> io::Result<()> {
    questions::ask_head::<Zhengguang>(rt, 0)?;
    questions::ask_head::<Zhengguang>(rt, 363601)?;
    questions::ask_head::<Zhengguang>(rt, u64::MAX)?;
    questions::ask_row::<Zhengguang>(rt, 0, 0)?;
    questions::ask_row::<Zhengguang>(rt, 1, 12)?;
    questions::ask_row::<Zhengguang>(rt, 363601, 99)?;
    questions::ask_row::<Zhengguang>(rt, 1, u64::MAX)
}

pub fn ask_nodes_of(rt: &impl Print, year: u64, place: u64) -> io::Result<()> {
    let line = Line::new()
        .text(b"zhengguang nodes")
        .number(year)
        .number(place);
    line.answer(
        rt,
        zhengguang::nodes::nodes(year, place),
        answers::zhengguang_nodes,
    )
}

// What is refused, and the first month of each era.
fn ask_nodes(rt: &impl Print) -> io::Result<()> {
    ask_nodes_of(rt, 0, 0)?;
    ask_nodes_of(rt, 1, 12)?;
    ask_nodes_of(rt, 1, 0)?;
    ask_nodes_of(rt, 60601, 0)?;
    ask_nodes_of(rt, 121201, 0)?;
    ask_nodes_of(rt, 181801, 0)?;
    ask_nodes_of(rt, 242401, 0)?;
    ask_nodes_of(rt, 303001, 0)
}

fn ask_cuts(rt: &impl Print) -> io::Result<()> {
    questions::ask_cut::<Zhengguang>(rt, 0, 24, 0)?;
    questions::ask_cut::<Zhengguang>(rt, 1, 25, 0)?;
    questions::ask_cut::<Zhengguang>(rt, 1, 24, 24)?;
    questions::ask_cut::<Zhengguang>(rt, 1, 0, 0)?;
    questions::ask_cut::<Zhengguang>(rt, 363601, 0, 0)?;
    questions::ask_cut::<Zhengguang>(rt, 1, 72, u64::MAX)
}

fn ask_days(rt: &impl Print) -> io::Result<()> {
    questions::ask_day::<Zhengguang>(rt, 1, 0, 0)?;
    questions::ask_day::<Zhengguang>(rt, 1, 0, 29)?;
    questions::ask_day::<Zhengguang>(rt, 1, 0, 30)?;
    questions::ask_day::<Zhengguang>(rt, 1, 12, 0)?;
    questions::ask_day::<Zhengguang>(rt, 0, 99, 99)?;
    questions::ask_day::<Zhengguang>(rt, 363600, 12, 30)?;
    questions::ask_day::<Zhengguang>(rt, 363600, 12, 31)
}

fn ask_dates(rt: &impl Print) -> io::Result<()> {
    questions::ask_date::<Zhengguang>(rt, 0)?;
    questions::ask_date::<Zhengguang>(rt, 28)?;
    questions::ask_date::<Zhengguang>(rt, 29)?;
    questions::ask_date::<Zhengguang>(rt, 61271432)?;
    questions::ask_date::<Zhengguang>(rt, 132802619)?;
    questions::ask_date::<Zhengguang>(rt, 132802620)?;
    questions::ask_date::<Zhengguang>(rt, u64::MAX)
}

fn ask_carries(rt: &impl Print) -> io::Result<()> {
    questions::ask_carry::<Zhengguang>(rt, 0, 5)?;
    questions::ask_carry::<Zhengguang>(rt, 5, -3)?;
    questions::ask_carry::<Zhengguang>(rt, 2074846, 0)?;
    questions::ask_carry::<Zhengguang>(rt, 4497118, 1)?;
    questions::ask_carry::<Zhengguang>(rt, 4497119, -4497119)?;
    questions::ask_carry::<Zhengguang>(rt, 4497119, 1)?;
    questions::ask_carry::<Zhengguang>(rt, 0, -1)?;
    questions::ask_carry::<Zhengguang>(rt, 0, i64::MAX)?;
    questions::ask_carry::<Zhengguang>(rt, 4497119, i64::MIN)
}

fn ask_steps(rt: &impl Print) -> io::Result<()> {
    questions::ask_next::<Zhengguang>(rt, 0)?;
    questions::ask_next::<Zhengguang>(rt, 4497119)?;
    questions::ask_back::<Zhengguang>(rt, 1)?;
    questions::ask_back::<Zhengguang>(rt, 0)
}

// The walk's second, third and last counts are refused; the one before the last reaches the last month.
fn ask_walks(rt: &impl Print) -> io::Result<()> {
    let counts = [3, -20, i64::MIN, 7, 0, 4497104, 1];
    questions::ask_walk::<Zhengguang>(rt, 5, &counts)?;
    questions::ask_forged_walk::<Zhengguang>(rt, 5, &counts)
}

fn ask_lists(rt: &impl Print) -> io::Result<()> {
    questions::ask_list::<Zhengguang>(rt, 3)?;
    questions::ask_list::<Zhengguang>(rt, 363600)?;
    questions::ask_list::<Zhengguang>(rt, 0)
}

pub fn ask_zhengguang(rt: &impl Print) -> io::Result<()> {
    ask_years(rt)?;
    ask_years_and_places(rt)?;
    ask_nodes(rt)?;
    ask_cuts(rt)?;
    ask_days(rt)?;
    ask_dates(rt)?;
    ask_carries(rt)?;
    ask_steps(rt)?;
    questions::ask_forged_fields::<Zhengguang>(rt, 2074846)?;
    ask_walks(rt)?;
    ask_lists(rt)
}
