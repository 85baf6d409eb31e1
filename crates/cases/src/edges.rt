// Refusals and edges: the first and last values that each question answers, and the first that it refuses.
use crate::{lists, mending_edges, name_edges, planet_edges, questions, reign_edges, volume_edges};
use std::io;

pub fn ask_edges(rt: &impl Print) -> io::Result<()> {
    ask_years_and_places(rt)?;
    ask_days(rt)?;
    ask_dates(rt)?;
    ask_carries(rt)?;
    ask_steps(rt)?;
    ask_forged(rt)?;
    lists::ask_fills(rt)?;
    ask_sky(rt)?;
    ask_cuts(rt)?;
    planet_edges::ask_planets(rt)?;
    name_edges::ask_names(rt)?;
    volume_edges::ask_volumes(rt)?;
    reign_edges::ask_reigns(rt)?;
    mending_edges::ask_mending(rt)
}

fn ask_years_and_places(rt: &impl Print) -> io::Result<()> {
    questions::ask_head(rt, 0)?;
    questions::ask_head(rt, 1011601)?;
    questions::ask_head(rt, u64::MAX)?;
    questions::ask_row(rt, 0, 0)?;
    questions::ask_row(rt, 1, 12)?;
    questions::ask_row(rt, 3, 13)?;
    questions::ask_row(rt, 1011601, 99)?;
    questions::ask_row(rt, 1, u64::MAX)
}

fn ask_days(rt: &impl Print) -> io::Result<()> {
    questions::ask_day(rt, 1, 0, 29)?;
    questions::ask_day(rt, 1, 0, 30)?;
    questions::ask_day(rt, 1, 0, 0)?;
    questions::ask_day(rt, 1, 1, 30)?;
    questions::ask_day(rt, 1, 12, 0)?;
    questions::ask_day(rt, 0, 99, 99)?;
    questions::ask_day(rt, 1011600, 12, 30)?;
    questions::ask_day(rt, 1011600, 12, 31)?;
    questions::ask_day(rt, 293997, 0, 1)
}

fn ask_dates(rt: &impl Print) -> io::Result<()> {
    questions::ask_date(rt, 0)?;
    questions::ask_date(rt, 28)?;
    questions::ask_date(rt, 29)?;
    questions::ask_date(rt, 107380330)?;
    questions::ask_date(rt, 369481019)?;
    questions::ask_date(rt, 369481020)?;
    questions::ask_date(rt, u64::MAX)
}

fn ask_carries(rt: &impl Print) -> io::Result<()> {
    questions::ask_carry(rt, 0, 5)?;
    questions::ask_carry(rt, 5, -3)?;
    questions::ask_carry(rt, 3636238, 0)?;
    questions::ask_carry(rt, 12511798, 1)?;
    questions::ask_carry(rt, 12511799, -12511799)?;
    questions::ask_carry(rt, 12511799, 1)?;
    questions::ask_carry(rt, 0, -1)?;
    questions::ask_carry(rt, 0, i64::MAX)?;
    questions::ask_carry(rt, 12511799, i64::MIN)?;
    questions::ask_carry(rt, 2085299, 1)?;
    questions::ask_carry(rt, 2085300, -1)?;
    questions::ask_carry(rt, 4170600, 0)?;
    questions::ask_carry(rt, 3636238, -3636238)
}

fn ask_steps(rt: &impl Print) -> io::Result<()> {
    questions::ask_next(rt, 0)?;
    questions::ask_next(rt, 36)?;
    questions::ask_next(rt, 2085299)?;
    questions::ask_next(rt, 4170599)?;
    questions::ask_next(rt, 12511798)?;
    questions::ask_next(rt, 12511799)?;
    questions::ask_back(rt, 0)?;
    questions::ask_back(rt, 1)?;
    questions::ask_back(rt, 37)?;
    questions::ask_back(rt, 2085300)?;
    questions::ask_back(rt, 4170600)?;
    questions::ask_back(rt, 12511799)
}

fn ask_forged(rt: &impl Print) -> io::Result<()> {
    questions::ask_forged_fields(rt, 0, 0)?;
    questions::ask_forged_fields(rt, 12511799, 1)?;
    questions::ask_forged_fields(rt, 3636238, 0)?;
    questions::ask_forged_steps(rt, 5)
}

fn ask_sky(rt: &impl Print) -> io::Result<()> {
    questions::ask_phases(rt, 1011600, 13)?;
    questions::ask_nodes(rt, 0, 0)?;
    questions::ask_corrections(rt, 1, 12)
}

fn ask_cuts(rt: &impl Print) -> io::Result<()> {
    questions::ask_cut(rt, 1, 25, 0)?;
    questions::ask_cut(rt, 1, 24, 24)?;
    questions::ask_cut(rt, 0, 25, 99)?;
    questions::ask_cut(rt, 1, 72, 71)?;
    questions::ask_cut(rt, 1, 60, 59)?;
    questions::ask_cut(rt, 1011600, 24, 23)
}
