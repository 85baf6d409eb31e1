// Day names: every day of the sixty from either list, then lists of lengths at the edge and what is refused.
use lines::Line;
use std::{array, io};

// One byte more than a list of sixty names has.
const LENT: usize = 361;

type Lent = [u8; LENT];

// Signs from ! to y that go round by 89, so that no name is like another.
fn their_names() -> Lent {
    array::from_fn(|i| b'!' + (i % 89) as u8)
}

// The stem and branch names, and what stands after them.
fn house_names() -> Lent {
    let mut lent = [b'.'; LENT];
    lent[..360].copy_from_slice(&names::ganzhi::names());
    lent
}

fn ask_label(rt: &impl Print, day: u64, theirs: &[u8], house: &[u8]) -> io::Result<()> {
    let line = Line::new()
        .text(b"label")
        .number(day)
        .number(theirs.len() as u64)
        .number(house.len() as u64);
    let name = names::label(day, theirs, house);
    let number = names::label_number(day, theirs, house);
    if number == 0 {
        line.byte(b' ').text(name).write(rt)
    } else {
        // the name is empty then
        line.text(b" refused").number(number).text(name).write(rt)
    }
}

// The sixty days, the one before and the one after.
fn ask_round(rt: &impl Print, theirs: &[u8], house: &[u8]) -> io::Result<()> {
    for day in 0..=61 {
        ask_label(rt, day, theirs, house)?;
    }
    Ok(())
}

fn ask_ends(rt: &impl Print, theirs: &[u8], house: &[u8]) -> io::Result<()> {
    ask_label(rt, 1, theirs, house)?;
    ask_label(rt, 60, theirs, house)
}

fn ask_refused(rt: &impl Print, theirs: &[u8], house: &[u8]) -> io::Result<()> {
    ask_label(rt, 0, theirs, house)?;
    ask_ends(rt, theirs, house)?;
    ask_label(rt, 61, theirs, house)?;
    ask_label(rt, u64::MAX, theirs, house)
}

pub fn ask_names(rt: &impl Print) -> io::Result<()> {
    let lent_theirs = their_names();
    let lent_house = house_names();
    let theirs = &lent_theirs[..];
    let house = &lent_house[..];
    ask_round(rt, &theirs[0..360], &house[0..360])?;
    ask_round(rt, &theirs[0..0], &house[0..360])?;
    ask_ends(rt, &theirs[0..360], &house[0..0])?;
    ask_ends(rt, &theirs[0..360], house)?;
    ask_ends(rt, &theirs[0..359], &house[0..360])?;
    ask_ends(rt, theirs, &house[0..360])?;
    ask_refused(rt, &theirs[0..0], &house[0..0])?;
    ask_refused(rt, &theirs[0..359], house)?;
    ask_refused(rt, theirs, &house[0..359])?;
    ask_label(rt, u64::MAX, &theirs[0..360], &house[0..360])
}
