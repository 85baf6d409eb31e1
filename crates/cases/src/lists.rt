// A year's rows in a lent list: too short, just long enough, and longer than the year.
ghost use Rattle.std.specs.Prelude.{◌≤◌};

use calendar::MonthRow;
use lines::{Line, answers};
use std::{array, io};

// A row that no year has, by which a row that was not written is known.
fn marked(i: usize) -> MonthRow {
    MonthRow {
        lunation: (i as u64).wrapping_add(1000),
        ..MonthRow::default()
    }
}

// The lent rows as they are afterwards.
fn write_lent(rt: &impl Print, rows: &[MonthRow]) -> io::Result<()> {
    for (i, &row) in rows.iter().enumerate() {
        let line = Line::new().text(b"lent").number(i as u64);
        answers::row(line, row).write(rt)?;
    }
    Ok(())
}

fn ask_fill(rt: &impl Print, year: u64, have: usize) -> io::Result<()>
    requires { have ≤ 13 }
{
    let line = Line::new().text(b"fill").number(year).number(have as u64);
    let answer = year_list::answer_for(calendar::heads::year_head(year), have);
    line.answer(rt, answer, |line, count| line.number(count))?;
    let rows = year_list::fill_front(array::from_fn(marked), have, year);
    write_lent(rt, &rows[..have])
}

pub fn ask_fills(rt: &impl Print) -> io::Result<()> {
    ask_fill(rt, 1, 12)?;
    ask_fill(rt, 1, 13)?;
    ask_fill(rt, 3, 12)?;
    ask_fill(rt, 3, 13)?;
    ask_fill(rt, 0, 12)?;
    ask_fill(rt, 1011601, 13)?;
    ask_fill(rt, 1011600, 12)?;
    ask_fill(rt, 1011600, 13)
}
