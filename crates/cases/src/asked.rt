// What the Zhengguang and the Linde calendar are asked beside what both answer alike: rows that are carried, walked and forged, and years by value.
ghost use Rattle.std.specs.Prelude.{ℕ, ◌<◌};
ghost use Rattle.linde.specs.Linde.{lunations};
ghost use Rattle.zhengguang.specs.Zhengguang.{round_months};

use crate::zhengguang_edges;
use linde::Linde;
use lines::calendars::Calendar;
use lines::digest::Digest;
use mean_calendar::MeanMonth;
use refusal::Refusal;
use std::io;
use walking::Walked;
use zhengguang::{Zhengguang, ZhengguangRow};

pub trait Asked: Calendar {
    // How many months the calendar has.
    ghost months: { ℕ };

    // How many numbers a row has.
    const FIELDS: usize;

    // Every line begins with it, since the questions have the same names in all calendars.
    fn name() -> &'static [u8];

    // The row worked out from the origin.
    fn row_of(lunation: u64) -> Self::Row
        requires { lunation < months };

    fn carry(row: Self::Row, count: i64) -> Result<Self::Row, Refusal>;

    fn next(row: Self::Row) -> Result<Self::Row, Refusal>;

    fn back(row: Self::Row) -> Result<Self::Row, Refusal>;

    fn walk(row: Self::Row, counts: &[i64]) -> Result<Walked<Self::Row>, Refusal>;

    // The same of a row with one number changed, which neither a carry nor a walk may take.
    fn carry_forged(row: Self::Row, field: usize) -> Result<Self::Row, Refusal>;

    fn walk_forged(
        row: Self::Row,
        field: usize,
        counts: &[i64],
    ) -> Result<Walked<Self::Row>, Refusal>;

    // A year by value, as a digest.
    fn list_digest(year: u64) -> Result<Digest, Refusal>;

    // What this calendar alone is asked of a month.
    fn ask_more(rt: &impl Print, year: u64, place: u64) -> io::Result<()>;
}

// One of the numbers becomes another.
fn change(numbers: &mut [u64], field: usize) {
    if let Some(number) = numbers.get_mut(field) {
        *number = number.wrapping_add(1);
    }
}

// Every place of the list: those past the year's months are zero.
fn digest_of<C: Calendar>(head: C::Head, rows: &[C::Row]) -> Digest {
    let mut digest = C::with_head(Digest::new(), head);
    for &row in rows {
        digest = C::with_row(digest, row);
    }
    digest
}

impl Asked for Linde {
    ghost months = { lunations };

    const FIELDS: usize = mean_calendar::carries::FIELDS;

    fn name() -> &'static [u8] {
        b"linde"
    }

    fn row_of(lunation: u64) -> MeanMonth {
        mean_calendar::months::month_of(Linde::calendar(), lunation)
    }

    fn carry(row: MeanMonth, count: i64) -> Result<MeanMonth, Refusal> {
        Linde::carry(row, count)
    }

    fn next(row: MeanMonth) -> Result<MeanMonth, Refusal> {
        Linde::next(row)
    }

    fn back(row: MeanMonth) -> Result<MeanMonth, Refusal> {
        Linde::back(row)
    }

    fn walk(row: MeanMonth, counts: &[i64]) -> Result<Walked<MeanMonth>, Refusal> {
        Linde::walk(row, counts)
    }

    fn carry_forged(row: MeanMonth, field: usize) -> Result<MeanMonth, Refusal> {
        let mut numbers = row.fields();
        change(&mut numbers, field);
        Linde::carry_fields(&numbers, 0)
    }

    fn walk_forged(
        row: MeanMonth,
        field: usize,
        counts: &[i64],
    ) -> Result<Walked<MeanMonth>, Refusal> {
        let mut numbers = row.fields();
        change(&mut numbers, field);
        Linde::walk_fields(&numbers, counts)
    }

    fn list_digest(year: u64) -> Result<Digest, Refusal> {
        let list = Linde::year_by_value(year);
        Ok(digest_of::<Linde>(list.head?, &list.months))
    }

    fn ask_more(_rt: &impl Print, _year: u64, _place: u64) -> io::Result<()> {
        Ok(())
    }
}

impl Asked for Zhengguang {
    ghost months = { round_months };

    const FIELDS: usize = zhengguang::rows::FIELDS;

    fn name() -> &'static [u8] {
        b"zhengguang"
    }

    fn row_of(lunation: u64) -> ZhengguangRow {
        zhengguang::rows::row_of(lunation)
    }

    fn carry(row: ZhengguangRow, count: i64) -> Result<ZhengguangRow, Refusal> {
        row.carry(count)
    }

    fn next(row: ZhengguangRow) -> Result<ZhengguangRow, Refusal> {
        row.next()
    }

    fn back(row: ZhengguangRow) -> Result<ZhengguangRow, Refusal> {
        row.back()
    }

    fn walk(row: ZhengguangRow, counts: &[i64]) -> Result<Walked<ZhengguangRow>, Refusal> {
        zhengguang::walks::walk(row, counts)
    }

    fn carry_forged(row: ZhengguangRow, field: usize) -> Result<ZhengguangRow, Refusal> {
        let mut numbers = row.fields();
        change(&mut numbers, field);
        zhengguang::carries::carry_fields(&numbers, 0)
    }

    fn walk_forged(
        row: ZhengguangRow,
        field: usize,
        counts: &[i64],
    ) -> Result<Walked<ZhengguangRow>, Refusal> {
        let mut numbers = row.fields();
        change(&mut numbers, field);
        zhengguang::walks::walk_fields(&numbers, counts)
    }

    fn list_digest(year: u64) -> Result<Digest, Refusal> {
        let list = zhengguang::years::year_by_value(year);
        Ok(digest_of::<Zhengguang>(list.head?, &list.rows))
    }

    fn ask_more(rt: &impl Print, year: u64, place: u64) -> io::Result<()> {
        zhengguang_edges::ask_nodes_of(rt, year, place)
    }
}
