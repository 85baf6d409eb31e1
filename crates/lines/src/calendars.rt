// What the Zhengguang and the Linde calendar both answer, so that what asks them is written once.
use crate::answers;
use crate::sink::Sink;
use linde::Linde;
use lunisolar::Constants;
use lunisolar::dates::{Date, Day};
use mean_calendar::{MeanHead, MeanMonth, MeanPoint};
use refusal::Refusal;
use zhengguang::{Zhengguang, ZhengguangHead, ZhengguangRow};

pub trait Calendar {
    type Head: Copy + Default;

    type Row: Copy + Default;

    fn constants() -> Constants;

    fn year_head(year: u64) -> Result<Self::Head, Refusal>;

    fn month_row(year: u64, place: u64) -> Result<Self::Row, Refusal>;

    fn cut_point(year: u64, cut: u64, index: u64) -> Result<MeanPoint, Refusal>;

    fn day_of_date(year: u64, place: u64, day: u64) -> Result<Day, Refusal>;

    fn date_of_day(number: u64) -> Result<Date, Refusal>;

    // What a head and a row of both have.
    fn mean_head(head: Self::Head) -> MeanHead;

    fn mean_month(row: Self::Row) -> MeanMonth;

    // All that they have, in order.
    fn with_head<S: Sink>(sink: S, head: Self::Head) -> S;

    fn with_row<S: Sink>(sink: S, row: Self::Row) -> S;
}

impl Calendar for Linde {
    type Head = MeanHead;

    type Row = MeanMonth;

    fn constants() -> Constants {
        Linde::constants()
    }

    fn year_head(year: u64) -> Result<MeanHead, Refusal> {
        Linde::year_head(year)
    }

    fn month_row(year: u64, place: u64) -> Result<MeanMonth, Refusal> {
        Linde::month_row(year, place)
    }

    fn cut_point(year: u64, cut: u64, index: u64) -> Result<MeanPoint, Refusal> {
        Linde::cut_point(year, cut, index)
    }

    fn day_of_date(year: u64, place: u64, day: u64) -> Result<Day, Refusal> {
        Linde::day_of_date(year, place, day)
    }

    fn date_of_day(number: u64) -> Result<Date, Refusal> {
        Linde::date_of_day(number)
    }

    fn mean_head(head: MeanHead) -> MeanHead {
        head
    }

    fn mean_month(row: MeanMonth) -> MeanMonth {
        row
    }

    fn with_head<S: Sink>(sink: S, head: MeanHead) -> S {
        answers::mean_head(sink, head)
    }

    fn with_row<S: Sink>(sink: S, row: MeanMonth) -> S {
        answers::mean_month(sink, row)
    }
}

impl Calendar for Zhengguang {
    type Head = ZhengguangHead;

    type Row = ZhengguangRow;

    fn constants() -> Constants {
        Zhengguang::constants()
    }

    fn year_head(year: u64) -> Result<ZhengguangHead, Refusal> {
        zhengguang::heads::year_head(year)
    }

    fn month_row(year: u64, place: u64) -> Result<ZhengguangRow, Refusal> {
        zhengguang::rows::month_row(year, place)
    }

    fn cut_point(year: u64, cut: u64, index: u64) -> Result<MeanPoint, Refusal> {
        Zhengguang::cut_point(year, cut, index)
    }

    fn day_of_date(year: u64, place: u64, day: u64) -> Result<Day, Refusal> {
        Zhengguang::day_of_date(year, place, day)
    }

    fn date_of_day(number: u64) -> Result<Date, Refusal> {
        Zhengguang::date_of_day(number)
    }

    fn mean_head(head: ZhengguangHead) -> MeanHead {
        head.mean
    }

    fn mean_month(row: ZhengguangRow) -> MeanMonth {
        row.mean
    }

    fn with_head<S: Sink>(sink: S, head: ZhengguangHead) -> S {
        answers::zhengguang_head(sink, head)
    }

    fn with_row<S: Sink>(sink: S, row: ZhengguangRow) -> S {
        answers::zhengguang_row(sink, row)
    }
}
