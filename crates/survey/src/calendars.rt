// The Zhengguang and the Linde calendar: their answers, fed to a digest in the order in which the second program feeds them.
use linde::Linde;
use lines::answers;
use lines::calendars::Calendar;
use lines::digest::Digest;
use mean_calendar::MeanMonth;
use zhengguang::Zhengguang;

// With what a calendar answers of a month beside its row.
pub trait Surveyed: Calendar {
    fn feed_nodes(digest: Digest, year: u64, place: u64) -> Digest;
}

// The Linde calendar has no nodes.
impl Surveyed for Linde {
    fn feed_nodes(digest: Digest, _year: u64, _place: u64) -> Digest {
        digest
    }
}

impl Surveyed for Zhengguang {
    fn feed_nodes(digest: Digest, year: u64, place: u64) -> Digest {
        answers::zhengguang_nodes(
            digest,
            zhengguang::nodes::nodes(year, place).unwrap_or_default(),
        )
    }
}

// Every point of a cut of the year.
pub fn feed_cut<C: Calendar>(digest: Digest, year: u64, cut: u64) -> Digest {
    let mut fed = digest;
    for index in 0..cut {
        fed = answers::mean_point(fed, C::cut_point(year, cut, index).unwrap_or_default());
    }
    fed
}

// One day both ways: the date of its number, and the day of its date. The sums wrap instead of asking for a bound: no day reaches 2^28.
fn feed_day<C: Calendar>(digest: Digest, month: MeanMonth, past: u64) -> Digest {
    let date = C::date_of_day(month.day.wrapping_add(past)).unwrap_or_default();
    let day = C::day_of_date(month.year, month.place, past.wrapping_add(1)).unwrap_or_default();
    answers::day(answers::date(digest, date), day)
}

// Every day of a month.
pub fn feed_days<C: Calendar>(digest: Digest, month: MeanMonth) -> Digest {
    let mut fed = digest;
    for past in 0..month.length {
        fed = feed_day::<C>(fed, month, past);
    }
    fed
}
