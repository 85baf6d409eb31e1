// Every question of the Zhengguang or the Linde calendar, asked of every day, month and year that it has.
use crate::calendars::{Surveyed, feed_cut, feed_days};
use crate::counts::MonthCounts;
use lines::Line;
use lines::digest::Digest;
use std::io;

// What is known of the years asked so far.
#[derive(Clone, Copy)]
pub struct CalendarSurvey {
    pub counts: MonthCounts,
    pub digest: Digest,
}

impl CalendarSurvey {
    fn new() -> Self {
        Self {
            counts: MonthCounts::default(),
            digest: Digest::new(),
        }
    }

    fn month<C: Surveyed>(self, year: u64, place: u64) -> Self {
        let row = C::month_row(year, place).unwrap_or_default();
        let month = C::mean_month(row);
        let with_row = C::with_row(self.digest, row);
        let with_nodes = C::feed_nodes(with_row, year, place);
        Self {
            counts: self.counts.count_month(month.length),
            digest: feed_days::<C>(with_nodes, month),
        }
    }

    fn year<C: Surveyed>(self, year: u64) -> Self {
        let head = C::year_head(year).unwrap_or_default();
        let mean = C::mean_head(head);
        let with_head = C::with_head(self.digest, head);
        let terms = feed_cut::<C>(with_head, year, 24);
        let names = feed_cut::<C>(terms, year, 60);
        let mut survey = Self {
            counts: self.counts.count_year(mean.leap),
            digest: feed_cut::<C>(names, year, 72),
        };
        for place in 0..mean.months {
            survey = survey.month::<C>(year, place);
        }
        survey
    }

    pub fn write(self, rt: &impl Print, title: Line) -> io::Result<()> {
        self.counts
            .on_line(title)
            .text(b" digest")
            .number(self.digest.value())
            .write(rt)
    }
}

// Every year of a calendar, in order.
pub fn survey_years<C: Surveyed>() -> CalendarSurvey {
    let k = C::constants();
    let mut survey = CalendarSurvey::new();
    for past in 0..k.years {
        survey = survey.year::<C>(k.first.wrapping_add(past));
    }
    survey
}
