// Every question of the calendar, asked of every month and year of an era.
ghost use Rattle.std.specs.Prelude.{◌<◌};

use crate::counts::Counts;
use crate::{mended, reign, volume};
use lines::digest::Digest;
use lines::{Line, answers};
use std::io;

// The years of an era (紀).
pub const ERA_YEARS: u64 = 168600;

// What is known of the years asked so far.
#[derive(Clone, Copy)]
pub struct Survey {
    pub counts: Counts,
    pub digest: Digest,
    pub planets: Digest,
    pub volume: Digest,
    pub marked: Digest,
    pub mended: Digest,
}

impl Survey {
    pub fn new() -> Self {
        Self {
            counts: Counts::default(),
            digest: Digest::new(),
            planets: Digest::new(),
            volume: Digest::new(),
            marked: Digest::new(),
            mended: Digest::new(),
        }
    }

    // The numbers of a row's fields, the day of the sixty on which the month begins, and the stem and branch of that day.
    fn month(self, year: u64, place: u64, ganzhi: &[u8]) -> Self {
        let row = calendar::rows::month_row(year, place).unwrap_or_default();
        let phases = ephemeris::phases(year, place).unwrap_or_default();
        let nodes = ephemeris::nodes(year, place).unwrap_or_default();
        let corrections = ephemeris::corrections(year, place).unwrap_or_default();
        let first = lunisolar::sixty::sexagenary(row.day);
        let with_label = answers::row(self.digest, row)
            .feed(first)
            .feed_bytes(names::label(first, b"", ganzhi));
        let with_nodes = answers::nodes(answers::phases(with_label, phases), nodes);
        Self {
            counts: self.counts.count_month(row, nodes),
            digest: answers::corrections(with_nodes, corrections),
            ..self
        }
    }

    fn year(self, year: u64, ganzhi: &[u8]) -> Self {
        let head = calendar::heads::year_head(year).unwrap_or_default();
        let terms = feed_cut(self.digest, year, 24);
        let names = feed_cut(terms, year, 60);
        let mut survey = Self {
            counts: self.counts.count_year(head.leap),
            digest: feed_cut(names, year, 72),
            planets: feed_planets(self.planets, year),
            volume: volume::feed_block(self.volume, year),
            marked: reign::feed_marked(self.marked, year),
            mended: mended::feed_mended(self.mended, year),
        };
        for place in 0..head.months {
            survey = survey.month(year, place, ganzhi);
        }
        survey
    }

    // An era's counts added, and its digests fed, to those of the round.
    pub fn add_era(self, era: Survey) -> Self {
        Self {
            counts: self.counts.add(era.counts),
            digest: self.digest.feed_digest(era.digest),
            planets: self.planets.feed_digest(era.planets),
            volume: self.volume.feed_digest(era.volume),
            marked: self.marked.feed_digest(era.marked),
            mended: self.mended.feed_digest(era.mended),
        }
    }

    pub fn write(self, rt: &impl Print, title: Line) -> io::Result<()> {
        self.counts
            .on_line(title)
            .text(b" digest")
            .number(self.digest.value())
            .text(b" planets")
            .number(self.planets.value())
            .text(b" volume")
            .number(self.volume.value())
            .text(b" marked")
            .number(self.marked.value())
            .text(b" mended")
            .number(self.mended.value())
            .write(rt)
    }
}

// Every point of a cut of the year.
fn feed_cut(digest: Digest, year: u64, cut: u64) -> Digest {
    let mut fed = digest;
    for index in 0..cut {
        fed = answers::point(
            fed,
            ephemeris::cut_point(year, cut, index).unwrap_or_default(),
        );
    }
    fed
}

// Every planet's conjunctions of the year.
fn feed_planets(digest: Digest, year: u64) -> Digest {
    let mut fed = digest;
    for planet in 1..=5 {
        fed = answers::conjunctions(fed, planets::conjunctions(year, planet).unwrap_or_default());
    }
    fed
}

// The era that begins after so many years; its months' first days are labelled by the lent names.
pub fn survey_era(past: u64, ganzhi: &[u8]) -> Survey
    requires { past < 4294967296 }
{
    let mut survey = Survey::new();
    for i in 0..ERA_YEARS {
        survey = survey.year(past + i + 1, ganzhi);
    }
    survey
}
