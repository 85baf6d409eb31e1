// Counts over the months and years of a calendar, or of a part of it. Sums wrap instead of asking for a bound: no count reaches 2^24.
use calendar::MonthRow;
use lines::{Line, answers};
use node::Nodes;

// What is counted in every calendar.
#[derive(Clone, Copy, Default)]
pub struct MonthCounts {
    pub months: u64,
    pub long: u64,
    // years by leap place; those without a leap month stand at 0
    pub leaps: [u64; 13],
}

// In an era, or in the round, also the eclipses marked at new moons and at full moons.
#[derive(Clone, Copy, Default)]
pub struct Counts {
    pub months: MonthCounts,
    pub new_moons: u64,
    pub full_moons: u64,
}

fn sum(a: u64, b: u64) -> u64 {
    a.wrapping_add(b)
}

impl MonthCounts {
    pub fn count_year(mut self, leap: u64) -> Self {
        if let Some(years) = self.leaps.get_mut(leap as usize) {
            *years = sum(*years, 1);
        }
        self
    }

    pub fn count_month(self, length: u64) -> Self {
        Self {
            months: sum(self.months, 1),
            long: sum(self.long, u64::from(length == 30)),
            ..self
        }
    }

    fn add(self, other: MonthCounts) -> Self {
        let mut leaps = self.leaps;
        for (years, &others) in leaps.iter_mut().zip(&other.leaps) {
            *years = sum(*years, others);
        }
        Self {
            months: sum(self.months, other.months),
            long: sum(self.long, other.long),
            leaps,
        }
    }

    // The leap places from 1: place 0 never has the leap month.
    pub fn on_line(self, title: Line) -> Line {
        let counted = title
            .text(b" months")
            .number(self.months)
            .text(b" long")
            .number(self.long)
            .text(b" leaps");
        answers::numbers(counted, &self.leaps[1..])
    }
}

impl Counts {
    pub fn count_year(self, leap: u64) -> Self {
        Self {
            months: self.months.count_year(leap),
            ..self
        }
    }

    pub fn count_month(self, row: MonthRow, nodes: Nodes) -> Self {
        Self {
            months: self.months.count_month(row.length),
            new_moons: sum(self.new_moons, u64::from(nodes.new.eclipse.marked)),
            full_moons: sum(self.full_moons, u64::from(nodes.full.eclipse.marked)),
        }
    }

    pub fn add(self, other: Counts) -> Self {
        Self {
            months: self.months.add(other.months),
            new_moons: sum(self.new_moons, other.new_moons),
            full_moons: sum(self.full_moons, other.full_moons),
        }
    }

    pub fn on_line(self, title: Line) -> Line {
        self.months
            .on_line(title)
            .text(b" new")
            .number(self.new_moons)
            .text(b" full")
            .number(self.full_moons)
    }
}
