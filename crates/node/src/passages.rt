// New moons past the nodes: how far since the last one, and on which side of the road.
ghost use Rattle.std.specs.Prelude.{◌≡◌, ◌*◌, ◌/◌, ◌<◌, eqb};
ghost use Rattle.units.specs.Xinghe.{M, era_months, round_months};
ghost use Rattle.node.specs.Eclipses.{distance_of};
ghost use Rattle.node.specs.Sides.{side_of};
ghost use Rattle.node.specs.Passages.{passage_of, next_passage};

use crate::{Distance, Side};
use units::Xinghe;

// The parts since the last node, and the nodes passed since the origin. The parts, below M, are held in 32 bits, in which a division is shorter.
#[derive(Clone, Copy)]
pub struct Passage {
    pub since: u32,
    pub nodes: u64,
}

pub fn passage_of(lunation: u64) -> Passage
    requires { lunation < round_months }
    ensures { result ≡ passage_of lunation }
{
    let way = lunation * Xinghe::P;
    Passage {
        since: (way % Xinghe::M) as u32,
        nodes: way / Xinghe::M,
    }
}

// Whether a month is of the second era, jiaxu.
fn in_second_era(lunation: u64) -> bool
    ensures { result ≡ eqb (lunation / era_months) 1 }
{
    (Xinghe::ERA <= lunation) & (lunation < 2 * Xinghe::ERA)
}

impl Passage {
    // The next new moon's: P more, and where that makes a whole M, a node more.
    pub fn next(self) -> Passage
        requires { (self.since < M) × (self.nodes < 4294967296) }
        ensures { result ≡ next_passage self }
    {
        let sum = self.since + Xinghe::P as u32;
        if Xinghe::M as u32 <= sum {
            Passage {
                since: sum - Xinghe::M as u32,
                nodes: self.nodes + 1,
            }
        } else {
            Passage {
                since: sum,
                nodes: self.nodes,
            }
        }
    }

    pub fn distance(self) -> Distance
        ensures { result ≡ distance_of (2 * self.since) }
    {
        crate::distance_of(2 * self.since as u64)
    }

    // The side at the new moon of that month: that of the era's head, turned once for each node passed since. The nodes passed since the origin
    // give it in every era but the second, where each side is the other one; month 0 alone is at the node.
    pub fn side(self, lunation: u64) -> Side
        requires { (lunation < round_months) × (self ≡ passage_of lunation) }
        ensures { result ≡ side_of lunation }
    {
        if self.since == 0 {
            return Side::AtNode;
        }
        let turns = self.nodes + in_second_era(lunation) as u64;
        if turns % 2 == 0 {
            Side::Outside
        } else {
            Side::Inside
        }
    }
}
