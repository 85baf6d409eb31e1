// The moon's node: the distance since the last node, the side of the road, and eclipses, of a lunation alone.
// Distances come in halves of a part over N, so that the full moon's are whole numbers.
#![tactic(auto)]

ghost use Rattle.std.specs.Prelude.{◌≡◌, ◌*◌, ◌<◌};
ghost use Rattle.units.specs.Xinghe.{N, M, round_months};
ghost use Rattle.node.specs.Eclipses.{distance_of, eclipse_at, eclipse_of, node_at};
ghost use Rattle.node.specs.Sides.{side_number};
ghost use Rattle.node.specs.Nodes.{nodes_of};

use units::Xinghe;
use units::remainder::DayRemainder;

pub mod marks;
pub mod passages;

// Which side of the road the moon stands on (表裏).
#[derive(Clone, Copy, Default)]
pub enum Side {
    #[default]
    AtNode,
    Outside,
    Inside,
}

impl Side {
    // As lists and lines of numbers have it. A method and not `u64::from`: `number` is the word for it in every answer (`Numbered`).
    pub fn number(self) -> u64
        ensures { result ≡ side_number self }
    {
        match self {
            Side::AtNode => 0,
            Side::Outside => 1,
            Side::Inside => 2,
        }
    }
}

// A distance in degrees, with its remainder over N and the half of a part beside it.
#[derive(Clone, Copy, Default)]
pub struct Distance {
    pub degrees: u64,
    pub remainder: DayRemainder,
    pub half: u64,
}

// Whether an eclipse is marked, its distance from the node and its size; zero where none is, as `eclipse_of` and the list handed to C have it, so that
// no use of it has an `Option` to take apart.
#[derive(Clone, Copy, Default)]
pub struct Eclipse {
    pub marked: bool,
    pub distance: Distance,
    pub size: u64,
}

// The distance since the last node (交), and the eclipse there.
#[derive(Clone, Copy, Default)]
pub struct Node {
    pub distance: Distance,
    pub eclipse: Eclipse,
}

// A month's new moon, with its side, and its full moon.
#[derive(Clone, Copy, Default)]
pub struct Nodes {
    pub new: Node,
    pub side: Side,
    pub full: Node,
}

fn distance_of(halves: u64) -> Distance
    ensures { result ≡ distance_of halves }
{
    let carried = DayRemainder { parts: 0 }.carry(halves / 2);
    Distance {
        degrees: carried.whole,
        remainder: carried.remainder,
        half: halves % 2,
    }
}

// An eclipse that many halves from the node, which are less than 15 degrees.
fn eclipse_at(halves: u64) -> Eclipse
    requires { halves < 2 * (15 * N) }
    ensures { result ≡ eclipse_at halves }
{
    let distance = distance_of(halves);
    Eclipse {
        marked: true,
        distance,
        size: 15 - distance.degrees,
    }
}

// The eclipse at a distance since the last node.
fn eclipse_of(halves: u64) -> Eclipse
    requires { halves < 2 * M }
    ensures { result ≡ eclipse_of halves }
{
    if halves <= Xinghe::P {
        return eclipse_at(halves);
    }
    if 2 * Xinghe::M - Xinghe::P <= halves {
        return eclipse_at(2 * Xinghe::M - halves);
    }
    let distance = distance_of(0);
    Eclipse {
        marked: false,
        distance,
        size: 0,
    }
}

fn node_at(halves: u64) -> Node
    requires { halves < 2 * M }
    ensures { result ≡ node_at halves }
{
    let distance = distance_of(halves);
    let eclipse = eclipse_of(halves);
    Node { distance, eclipse }
}

pub fn nodes_of(lunation: u64) -> Nodes
    requires { lunation < round_months }
    ensures { result ≡ nodes_of lunation }
{
    let passage = passages::passage_of(lunation);
    let new = node_at(2 * passage.since as u64);
    let side = passage.side(lunation);
    let full = node_at((2 * lunation + 1) * Xinghe::P % (2 * Xinghe::M));
    Nodes { new, side, full }
}
