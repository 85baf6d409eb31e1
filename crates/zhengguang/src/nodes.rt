// Distances since the last node, of new and of full moons.
ghost use Rattle.std.specs.Prelude.{◌≡◌, ◌<◌};
ghost use Rattle.mean_calendar.specs.Parts.{over_day};
ghost use Rattle.zhengguang.specs.Zhengguang.{zhengguang};
ghost use Rattle.zhengguang.specs.Nodes.{since_node, distance_of, nodes_of, nodes_at};

use crate::{MonthNodes, NodeDistance, Zhengguang};
use mean_calendar::parts::{DayShare, over_day};
use refusal::Refusal;

// The distance at the new moon of a month, in degrees and remainder.
pub fn new_moon_distance(lunation: u64) -> DayShare
    requires { lunation < 16777216 }
    ensures { result ≡ over_day zhengguang (since_node lunation) }
{
    over_day(
        Zhengguang::calendar(),
        lunation * Zhengguang::P % Zhengguang::M,
    )
}

// A distance from halves of a part, so that the full moon's are whole numbers.
fn distance_of(halves: u64) -> NodeDistance
    ensures { result ≡ distance_of halves }
{
    let share = over_day(Zhengguang::calendar(), halves / 2);
    NodeDistance {
        degrees: share.whole,
        remainder: share.rest,
        half: halves % 2,
    }
}

fn nodes_of(lunation: u64) -> MonthNodes
    requires { lunation < 16777216 }
    ensures { result ≡ nodes_of lunation }
{
    let new = distance_of(2 * (lunation * Zhengguang::P % Zhengguang::M));
    let full = distance_of((2 * lunation + 1) * Zhengguang::P % (2 * Zhengguang::M));
    MonthNodes { new, full }
}

#[tactic(auto, unfolding(crate::specs::Nodes::nodes_for))]
pub fn nodes(year: u64, place: u64) -> Result<MonthNodes, Refusal>
    ensures { result ≡ nodes_at year place }
{
    let m = lunisolar::lunation_at(Zhengguang::calendar(), year, place)?;
    Ok(nodes_of(m))
}
