// What a row takes from its new moon, of one month and then of the next by additions.
ghost use Rattle.std.specs.Prelude.{◌≡◌, ◌<◌};
ghost use Rattle.units.specs.Xinghe.{round_months};
ghost use Rattle.calendar.specs.Elements.{elements_of, next_elements, ElementsBound};

use moon::NewMoon;
use node::passages::Passage;

// A new moon's day and small remainder, where it stands to the nodes, and how far it is in the round of the anomaly.
#[derive(Clone, Copy)]
pub struct Elements {
    pub moon: NewMoon,
    pub passage: Passage,
    pub into: u32,
}

pub fn elements_of(lunation: u64) -> Elements
    requires { lunation < round_months }
    ensures { result ≡ elements_of lunation }
{
    let moon = moon::new_moon(lunation);
    let passage = node::passages::passage_of(lunation);
    let into = anomaly::into_anomaly(lunation);
    Elements {
        moon,
        passage,
        into,
    }
}

impl Elements {
    // The next new moon's.
    pub fn next(self) -> Elements
        requires { ElementsBound self }
        ensures { result ≡ next_elements self }
    {
        let moon = self.moon.next();
        let passage = self.passage.next();
        let into = anomaly::next_into(self.into);
        Elements {
            moon,
            passage,
            into,
        }
    }
}
