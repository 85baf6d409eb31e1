// How many eclipses are marked in all months before one.
ghost use Rattle.std.specs.Prelude.{◌≡◌, ◌≤◌};
ghost use Rattle.units.specs.Xinghe.{round_months};
ghost use Rattle.node.specs.Marks.{new_moons_marked, full_moons_marked};

use units::Xinghe;

// Each node marks the new moon nearest to it, so that those of m months are the nodes before the middle between the new moons of month m - 1 and
// month m.
pub fn new_moons_marked(lunation: u64) -> u64
    requires { lunation ≤ round_months }
    ensures { result ≡ new_moons_marked lunation }
{
    (2 * lunation * Xinghe::P + (2 * Xinghe::M - 1 - Xinghe::P)) / (2 * Xinghe::M)
}

// And the full moon nearest to it: the nodes before the new moon of month m.
pub fn full_moons_marked(lunation: u64) -> u64
    requires { lunation ≤ round_months }
    ensures { result ≡ full_moons_marked lunation }
{
    (lunation * Xinghe::P + (Xinghe::M - 1)) / Xinghe::M
}
