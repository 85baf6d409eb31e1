// A planet's conjunctions, in parts over D: written once, over the planet's number and whether half of it is taken off.
ghost use Rattle.std.specs.Prelude.{◌≡◌, ◌<◌, T};
ghost use Rattle.reckoning.specs.Search.{pick};
ghost use Rattle.units.specs.Xinghe.{P};
ghost use Rattle.planets.specs.Conjunctions.{takes_half, less_half, kind_from, conjunction_of, turned, interval, following};
ghost use Rattle.planets.specs.Planets.{SoundPlanet, is_planet, planet_of};
ghost use Rattle.planets.specs.Answers.{shown, conjunctions_of};

use crate::{Apparition, Conjunction, TwoConjunctions};
use units::Xinghe;
use units::remainder::DegreeRemainder;

// A planet by its number (數): the parts from a conjunction to the next of the same kind, and whether half of them brings one already.
#[derive(Clone, Copy)]
pub struct Planet {
    pub period: u64,
    pub halved: bool,
}

// A planet whose number is sound, as each of the five has it.
#[derive(Clone, Copy)]
pub struct KnownPlanet {
    pub planet: Planet,
    pub ghost sound: { SoundPlanet planet },
}

// The planets are numbered from 1 to this.
pub const PLANETS: u64 = 5;

// From this one on, Venus and Mercury, they take the half off.
const HALVED_FROM: u64 = 4;

const JUPITER: u64 = 6723888;

const MARS: u64 = 13149083;

const SATURN: u64 = 6374061;

const VENUS: u64 = 9843882;

const MERCURY: u64 = 1953716;

fn choose(yes: bool, a: u64, b: u64) -> u64
    ensures { result ≡ pick yes a b }
{
    if yes { a } else { b }
}

// By choices and not by a `match`: where planets come in any order, a jump to each one's own arithmetic is guessed wrongly too often.
fn period_of(planet: u64) -> u64
    requires { T (is_planet planet) }
    ensures { result ≡ (planet_of planet).period }
{
    let outer = choose(planet == 1, JUPITER, choose(planet == 2, MARS, SATURN));
    let inner = choose(planet == 4, VENUS, MERCURY);
    choose(planet < HALVED_FROM, outer, inner)
}

pub fn planet_of(planet: u64) -> KnownPlanet
    requires { T (is_planet planet) }
    ensures { result.planet ≡ planet_of planet }
{
    KnownPlanet {
        planet: Planet {
            period: period_of(planet),
            halved: HALVED_FROM <= planet,
        },
    }
}

// A conjunction in parts: since the origin, and since the year's solstice.
#[derive(Clone, Copy)]
pub struct ConjunctionParts {
    pub instant: u64,
    pub time: u64,
    pub kind: Apparition,
}

fn turn(kind: Apparition) -> Apparition
    ensures { result ≡ turned kind }
{
    match kind {
        Apparition::Neither => Apparition::Neither,
        Apparition::Morning => Apparition::Evening,
        Apparition::Evening => Apparition::Morning,
    }
}

fn interval_of(k: Planet) -> u64
    ensures { result ≡ interval k.period k.halved }
{
    if k.halved { k.period / 2 } else { k.period }
}

// Whether half of the number is taken off what remains of it. Both are worked out, so that nothing is jumped over.
fn takes_half(k: Planet, remaining: u64) -> bool
    ensures { result ≡ takes_half k.period k.halved remaining }
{
    k.halved & (k.period / 2 <= remaining)
}

fn less_half(k: Planet, remaining: u64) -> u64
    ensures { result ≡ less_half k.period k.halved remaining }
{
    if takes_half(k, remaining) {
        remaining - k.period / 2
    } else {
        remaining
    }
}

fn kind_from(k: Planet, remaining: u64) -> Apparition
    ensures { result ≡ kind_from k.period k.halved remaining }
{
    if takes_half(k, remaining) {
        return Apparition::Morning;
    }
    if k.halved {
        return Apparition::Evening;
    }
    Apparition::Neither
}

// The conjunction of the year with y years past.
fn conjunction_of(known: KnownPlanet, y: u64) -> ConjunctionParts
    requires { y < 1048576 }
    ensures { result ≡ conjunction_of P known.planet.period known.planet.halved y }
{
    let k = known.planet;
    let solstice = y * Xinghe::P;
    let remaining = k.period - solstice % k.period;
    let time = less_half(k, remaining);
    ConjunctionParts {
        instant: solstice + time,
        time,
        kind: kind_from(k, remaining),
    }
}

// The conjunction after it.
fn following_of(known: KnownPlanet, c: ConjunctionParts) -> ConjunctionParts
    requires { (c.instant < 1152921504606846976) × (c.time < 1152921504606846976) }
    ensures { result ≡ following known.planet.period known.planet.halved c }
{
    let later = interval_of(known.planet);
    ConjunctionParts {
        instant: c.instant + later,
        time: c.time + later,
        kind: turn(c.kind),
    }
}

fn shown_of(c: ConjunctionParts) -> Conjunction
    ensures { result ≡ shown c }
{
    let time = DegreeRemainder { parts: 0 }.carry(c.time);
    let since = DegreeRemainder { parts: 0 }.carry(c.instant);
    Conjunction {
        time,
        since,
        kind: c.kind,
    }
}

pub fn conjunctions_of(known: KnownPlanet, y: u64) -> TwoConjunctions
    requires { y < 1048576 }
    ensures { result ≡ conjunctions_of known.planet y }
{
    let standing = conjunction_of(known, y);
    let first = shown_of(standing);
    let second = shown_of(following_of(known, standing));
    TwoConjunctions { first, second }
}
