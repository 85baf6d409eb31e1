// The five planets: their conjunctions with the sun, of a year and the one after it, and the stages between two conjunctions.
#![tactic(auto)]

ghost use Rattle.std.specs.Prelude.{◌≡◌, ◌<◌};
ghost use Rattle.planets.specs.Stages.{zero_stage};
ghost use Rattle.planets.specs.Jobs.{conjunctions_in, conjunctions_at, stages_at, zero_stages, count_of};

use refusal::Refusal;
use units::Xinghe;
use units::remainder::{DegreeCarry, DegreeRemainder};

pub mod answers;
pub mod decode;
pub mod synodic;
pub mod table;

// Morning (晨) or evening (夕), of a conjunction or a stage; neither, where the treatise names none.
#[derive(Clone, Copy, Default)]
pub enum Apparition {
    #[default]
    Neither,
    Morning,
    Evening,
}

// A conjunction (合): the time from the year's solstice and from the origin, each in days and a remainder over D.
#[derive(Clone, Copy, Default)]
pub struct Conjunction {
    pub time: DegreeCarry,
    pub since: DegreeCarry,
    pub kind: Apparition,
}

// The next conjunction after a year's solstice, and the one after it.
#[derive(Clone, Copy, Default)]
pub struct TwoConjunctions {
    pub first: Conjunction,
    pub second: Conjunction,
}

// What a planet does during a stage; a place of the list that no stage takes is unused.
#[derive(Clone, Copy)]
pub enum StageKind {
    Unused,
    Hidden,
    Direct,
    Station,
    Retrograde,
}

// A stage: its days and its degrees (negative where the planet goes back), each with a remainder over D; the daily motion in whole degrees
// and a fraction, all 0 where none is printed; and whether the print says morning or evening.
#[derive(Clone, Copy)]
pub struct Stage {
    pub days: u64,
    pub remainder: DegreeRemainder,
    pub degrees: i64,
    pub excess: DegreeRemainder,
    pub whole: u64,
    pub numerator: u64,
    pub denominator: u64,
    pub kind: StageKind,
    pub apparition: Apparition,
}

// What a place of the list has that no stage takes. By hand and not derived, so that it is one equation with `zero_stage`.
impl Default for Stage {
    ghost is_default = { λ stage. stage ≡ zero_stage };

    fn default() -> Stage {
        Stage {
            days: 0,
            remainder: DegreeRemainder { parts: 0 },
            degrees: 0,
            excess: DegreeRemainder { parts: 0 },
            whole: 0,
            numerator: 0,
            denominator: 0,
            kind: StageKind::Unused,
            apparition: Apparition::Neither,
        }
    }
}

// How many stages a planet has, and they themselves in print order, zero from the count on.
#[derive(Clone, Copy)]
pub struct StageList {
    pub count: u64,
    pub stages: [Stage; 14],
}

// What refused stages are: none, and zero throughout.
impl Default for StageList {
    ghost is_default = { λ list. list ≡ zero_stages };

    fn default() -> StageList {
        StageList {
            count: 0,
            stages: [Stage::default(); 14],
        }
    }
}

fn conjunctions_in(y: u64, planet: u64) -> Result<TwoConjunctions, Refusal>
    requires { y < 1048576 }
    ensures { result ≡ conjunctions_in y planet }
{
    if planet < 1 {
        return Err(Refusal::Planet);
    }
    if synodic::PLANETS < planet {
        return Err(Refusal::Planet);
    }
    Ok(synodic::conjunctions_of(synodic::planet_of(planet), y))
}

#[tactic(auto, unfolding(crate::specs::Jobs::conjunctions_for))]
pub fn conjunctions(year: u64, planet: u64) -> Result<TwoConjunctions, Refusal>
    ensures { result ≡ conjunctions_at year planet }
{
    let y = Xinghe::year_at(year)?;
    conjunctions_in(y, planet)
}

// How many stages a planet has.
pub fn stage_count(planet: u64) -> Result<u64, Refusal>
    ensures { result ≡ count_of (stages_at planet) }
{
    match planet {
        1 => Ok(9),
        2 => Ok(9),
        3 => Ok(7),
        4 => Ok(14),
        5 => Ok(10),
        _ => Err(Refusal::Planet),
    }
}

pub fn stages(planet: u64) -> Result<StageList, Refusal>
    ensures { result ≡ stages_at planet }
{
    let count = stage_count(planet)?;
    let stages = decode::stages_of(table::rows_of(planet));
    Ok(StageList { count, stages })
}
