// The values of each answer as the numbers that are written to the lent array, in the order of include/xinghe.h.
#![tactic(auto)]

ghost use Rattle.std.specs.Prelude.{◌≡◌};
ghost use Rattle.fields.specs.Fields.{head_fields, day_fields, date_fields, phases_fields, nodes_fields, corrections_fields, point_fields, conjunctions_fields, location_fields};

use anomaly::Corrections;
use calendar::YearHead;
use lunisolar::dates::{Date, Day};
use moon::phases::Phases;
use names::NameLocation;
use node::Nodes;
use planets::TwoConjunctions;
use refusal::{Numbered, Refusal};
use sun::Point;
use walking::fields::bit;

pub mod calendars;
pub mod walks;

pub fn head_fields(head: YearHead) -> [u64; 6]
    ensures { result ≡ head_fields head }
{
    [
        head.before,
        head.remainder,
        head.months,
        head.leap,
        head.solstice.day,
        head.solstice.remainder.parts,
    ]
}

pub fn day_fields(day: Day) -> [u64; 2]
    ensures { result ≡ day_fields day }
{
    [day.number, day.sexagenary]
}

pub fn date_fields(date: Date) -> [u64; 3]
    ensures { result ≡ date_fields date }
{
    [date.year, date.place, date.day]
}

pub fn phases_fields(phases: Phases) -> [u64; 12]
    ensures { result ≡ phases_fields phases }
{
    [
        phases.new.day,
        phases.new.remainder.parts,
        phases.new.quarters,
        phases.first.day,
        phases.first.remainder.parts,
        phases.first.quarters,
        phases.full.day,
        phases.full.remainder.parts,
        phases.full.quarters,
        phases.last.day,
        phases.last.remainder.parts,
        phases.last.quarters,
    ]
}

pub fn nodes_fields(nodes: Nodes) -> [u64; 15]
    ensures { result ≡ nodes_fields nodes }
{
    let side = nodes.side.number();
    let new_marked = bit(nodes.new.eclipse.marked);
    let full_marked = bit(nodes.full.eclipse.marked);
    [
        nodes.new.distance.degrees,
        nodes.new.distance.remainder.parts,
        side,
        new_marked,
        nodes.new.eclipse.distance.degrees,
        nodes.new.eclipse.distance.remainder.parts,
        nodes.new.eclipse.size,
        nodes.full.distance.degrees,
        nodes.full.distance.remainder.parts,
        nodes.full.distance.half,
        full_marked,
        nodes.full.eclipse.distance.degrees,
        nodes.full.eclipse.distance.remainder.parts,
        nodes.full.eclipse.distance.half,
        nodes.full.eclipse.size,
    ]
}

pub fn corrections_fields(corrections: Corrections) -> [u64; 14]
    ensures { result ≡ corrections_fields corrections }
{
    let new_by = anomaly::amounts::sized_of(corrections.new.correction);
    let full_by = anomaly::amounts::sized_of(corrections.full.correction);
    let new_minus = bit(new_by.minus);
    let full_minus = bit(full_by.minus);
    [
        corrections.new.anomaly.day,
        corrections.new.anomaly.rest.parts,
        new_minus,
        new_by.size,
        corrections.new.day,
        corrections.new.remainder.parts,
        corrections.full.anomaly.day,
        corrections.full.anomaly.rest.parts,
        corrections.full.anomaly.half,
        full_minus,
        full_by.size,
        corrections.full.day,
        corrections.full.remainder.parts,
        corrections.full.half,
    ]
}

pub fn point_fields(point: Point) -> [u64; 3]
    ensures { result ≡ point_fields point }
{
    [point.day, point.remainder.parts, point.rest]
}

pub fn conjunctions_fields(conjunctions: TwoConjunctions) -> [u64; 10]
    ensures { result ≡ conjunctions_fields conjunctions }
{
    let first_kind = conjunctions.first.kind.number();
    let second_kind = conjunctions.second.kind.number();
    [
        conjunctions.first.time.whole,
        conjunctions.first.time.remainder.parts,
        conjunctions.first.since.whole,
        conjunctions.first.since.remainder.parts,
        first_kind,
        conjunctions.second.time.whole,
        conjunctions.second.time.remainder.parts,
        conjunctions.second.since.whole,
        conjunctions.second.since.remainder.parts,
        second_kind,
    ]
}

pub fn location_fields(answer: Result<NameLocation, Refusal>) -> [u64; 2]
    ensures { result ≡ location_fields answer }
{
    match answer {
        Ok(location) => {
            let whose = location.whose.number();
            [whose, location.from as u64]
        }
        Err(_) => [0, 0],
    }
}
