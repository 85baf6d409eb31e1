// Stages made of the rows of the table.
ghost use Rattle.std.specs.Prelude.{◌≡◌, map, ◌<◌, get_or};
ghost use Rattle.planets.specs.Rows.{kind_of, apparition_of, signed_degrees, stage_of, Small};

use crate::{Apparition, Stage, StageKind};
use std::array;
use units::remainder::DegreeRemainder;

// The table's numbers by name. Any number has a kind, so that this is no `TryFrom`.
fn kind_of(number: u64) -> StageKind
    ensures { result ≡ kind_of number }
{
    match number {
        1 => StageKind::Hidden,
        2 => StageKind::Direct,
        3 => StageKind::Station,
        4 => StageKind::Retrograde,
        _ => StageKind::Unused,
    }
}

fn apparition_of(number: u64) -> Apparition
    ensures { result ≡ apparition_of number }
{
    match number {
        1 => Apparition::Morning,
        2 => Apparition::Evening,
        _ => Apparition::Neither,
    }
}

fn degrees_of(back: u64, size: u64) -> i64
    requires { size < 4294967296 }
    ensures { result ≡ signed_degrees back size }
{
    if back == 1 {
        walking::difference(0, size)
    } else {
        walking::difference(size, 0)
    }
}

fn stage_of(row: [u64; 10]) -> Stage
    requires { get_or row 3 0 < 4294967296 }
    ensures { result ≡ stage_of row }
{
    let degrees = degrees_of(row[2], row[3]);
    let kind = kind_of(row[8]);
    let apparition = apparition_of(row[9]);
    Stage {
        days: row[0],
        remainder: DegreeRemainder { parts: row[1] },
        degrees,
        excess: DegreeRemainder { parts: row[4] },
        whole: row[5],
        numerator: row[6],
        denominator: row[7],
        kind,
        apparition,
    }
}

pub fn stages_of(rows: [[u64; 10]; 14]) -> [Stage; 14]
    requires { Small rows }
    ensures { result ≡ map stage_of rows }
{
    array::from_fn(|i| stage_of(rows[i]))
}
