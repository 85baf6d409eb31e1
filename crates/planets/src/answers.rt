// What is answered by name, as numbers.
ghost use Rattle.std.specs.Prelude.{◌≡◌};
ghost use Rattle.planets.specs.Answers.{apparition_number, stage_kind_number};

use crate::{Apparition, StageKind};

// Methods and not `u64::from`: `number` is the word for it in every answer (`Numbered`).
impl Apparition {
    pub fn number(self) -> u64
        ensures { result ≡ apparition_number self }
    {
        match self {
            Apparition::Neither => 0,
            Apparition::Morning => 1,
            Apparition::Evening => 2,
        }
    }
}

impl StageKind {
    pub fn number(self) -> u64
        ensures { result ≡ stage_kind_number self }
    {
        match self {
            StageKind::Unused => 0,
            StageKind::Hidden => 1,
            StageKind::Direct => 2,
            StageKind::Station => 3,
            StageKind::Retrograde => 4,
        }
    }
}
