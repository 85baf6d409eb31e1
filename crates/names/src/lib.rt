// Day names: the label of a day of the sixty, as a part of one of two lent lists of names.
#![tactic(auto)]

ghost use Rattle.std.specs.Prelude.{◌≡◌};
ghost use Rattle.names.specs.Names.{bytes_of, whose_number, location_for, label_number, label_of};

use refusal::{Numbered, Refusal};

pub mod ganzhi;

// The bytes of a name, and of a list of sixty names.
const NAME: usize = 6;

const LIST: usize = lunisolar::sixty::SIXTY as usize * NAME;

// Whose list of names.
#[derive(Clone, Copy)]
pub enum Whose {
    Theirs,
    House,
}

// Where a name is found: in whose list, and from which byte on.
#[derive(Clone, Copy)]
pub struct NameLocation {
    pub whose: Whose,
    pub from: usize,
}

impl Whose {
    // By name and not as `u64::from`: a list is a number only where it is handed to C.
    pub fn number(self) -> u64
        ensures { result ≡ whose_number self }
    {
        match self {
            Whose::Theirs => 1,
            Whose::House => 2,
        }
    }
}

// Where the name of a day of the sixty is found, by the sizes of both lists, theirs and the house's. No byte of them is looked at.
pub fn label_location(day: u64, theirs: usize, house: usize) -> Result<NameLocation, Refusal>
    ensures { result ≡ location_for day theirs house }
{
    if day < 1 {
        return Err(Refusal::DayOfSixty);
    }
    if lunisolar::sixty::SIXTY < day {
        return Err(Refusal::DayOfSixty);
    }
    let from = NAME * (day - 1) as usize;
    if theirs == LIST {
        return Ok(NameLocation {
            whose: Whose::Theirs,
            from,
        });
    }
    if house == LIST {
        return Ok(NameLocation {
            whose: Whose::House,
            from,
        });
    }
    Err(Refusal::Names)
}

// The name of a day of the sixty, in theirs if that is a list of sixty names, else in the house's; refused, an empty part of theirs.
pub fn label<'a>(day: u64, theirs: &'a [u8], house: &'a [u8]) -> &'a [u8]
    ensures { bytes_of result ≡ label_of day (bytes_of theirs.entry) (bytes_of house.entry) }
{
    match label_location(day, theirs.len(), house.len()) {
        Ok(location) => {
            let from = location.from;
            match location.whose {
                Whose::Theirs => &theirs[from..from + NAME],
                Whose::House => &house[from..from + NAME],
            }
        }
        Err(_) => &theirs[0..0],
    }
}

// The number of that call: 0 where it answers.
pub fn label_number(day: u64, theirs: &[u8], house: &[u8]) -> u64
    ensures { result ≡ label_number day (bytes_of theirs.entry) (bytes_of house.entry) }
{
    label_location(day, theirs.len(), house.len()).number()
}
