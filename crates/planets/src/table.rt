// Each planet's stages, in print order, with room for the longest list. A row has the stage's ten numbers: days, their remainder, 1 where
// it goes back, degrees, their remainder, daily motion as whole degrees, numerator and denominator, the number of its kind, that of morning
// or evening. The rows are what C is handed, so kinds stand as numbers here and `decode` makes
// stages of them. Each planet has a function of its own, since a constant is held to the treatise's list by the contract beside it.
ghost use Rattle.std.specs.Prelude.{◌≡◌, map};
ghost use Rattle.planets.specs.Stages.{jupiter_stages, mars_stages, saturn_stages, venus_stages, mercury_stages, in_room};
ghost use Rattle.planets.specs.Answers.{stage_fields};
ghost use Rattle.planets.specs.Jobs.{shown_stages};

const UNUSED: [u64; 10] = [0; 10];

const JUPITER: [[u64; 10]; 14] = [
    [16, 6804, 0, 2, 13175, 0, 0, 0, 1, 1],
    [58, 0, 0, 11, 0, 0, 11, 58, 2, 1],
    [58, 0, 0, 9, 0, 0, 9, 58, 2, 0],
    [25, 0, 0, 0, 0, 0, 0, 0, 3, 0],
    [84, 0, 1, 12, 0, 0, 1, 7, 4, 0],
    [25, 0, 0, 0, 0, 0, 0, 0, 3, 0],
    [58, 0, 0, 9, 0, 0, 9, 58, 2, 0],
    [58, 0, 0, 11, 0, 0, 11, 58, 2, 0],
    [16, 6804, 0, 2, 13176, 0, 0, 0, 1, 2],
    UNUSED,
    UNUSED,
    UNUSED,
    UNUSED,
    UNUSED,
];

fn jupiter_rows() -> [[u64; 10]; 14]
    ensures { result ≡ map stage_fields (in_room jupiter_stages) }
{
    JUPITER
}

const MARS: [[u64; 10]; 14] = [
    [71, 16001, 0, 55, 13943, 0, 0, 0, 1, 1],
    [184, 0, 0, 112, 0, 0, 14, 23, 2, 1],
    [92, 0, 0, 48, 0, 0, 12, 23, 2, 0],
    [11, 0, 0, 0, 0, 0, 0, 0, 3, 0],
    [62, 0, 1, 17, 0, 0, 17, 62, 4, 0],
    [11, 0, 0, 0, 0, 0, 0, 0, 3, 0],
    [92, 0, 0, 48, 0, 0, 12, 23, 2, 0],
    [184, 0, 0, 112, 0, 0, 14, 23, 2, 0],
    [71, 16002, 0, 55, 13943, 0, 0, 0, 1, 2],
    UNUSED,
    UNUSED,
    UNUSED,
    UNUSED,
    UNUSED,
];

fn mars_rows() -> [[u64; 10]; 14]
    ensures { result ≡ map stage_fields (in_room mars_stages) }
{
    MARS
}

const SATURN: [[u64; 10]; 14] = [
    [18, 490, 0, 2, 6862, 0, 0, 0, 1, 1],
    [84, 0, 0, 7, 0, 0, 1, 12, 2, 1],
    [36, 0, 0, 0, 0, 0, 0, 0, 3, 0],
    [102, 0, 1, 6, 0, 0, 1, 17, 4, 0],
    [36, 0, 0, 0, 0, 0, 0, 0, 3, 0],
    [84, 0, 0, 7, 0, 0, 1, 12, 2, 0],
    [18, 491, 0, 2, 6862, 0, 0, 0, 1, 2],
    UNUSED,
    UNUSED,
    UNUSED,
    UNUSED,
    UNUSED,
    UNUSED,
    UNUSED,
];

fn saturn_rows() -> [[u64; 10]; 14]
    ensures { result ≡ map stage_fields (in_room saturn_stages) }
{
    SATURN
}

const VENUS: [[u64; 10]; 14] = [
    [41, 15681, 0, 51, 15681, 0, 0, 0, 1, 2],
    [91, 0, 0, 112, 0, 1, 3, 13, 2, 2],
    [91, 0, 0, 105, 0, 1, 2, 13, 2, 0],
    [45, 0, 0, 33, 0, 0, 11, 15, 2, 0],
    [8, 0, 0, 0, 0, 0, 0, 0, 3, 0],
    [9, 0, 1, 6, 0, 0, 2, 3, 4, 0],
    [6, 0, 1, 4, 0, 0, 0, 0, 1, 2],
    [6, 0, 1, 4, 0, 0, 0, 0, 1, 1],
    [9, 0, 1, 6, 0, 0, 2, 3, 4, 1],
    [8, 0, 0, 0, 0, 0, 0, 0, 3, 0],
    [45, 0, 0, 33, 0, 0, 11, 15, 2, 0],
    [91, 0, 0, 105, 0, 1, 2, 13, 2, 0],
    [91, 0, 0, 112, 0, 1, 3, 13, 2, 0],
    [41, 15681, 0, 51, 15681, 0, 0, 0, 1, 1],
];

fn venus_rows() -> [[u64; 10]; 14]
    ensures { result ≡ map stage_fields (in_room venus_stages) }
{
    VENUS
}

const MERCURY: [[u64; 10]; 14] = [
    [17, 15838, 0, 34, 15838, 0, 0, 0, 1, 2],
    [18, 0, 0, 24, 0, 1, 1, 3, 2, 2],
    [7, 0, 0, 5, 0, 0, 5, 7, 2, 0],
    [4, 0, 0, 0, 0, 0, 0, 0, 3, 0],
    [11, 0, 1, 6, 0, 0, 0, 0, 1, 2],
    [11, 0, 1, 6, 0, 0, 0, 0, 1, 1],
    [4, 0, 0, 0, 0, 0, 0, 0, 3, 1],
    [7, 0, 0, 5, 0, 0, 5, 7, 2, 0],
    [18, 0, 0, 24, 0, 1, 1, 3, 2, 0],
    [17, 15838, 0, 34, 15838, 0, 0, 0, 1, 1],
    UNUSED,
    UNUSED,
    UNUSED,
    UNUSED,
];

fn mercury_rows() -> [[u64; 10]; 14]
    ensures { result ≡ map stage_fields (in_room mercury_stages) }
{
    MERCURY
}

// The rows of a planet's stages: zeros where there is no such planet.
pub fn rows_of(planet: u64) -> [[u64; 10]; 14]
    ensures { result ≡ map stage_fields (shown_stages planet).stages }
{
    match planet {
        1 => jupiter_rows(),
        2 => mars_rows(),
        3 => saturn_rows(),
        4 => venus_rows(),
        5 => mercury_rows(),
        _ => [UNUSED; 14],
    }
}
