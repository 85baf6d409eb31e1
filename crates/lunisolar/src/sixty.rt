// Day names go by sixties, in every calendar: day 0 is jiazi.
ghost use Rattle.std.specs.Prelude.{◌≡◌};
ghost use Rattle.lunisolar.specs.Sixty.{sexagenary_of};

// The days of a round of day names (六十甲子).
pub const SIXTY: u64 = 60;

// The day of the sixty, from 1.
pub fn sexagenary(day: u64) -> u64
    ensures { result ≡ sexagenary_of day }
{
    day % SIXTY + 1
}
