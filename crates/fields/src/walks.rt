// What a walk comes to, in any calendar.
ghost use Rattle.std.specs.Prelude.{◌≡◌};
ghost use Rattle.fields.specs.Walks.{totals_fields};

use walking::fields::bit;

// The sum of the answered counts, and how many were answered.
pub fn totals_fields(sum: i64, answered: usize) -> [u64; 3]
    ensures { result ≡ totals_fields sum answered }
{
    let sized = anomaly::amounts::sized_of(sum);
    let minus = bit(sized.minus);
    [minus, sized.size, answered as u64]
}
