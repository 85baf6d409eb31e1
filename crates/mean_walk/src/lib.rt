// A walk in any calendar: a month carried by each of a list of signed counts in turn.
#![tactic(auto)]

ghost use Rattle.std.specs.Prelude.{◌≡◌};
ghost use Rattle.mean_calendar.specs.Carries.{genuine_fields};
ghost use Rattle.mean_walk.specs.Walked.{walk_answer_fields};

use lunisolar::Calendar;
use mean_calendar::MeanMonth;
use mean_calendar::carries::MonthFields;
use refusal::Refusal;
use walking::Walked;

// A walk from a month handed in as numbers that were tested. The number of the month alone is moved, and one month worked out at the end: by demand 3
// that is the walk which carries the month by each count.
pub fn walk_tested(
    k: Calendar,
    genuine: bool,
    start: &MonthFields,
    counts: &[i64],
) -> Result<Walked<MeanMonth>, Refusal>
    requires { genuine ≡ genuine_fields k.constants start.now }
    ensures { result ≡ walk_answer_fields k.constants start.now counts.now }
{
    if genuine {
        let end = walking::arrive(k.constants.lunations, start[0], counts);
        let row = mean_calendar::months::month_of(k, end.month);
        Ok(Walked {
            row,
            sum: end.sum,
            answered: end.answered,
        })
    } else {
        Err(Refusal::Row)
    }
}
