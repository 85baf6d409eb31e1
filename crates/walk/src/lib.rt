// A walk: a row carried by each of a list of signed counts in turn.
#![tactic(auto)]

ghost use Rattle.std.specs.Prelude.{◌≡◌};
ghost use Rattle.walk.specs.Walked.{walk_answer, walk_answer_fields};

use calendar::MonthRow;
use calendar::rows::RowFields;
use refusal::Refusal;
use units::Xinghe;
use walking::Walked;

// A walk from a row handed in as numbers. That row is tested, then the month alone is moved, and one row worked out at the end: by demand 3 that
// is the walk which carries the row by each count.
pub fn walk_fields(start: &RowFields, counts: &[i64]) -> Result<Walked<MonthRow>, Refusal>
    ensures { result ≡ walk_answer_fields start.now counts.now }
{
    if calendar::carries::is_genuine(start) {
        let end = walking::arrive(Xinghe::MONTHS, start[0], counts);
        let row = calendar::rows::row_of(end.month);
        Ok(Walked {
            row,
            sum: end.sum,
            answered: end.answered,
        })
    } else {
        Err(Refusal::Row)
    }
}

pub fn walk(start: MonthRow, counts: &[i64]) -> Result<Walked<MonthRow>, Refusal>
    ensures { result ≡ walk_answer start counts.now }
{
    let fields = start.fields();
    walk_fields(&fields, counts)
}
