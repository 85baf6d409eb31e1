// A walk: a row carried by each of a list of signed counts in turn.
ghost use Rattle.std.specs.Prelude.{◌≡◌};
ghost use Rattle.zhengguang.specs.Carries.{walk_answer, walk_answer_fields};

use crate::carries::is_genuine;
use crate::rows::{RowFields, row_of};
use crate::{Zhengguang, ZhengguangRow};
use refusal::Refusal;
use walking::Walked;

// A walk from a row handed in as numbers: they are tested, the month alone is moved, and one row worked out at the end.
pub fn walk_fields(start: &RowFields, counts: &[i64]) -> Result<Walked<ZhengguangRow>, Refusal>
    ensures { result ≡ walk_answer_fields start.now counts.now }
{
    if is_genuine(start) {
        let end = walking::arrive(Zhengguang::MONTHS, start[0], counts);
        let row = row_of(end.month);
        Ok(Walked {
            row,
            sum: end.sum,
            answered: end.answered,
        })
    } else {
        Err(Refusal::Row)
    }
}

pub fn walk(start: ZhengguangRow, counts: &[i64]) -> Result<Walked<ZhengguangRow>, Refusal>
    ensures { result ≡ walk_answer start counts.now }
{
    let fields = start.fields();
    walk_fields(&fields, counts)
}
