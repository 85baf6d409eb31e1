// A row carried by a signed count of months. Alike in each calendar: over a trait, its size, rows, test and laws as members and a type for the Xinghe
// beside its rows would take more lines than these functions and `walk_fields` have.
ghost use Rattle.std.specs.Prelude.{◌≡◌, pos, negsuc};
ghost use Rattle.zhengguang.specs.Carries.{carried, genuine_fields, carried_fields};

use crate::rows::{RowFields, row_of};
use crate::{Zhengguang, ZhengguangRow};
use refusal::Refusal;
use walking::fields::same_fields;

// Whether a row is that of the month of the round that it names.
pub fn is_genuine(fields: &RowFields) -> bool
    ensures { result ≡ genuine_fields fields.now }
{
    let m = fields[0];
    if Zhengguang::MONTHS <= m {
        return false;
    }
    let own = row_of(m).fields();
    same_fields(fields, &own)
}

// The row so many months on, or back, of a row handed in as numbers.
pub fn carry_fields(fields: &RowFields, count: i64) -> Result<ZhengguangRow, Refusal>
    ensures { result ≡ carried_fields fields.now count }
{
    let genuine = is_genuine(fields);
    let m = walking::land(Zhengguang::MONTHS, genuine, fields[0], count)?;
    Ok(row_of(m))
}

impl ZhengguangRow {
    // The row so many months on, or back.
    pub fn carry(self, count: i64) -> Result<ZhengguangRow, Refusal>
        ensures { result ≡ carried self count }
    {
        let fields = self.fields();
        carry_fields(&fields, count)
    }

    pub fn next(self) -> Result<ZhengguangRow, Refusal>
        ensures { result ≡ carried self (pos 1) }
    {
        self.carry(1)
    }

    pub fn back(self) -> Result<ZhengguangRow, Refusal>
        ensures { result ≡ carried self (negsuc 0) }
    {
        self.carry(-1)
    }
}
