// A whole year by value.
ghost use Rattle.std.specs.Prelude.{◌≡◌, map, length};
ghost use Rattle.mean_year.specs.Years.{places};
ghost use Rattle.mean_calendar.specs.Heads as heads;
ghost use Rattle.zhengguang.specs.Zhengguang.{zhengguang};
ghost use Rattle.zhengguang.specs.Rows.{row_fields, year_head};
ghost use Rattle.zhengguang.specs.Years.{row_at, year_rows};

use crate::heads::{head_by, mean_head};
use crate::rows::{RowFields, with_node};
use crate::{Zhengguang, ZhengguangHead, ZhengguangRow};
use mean_calendar::MeanHead;
use mean_year::PLACES;
use refusal::Refusal;
use std::array;

// Its head, or why it is refused, and its rows by place, with zeros past them.
#[derive(Clone, Copy)]
pub struct ZhengguangYear {
    pub head: Result<ZhengguangHead, Refusal>,
    pub rows: [ZhengguangRow; PLACES],
}

// The row at a place of the year with any calendar's head; zeros where there is none, which are also the row of a month of zeros.
fn row_at(year: u64, mean: Result<MeanHead, Refusal>, place: u64) -> ZhengguangRow
    requires { mean ≡ heads.year_head zhengguang year }
    ensures { result ≡ row_at year place }
{
    with_node(mean_year::month_at(Zhengguang::calendar(), year, mean, place))
}

pub fn year_by_value(year: u64) -> ZhengguangYear
    ensures { result ≡ year_rows year }
{
    let mean = mean_head(year);
    let head = head_by(year, mean);
    let rows = array::from_fn(|i| row_at(year, mean, i as u64));
    ZhengguangYear { head, rows }
}

// The rows of the year with any calendar's head, as numbers, in a lent list of thirteen.
fn write_rows(year: u64, mean: Result<MeanHead, Refusal>, rows: &mut [RowFields])
    requires { (mean ≡ heads.year_head zhengguang year) × (length rows.old ≡ places) }
    ensures { rows.new ≡ map row_fields (year_rows year).rows }
{
    for (i, place) in rows.iter_mut().enumerate() {
        let row = row_at(year, mean, i as u64);
        *place = row.fields();
    }
}

// A year with its rows as numbers in a lent array.
pub fn write_year(year: u64, rows: &mut [RowFields; PLACES]) -> Result<ZhengguangHead, Refusal>
    ensures { (result ≡ year_head year) × (rows.new ≡ map row_fields (year_rows year).rows) }
{
    let mean = mean_head(year);
    write_rows(year, mean, rows);
    head_by(year, mean)
}
