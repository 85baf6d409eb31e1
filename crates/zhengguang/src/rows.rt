// The rows of the round's months.
ghost use Rattle.std.specs.Prelude.{◌≡◌, ◌<◌};
ghost use Rattle.zhengguang.specs.Zhengguang.{round_months};
ghost use Rattle.zhengguang.specs.Rows.{row_by, row_of, row_fields, month_row};

use crate::nodes::new_moon_distance;
use crate::{Zhengguang, ZhengguangRow};
use mean_calendar::MeanMonth;
use refusal::Refusal;

// How many numbers a row has.
pub const FIELDS: usize = 10;

pub type RowFields = [u64; FIELDS];

impl ZhengguangRow {
    // The fields as numbers, in their order.
    pub fn fields(self) -> RowFields
        ensures { result ≡ row_fields self }
    {
        let month = self.mean.fields();
        [
            month[0],
            month[1],
            month[2],
            month[3],
            month[4],
            month[5],
            month[6],
            month[7],
            self.degrees,
            self.residue.parts,
        ]
    }
}

// The row of a month.
pub fn with_node(mean: MeanMonth) -> ZhengguangRow
    requires { mean.lunation < 16777216 }
    ensures { result ≡ row_by mean }
{
    let distance = new_moon_distance(mean.lunation);
    ZhengguangRow {
        mean,
        degrees: distance.whole,
        residue: distance.rest,
    }
}

// The row worked out from the origin for a month of the round.
pub fn row_of(lunation: u64) -> ZhengguangRow
    requires { lunation < round_months }
    ensures { result ≡ row_of lunation }
{
    with_node(mean_calendar::months::month_of(Zhengguang::calendar(), lunation))
}

#[tactic(auto, unfolding(crate::specs::Rows::row_for))]
pub fn month_row(year: u64, place: u64) -> Result<ZhengguangRow, Refusal>
    ensures { result ≡ month_row year place }
{
    let k = Zhengguang::calendar();
    let month = lunisolar::lunation_at(k, year, place);
    let mean = mean_calendar::months::month_for(k, year, place, month)?;
    Ok(with_node(mean))
}
