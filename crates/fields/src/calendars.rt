// The values of the Zhengguang's and the Linde's answers as numbers, in the order of include/xinghe.h.
ghost use Rattle.std.specs.Prelude.{◌≡◌};
ghost use Rattle.fields.specs.Calendars.{mean_head_fields, mean_point_fields, zhengguang_head_fields, month_nodes_fields};

use mean_calendar::{MeanHead, MeanPoint};
use zhengguang::{MonthNodes, ZhengguangHead};

pub fn mean_head_fields(head: MeanHead) -> [u64; 5]
    ensures { result ≡ mean_head_fields head }
{
    [
        head.before,
        head.months,
        head.leap,
        head.solstice,
        head.remainder.parts,
    ]
}

pub fn zhengguang_head_fields(head: ZhengguangHead) -> [u64; 6]
    ensures { result ≡ zhengguang_head_fields head }
{
    [
        head.mean.before,
        head.remainder,
        head.mean.months,
        head.mean.leap,
        head.mean.solstice,
        head.mean.remainder.parts,
    ]
}

pub fn mean_point_fields(point: MeanPoint) -> [u64; 3]
    ensures { result ≡ mean_point_fields point }
{
    [point.day, point.remainder.parts, point.rest]
}

pub fn month_nodes_fields(nodes: MonthNodes) -> [u64; 6]
    ensures { result ≡ month_nodes_fields nodes }
{
    [
        nodes.new.degrees,
        nodes.new.remainder.parts,
        nodes.new.half,
        nodes.full.degrees,
        nodes.full.remainder.parts,
        nodes.full.half,
    ]
}
