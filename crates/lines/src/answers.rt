// The numbers of answers, in the order in which every line and every digest has them.
use crate::sink::Sink;
use anomaly::{Anomaly, Corrected, Corrections};
use calendar::{MonthRow, YearHead};
use lunisolar::dates::{Date, Day};
use mean_calendar::{MeanHead, MeanMonth, MeanPoint};
use moon::phases::{Phase, Phases};
use node::{Distance, Eclipse, Node, Nodes, Side};
use planets::{Conjunction, TwoConjunctions};
use refusal::Numbered;
use sun::Point;
use zhengguang::{MonthNodes, NodeDistance, ZhengguangHead, ZhengguangRow};

// Numbers in their order.
pub fn numbers<S: Sink>(sink: S, numbers: &[u64]) -> S {
    let mut fed = sink;
    for &number in numbers {
        fed = fed.number(number);
    }
    fed
}

pub fn head<S: Sink>(sink: S, head: YearHead) -> S {
    sink.number(head.before)
        .number(head.remainder)
        .number(head.months)
        .number(head.leap)
        .number(head.solstice.day)
        .number(head.solstice.remainder.parts)
}

// A row is handed to others as the numbers of its fields.
pub fn row<S: Sink>(sink: S, row: MonthRow) -> S {
    numbers(sink, &row.fields())
}

pub fn date<S: Sink>(sink: S, date: Date) -> S {
    sink.number(date.year).number(date.place).number(date.day)
}

pub fn day<S: Sink>(sink: S, day: Day) -> S {
    sink.number(day.number).number(day.sexagenary)
}

fn phase<S: Sink>(sink: S, phase: Phase) -> S {
    sink.number(phase.day)
        .number(phase.remainder.parts)
        .number(phase.quarters)
}

pub fn phases<S: Sink>(sink: S, phases: Phases) -> S {
    let at_new = phase(sink, phases.new);
    let at_first = phase(at_new, phases.first);
    let at_full = phase(at_first, phases.full);
    phase(at_full, phases.last)
}

// A new moon's distance is whole parts: no half stands beside it.
fn whole_distance<S: Sink>(sink: S, distance: Distance) -> S {
    sink.number(distance.degrees)
        .number(distance.remainder.parts)
}

fn distance<S: Sink>(sink: S, distance: Distance) -> S {
    whole_distance(sink, distance).number(distance.half)
}

fn mark<S: Sink>(sink: S, eclipse: Eclipse) -> S {
    sink.number(u64::from(eclipse.marked))
}

fn new_moon_node<S: Sink>(sink: S, node: Node, side: Side) -> S {
    let at_node = whole_distance(sink, node.distance).number(side.number());
    let marked = mark(at_node, node.eclipse);
    whole_distance(marked, node.eclipse.distance).number(node.eclipse.size)
}

fn full_moon_node<S: Sink>(sink: S, node: Node) -> S {
    let marked = mark(distance(sink, node.distance), node.eclipse);
    distance(marked, node.eclipse.distance).number(node.eclipse.size)
}

pub fn nodes<S: Sink>(sink: S, nodes: Nodes) -> S {
    full_moon_node(new_moon_node(sink, nodes.new, nodes.side), nodes.full)
}

fn anomaly<S: Sink>(sink: S, anomaly: Anomaly) -> S {
    sink.number(anomaly.day).number(anomaly.rest.parts)
}

fn moved_instant<S: Sink>(sink: S, corrected: Corrected) -> S {
    sink.signed(corrected.correction)
        .number(corrected.day)
        .number(corrected.remainder.parts)
}

// A new moon's instant is whole parts: only the full moon's halves stand beside its rest and its remainder.
pub fn corrections<S: Sink>(sink: S, corrections: Corrections) -> S {
    let new = corrections.new;
    let full = corrections.full;
    let with_new = moved_instant(anomaly(sink, new.anomaly), new);
    let with_anomaly = anomaly(with_new, full.anomaly).number(full.anomaly.half);
    moved_instant(with_anomaly, full).number(full.half)
}

pub fn point<S: Sink>(sink: S, point: Point) -> S {
    sink.number(point.day)
        .number(point.remainder.parts)
        .number(point.rest)
}

fn conjunction<S: Sink>(sink: S, conjunction: Conjunction) -> S {
    sink.number(conjunction.time.whole)
        .number(conjunction.time.remainder.parts)
        .number(conjunction.since.whole)
        .number(conjunction.since.remainder.parts)
        .number(conjunction.kind.number())
}

pub fn conjunctions<S: Sink>(sink: S, conjunctions: TwoConjunctions) -> S {
    conjunction(conjunction(sink, conjunctions.first), conjunctions.second)
}

pub fn mean_head<S: Sink>(sink: S, head: MeanHead) -> S {
    sink.number(head.before)
        .number(head.months)
        .number(head.leap)
        .number(head.solstice)
        .number(head.remainder.parts)
}

pub fn mean_month<S: Sink>(sink: S, month: MeanMonth) -> S {
    numbers(sink, &month.fields())
}

pub fn mean_point<S: Sink>(sink: S, point: MeanPoint) -> S {
    sink.number(point.day)
        .number(point.remainder.parts)
        .number(point.rest)
}

// The leap remainder stands after the months before the year, as in the Xinghe calendar's head.
pub fn zhengguang_head<S: Sink>(sink: S, head: ZhengguangHead) -> S {
    sink.number(head.mean.before)
        .number(head.remainder)
        .number(head.mean.months)
        .number(head.mean.leap)
        .number(head.mean.solstice)
        .number(head.mean.remainder.parts)
}

pub fn zhengguang_row<S: Sink>(sink: S, row: ZhengguangRow) -> S {
    numbers(sink, &row.fields())
}

fn node_distance<S: Sink>(sink: S, distance: NodeDistance) -> S {
    sink.number(distance.degrees)
        .number(distance.remainder.parts)
        .number(distance.half)
}

pub fn zhengguang_nodes<S: Sink>(sink: S, nodes: MonthNodes) -> S {
    node_distance(node_distance(sink, nodes.new), nodes.full)
}
