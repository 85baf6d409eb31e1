// What the volume programs read and print: a line with a span of years, and a line with a volume's years.
#![tactic(auto)]

pub mod reader;
pub mod writer;
