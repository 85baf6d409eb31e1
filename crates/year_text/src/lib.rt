// The year printer's text: which year a line of bytes asks for, and a year written into a lent buffer.
#![tactic(auto)]

pub mod reader;
pub mod writer;
