// The cases: full answers for chosen years, then refusals and edges, of the calendar and then of the Zhengguang and the Linde calendar, in the lines that the independent second program writes.
#![tactic(auto)]

mod asked;
mod edges;
mod linde_edges;
mod lists;
mod mean_questions;
mod mending_edges;
mod name_edges;
mod planet_edges;
mod questions;
mod reign_edges;
mod volume_edges;
mod years;
mod zhengguang_edges;

use std::io;

fn main(rt: HostRuntime) -> io::Result<()> {
    years::ask_spread(&rt)?;
    years::ask_seams(&rt)?;
    years::ask_chapter(&rt)?;
    edges::ask_edges(&rt)?;
    zhengguang_edges::ask_zhengguang(&rt)?;
    linde_edges::ask_linde(&rt)
}
