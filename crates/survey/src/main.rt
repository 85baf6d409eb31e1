// The survey: counts and a digest over every number that the calendar answers, for each era and for the round, and then for the Zhengguang and
// the Linde calendar, in the lines that the independent second program writes.
#![tactic(auto)]

mod calendar_years;
mod calendars;
mod counts;
mod mended;
mod reign;
mod volume;
mod years;

use calendar_years::survey_years;
use linde::Linde;
use lines::Line;
use std::io;
use years::Survey;
use zhengguang::Zhengguang;

// The eras of the round (元).
const ERAS: u64 = 6;

fn survey_round(rt: &impl Print) -> io::Result<Survey> {
    let ganzhi = names::ganzhi::names();
    let mut round = Survey::new();
    for i in 0..ERAS {
        let era = years::survey_era(i * years::ERA_YEARS, &ganzhi);
        era.write(rt, Line::new().text(b"era").number(i + 1))?;
        round = round.add_era(era);
    }
    Ok(round)
}

fn main(rt: HostRuntime) -> io::Result<()> {
    survey_round(&rt)?.write(&rt, Line::new().text(b"round"))?;
    survey_years::<Zhengguang>().write(&rt, Line::new().text(b"zhengguang"))?;
    survey_years::<Linde>().write(&rt, Line::new().text(b"linde"))
}
