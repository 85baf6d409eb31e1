// The planets: conjunctions of the years at the edges, the stages, and what is refused.
use lines::{Line, answers};
use planets::Stage;
use refusal::Numbered;
use std::io;

fn ask_conjunctions(rt: &impl Print, year: u64, planet: u64) -> io::Result<()> {
    let line = Line::new()
        .text(b"conjunctions")
        .number(year)
        .number(planet);
    line.answer(
        rt,
        planets::conjunctions(year, planet),
        answers::conjunctions,
    )
}

fn ask_all(rt: &impl Print, year: u64) -> io::Result<()> {
    for planet in 1..=5 {
        ask_conjunctions(rt, year, planet)?;
    }
    Ok(())
}

fn with_stage(line: Line, stage: Stage) -> Line {
    line.number(stage.days)
        .number(stage.remainder.parts)
        .signed(stage.degrees)
        .number(stage.excess.parts)
        .number(stage.whole)
        .number(stage.numerator)
        .number(stage.denominator)
        .number(stage.kind.number())
        .number(stage.apparition.number())
}

// Every place of the answer: those that no stage takes are zero.
fn write_stages(rt: &impl Print, planet: u64, stages: [Stage; 14]) -> io::Result<()> {
    for (i, &stage) in stages.iter().enumerate() {
        let line = Line::new().text(b"stage").number(planet).number(i as u64);
        with_stage(line, stage).write(rt)?;
    }
    Ok(())
}

fn ask_stages(rt: &impl Print, planet: u64) -> io::Result<()> {
    let line = Line::new().text(b"stages").number(planet);
    match planets::stages(planet) {
        Ok(answer) => {
            line.number(answer.count).write(rt)?;
            write_stages(rt, planet, answer.stages)
        }
        Err(refusal) => line.refuse(rt, refusal),
    }
}

fn ask_refused(rt: &impl Print) -> io::Result<()> {
    ask_conjunctions(rt, 0, 0)?;
    ask_conjunctions(rt, 0, 1)?;
    ask_conjunctions(rt, 1, 0)?;
    ask_conjunctions(rt, 1, 6)?;
    ask_conjunctions(rt, 1011600, u64::MAX)?;
    ask_conjunctions(rt, 1011601, 1)?;
    ask_conjunctions(rt, 1011601, 6)?;
    ask_conjunctions(rt, u64::MAX, 3)
}

pub fn ask_planets(rt: &impl Print) -> io::Result<()> {
    ask_all(rt, 1)?;
    ask_all(rt, 2)?;
    ask_all(rt, 293997)?;
    ask_all(rt, 976859)?;
    ask_all(rt, 1011600)?;
    ask_refused(rt)?;
    ask_stages(rt, 1)?;
    ask_stages(rt, 2)?;
    ask_stages(rt, 3)?;
    ask_stages(rt, 4)?;
    ask_stages(rt, 5)?;
    ask_stages(rt, 0)?;
    ask_stages(rt, 6)?;
    ask_stages(rt, u64::MAX)
}
