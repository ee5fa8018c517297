//! Answers schedules: each line of standard input is a row of fields with a tab between, which say what
//! peers do and when a reactor takes a turn, and its answer is a line of standard output: what was done in
//! each turn.
#![tactic(auto)]

mod bytes;
mod network;
mod no_answer;
mod peer;
mod row;
mod world;

use no_answer::NoAnswer;
use row::Row;
use std::alloc::{AllocError, Global};
use std::io::{self, Write};

/// What a row answers, in fields with a tab between.
fn answer_to(alloc: Global, line: &str) -> Result<String, AllocError> {
    let mut answer = String::new(alloc);
    let answered = match Row::new(alloc) {
        Ok(mut row) => row.answer(line, &mut answer),
        Err(no_answer) => Err(no_answer),
    };
    match answered {
        Ok(()) => {}
        Err(NoAnswer::Memory) => answer.push_str("!Memory")?,
        Err(NoAnswer::Malformed) => answer.push_str("!Malformed")?,
    }
    Ok(answer)
}

/// The answers to the lines of the text.
fn answers(alloc: Global, text: &str) -> Result<String, AllocError> {
    let mut answers = String::new(alloc);
    for line in text.lines() {
        let answer = answer_to(alloc, line)?;
        answers.push_str(answer.as_str())?;
        answers.push_str("\n")?;
    }
    Ok(answers)
}

fn main(rt: HostRuntime) -> io::Result<()> {
    let text = io::read_to_string(rt.alloc(), rt.reader())?;
    let answers = answers(rt.alloc(), text.as_str())?;
    io::writer(&rt).write_all(answers.as_bytes())
}
