//! Answers rows: each line of standard input is a row of fields with a tab between, and its answer
//! is a line of standard output.
//!
//! A loop that goes on until it finds its end counts to `u64::MAX`, by which it is proved to end.
#![tactic(auto)]

// How rows are read: their words, their fields, and what fields stand for.
mod arguments;
mod escapes;
mod field;
mod words;

// How answers are written, and why there is none.
mod answer;
mod no_answer;
mod runs;

// Which function answers which kind of row (`kinds`), and these functions.
mod bodies;
mod combining;
mod decisions;
mod documents;
mod driven;
mod frozen;
mod functions;
mod keeper;
mod kinds;
mod linking;
mod loopback;
mod messages;
mod plain;
mod played;
mod references;
mod reopened;
mod requests;
mod server;
mod stops;
mod stored;
mod stores;
mod tripped;
mod values;
mod versions;

// What several kinds stand on: keepers, connections, files and clocks of their own.
mod calls;
mod clock;
mod connections;
mod door;
mod files;
mod front_calls;
mod keeper_rows;
mod keepers;
mod peer;
mod scripts;
mod setup;
mod tripping;

use answer::Answer;
use kinds::answer_row;
use no_answer::NoAnswer;
use std::alloc::AllocError;
use std::io::{self, Write};
use words::Words;

/// Answers the row that a line stands for; or defines a word by it.
fn answer_line(
    rt: &HostRuntime,
    words: &mut Words,
    answer: &mut Answer,
    line: &str,
) -> Result<(), NoAnswer> {
    let row = words.row(line)?;
    if let Some(definition) = row.as_str().strip_prefix("define\t") {
        words.define(definition)?;
        answer.push_word("defined");
        return Ok(());
    }
    let fields: Vec<&str> = row.as_str().split('\t').collect(rt.alloc())?;
    answer_row(rt, answer, &fields)
}

/// The answer to a line.
fn answer_to(rt: &HostRuntime, words: &mut Words, line: &str) -> Answer {
    let mut answer = Answer::new(rt.alloc());
    match answer_line(rt, words, &mut answer, line) {
        Ok(()) | Err(NoAnswer::Answered) => {}
        Err(NoAnswer::Memory) => answer.cut(),
        Err(NoAnswer::FieldCount) => answer.push_word("!FieldCount"),
        Err(NoAnswer::Malformed) => answer.push_word("!Malformed"),
        Err(NoAnswer::NotOpened) => answer.push_word("!NotOpened"),
        Err(NoAnswer::Socket) => answer.push_word("!Socket"),
        Err(NoAnswer::Front(error)) => answer.push_shown("!", &error),
    }
    answer
}

/// The answers to the lines of the text.
fn answers(rt: &HostRuntime, text: &str) -> Result<String, AllocError> {
    let mut answers = String::new(rt.alloc());
    let mut words = Words::new(rt.alloc());
    for line in text.lines() {
        let answer = answer_to(rt, &mut words, line);
        answers.push_str(answer.line())?;
        answers.push_str("\n")?;
    }
    Ok(answers)
}

fn main(rt: HostRuntime) -> io::Result<()> {
    let text = io::read_to_string(rt.alloc(), rt.reader())?;
    let answers = answers(&rt, text.as_str())?;
    io::writer(&rt).write_all(answers.as_bytes())
}
