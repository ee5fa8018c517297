//! Rows of events that are played, each as a list of its own. They are rows of connections in which only
//! calls of a front and moments stand.
use crate::answer::Answer;
use crate::clock::moment_of;
use crate::connections::FrontTrial;
use crate::field::word_and_text;
use crate::front_calls::FrontCalls;
use crate::no_answer::NoAnswer;
use crate::runs::push_answer;
use xa_server::{Event, FrontError, Outcome};

/// Plays the one call that the word and the text after it say.
fn outcomes_of<F: FrontCalls + Drop>(
    trial: &mut FrontTrial<F>,
    word: &str,
    text: &str,
) -> Result<Vec<Outcome>, NoAnswer> {
    match word {
        "begin" => trial.front.outcomes(&[Event::Begin]),
        "piece" => {
            let (conn, piece) = trial.conn_and_bytes(text)?;
            trial.front.outcomes(&[Event::Piece(conn, &piece)])
        }
        "answer" => {
            let conn = trial.conn(text)?;
            let event = Event::Answer(conn, trial.moment);
            trial.front.outcomes(&[event])
        }
        "finish" => {
            let conn = trial.conn(text)?;
            trial.front.outcomes(&[Event::Finish(conn)])
        }
        _ => Err(NoAnswer::Malformed),
    }
}

/// Adds what a call was answered.
fn push_outcome<F: FrontCalls + Drop>(
    answer: &mut Answer,
    trial: &FrontTrial<F>,
    outcome: Outcome,
) {
    match outcome {
        Outcome::Begun(Ok(conn)) => trial.push_begun(answer, conn),
        Outcome::Held(Ok(())) => answer.push_word("held"),
        Outcome::Answered(Ok(given)) => push_answer(answer, given.as_ref()),
        Outcome::Finished(Ok(())) => answer.push_word("finished"),
        Outcome::Begun(Err(error))
        | Outcome::Held(Err(error))
        | Outcome::Answered(Err(error))
        | Outcome::Finished(Err(error)) => match error {
            FrontError::Memory => answer.cut(),
            refusal => answer.push_shown("!", &refusal),
        },
    }
}

/// Plays the one call that the word and the text after it say, and adds what it was answered.
fn play_one<F: FrontCalls + Drop>(
    answer: &mut Answer,
    trial: &mut FrontTrial<F>,
    word: &str,
    text: &str,
) -> Result<(), NoAnswer> {
    for outcome in outcomes_of(trial, word, text)? {
        push_outcome(answer, trial, outcome);
    }
    Ok(())
}

/// Plays the events, one after another, and adds what each was answered.
pub fn play_events<F: FrontCalls + Drop>(
    answer: &mut Answer,
    trial: &mut FrontTrial<F>,
    events: &[&str],
) -> Result<(), NoAnswer> {
    for event in events {
        let (word, text) = word_and_text(event);
        match word {
            "moment" => trial.moment = moment_of(text)?,
            _ => play_one(answer, trial, word, text)?,
        }
    }
    Ok(())
}
