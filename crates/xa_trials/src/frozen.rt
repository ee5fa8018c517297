//! Rows of connections that are driven over two files, one of which is frozen after so many calls.
use crate::answer::Answer;
use crate::field::{first_field_and_rest, number_of};
use crate::files::{File, StoreOfFiles, file_named, files_of, keeper_of, new_files};
use crate::keeper_rows::run_driven_over;
use crate::no_answer::{NoAnswer, unless_answered};
use crate::setup::setup_and_events;
use sqlite::Files;
use std::alloc::Global;
use xa_store::SqlRecords;

/// Two empty files. One of them passes on so many calls, as `FILE CALLS` says.
fn frozen_files(alloc: Global, text: &str) -> Result<Files<File>, NoAnswer> {
    let (word, calls) = text.split_once(' ').ok_or(NoAnswer::Malformed)?;
    let (name, calls) = (file_named(word)?, number_of(calls)?);
    files_of(alloc, &new_files(alloc), name, calls)
}

/// The keeper of tables over such files.
fn frozen_keeper<S: StoreOfFiles>(alloc: Global, text: &str) -> Result<SqlRecords<S>, NoAnswer> {
    let files = frozen_files(alloc, text)?;
    keeper_of(alloc, files).ok().ok_or(NoAnswer::NotOpened)
}

/// What becomes of driven connections over the keeper of tables in two files, one of which is frozen after
/// so many calls.
pub fn run_frozen_row<S: StoreOfFiles>(
    answer: &mut Answer,
    fields: &[&str],
) -> Result<(), NoAnswer> {
    let (text, fields) = first_field_and_rest(fields)?;
    let (setup, events) = setup_and_events(answer.alloc(), fields)?;
    let records = frozen_keeper::<S>(answer.alloc(), text)?;
    unless_answered(run_driven_over(answer, records, &setup, events))
}
