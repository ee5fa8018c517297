//! Rows of a keeper of records: what it answers to changes and readings, one after another. A call is a
//! field: its word, the domain's name and a text, with a space between, as `create a`, `put a ask TOKEN` or
//! `upload a DOCUMENT`. The key of a document is written as a document that has it.
pub(crate) mod changes;
pub(crate) mod readings;

use crate::answer::Answer;
use crate::field::{first_field_and_rest, first_word_and_rest, kept_text, number_of};
use crate::keeper::changes::{
    create, delete, drop_token, put_token, remove, set_active, set_root, set_source, upload,
};
use crate::keeper::readings::{document, domains, faults, gate, is_open, list, view};
use crate::keeper_rows::{KeeperRow, compare_over};
use crate::keepers::tables_with;
use crate::no_answer::NoAnswer;
use xa_records::{PlainRecords, Records, is_domain_name};
use xa_value::Text;

/// A call of a keeper: a word, the domain's name, and the text after it.
#[derive(Drop)]
pub struct KeeperCall<'a> {
    /// The word of the call.
    word: &'a str,
    /// The domain's name.
    pub name: Text,
    /// The text after the name.
    pub text: &'a str,
}

/// Makes the reading that the word says.
fn read<R: Records>(
    answer: &mut Answer,
    records: &mut R,
    call: &KeeperCall<'_>,
) -> Result<(), NoAnswer> {
    match call.word {
        "faults" => faults(answer, records),
        "open" => is_open(answer, records),
        "domains" => domains(answer, records),
        "gate" | "role" => gate(answer, records, call),
        "view" => view(answer, records, call),
        "document" => document(answer, records, call),
        "list" => list(answer, records, call),
        _ => Err(NoAnswer::Malformed),
    }
}

/// Makes the call that the word says: a change, else a reading.
fn make_call<R: Records>(
    answer: &mut Answer,
    records: &mut R,
    call: &KeeperCall<'_>,
) -> Result<(), NoAnswer> {
    match call.word {
        "create" => create(answer, records, call),
        "remove" => remove(answer, records, call),
        "put" => put_token(answer, records, call),
        "drop" => drop_token(answer, records, call),
        "upload" => upload(answer, records, call),
        "activate" => set_active(answer, records, call, true),
        "deactivate" => set_active(answer, records, call, false),
        "delete" => delete(answer, records, call),
        "root" => set_root(answer, records, call),
        "source" => set_source(answer, records, call),
        _ => read(answer, records, call),
    }
}

/// Makes the call of the field.
fn make<R: Records>(answer: &mut Answer, records: &mut R, field: &str) -> Result<(), NoAnswer> {
    let (word, rest) = first_word_and_rest(field);
    let (name, text) = first_word_and_rest(rest);
    let name = kept_text(answer.alloc(), name)?;
    make_call(answer, records, &KeeperCall { word, name, text })
}

/// Makes the calls, one after another.
pub fn make_all<R: Records + Drop>(
    answer: &mut Answer,
    mut records: R,
    calls: &[&str],
) -> Result<(), NoAnswer> {
    for field in calls {
        make(answer, &mut records, field)?;
    }
    Ok(())
}

/// What keepers that begin with one domain answer to the calls. The text has the domain's name, its number
/// and its epoch, as `NAME NUMBER EPOCH`.
pub fn keeper_with(answer: &mut Answer, fields: &[&str]) -> Result<(), NoAnswer> {
    let (text, calls) = first_field_and_rest(fields)?;
    let alloc = answer.alloc();
    let (name, numbers) = first_word_and_rest(text);
    let (number, epoch) = first_word_and_rest(numbers);
    let (number, epoch) = (number_of(number)?, number_of(epoch)?);
    if !is_domain_name(name.as_bytes()) {
        return Err(NoAnswer::Malformed);
    }
    let row = KeeperRow::Calls(calls);
    let plain = PlainRecords::with_domain(alloc, Text::new(alloc, name)?, number, epoch);
    row.run(answer, plain.ok().ok_or(NoAnswer::Malformed)?)?;
    compare_over(answer, row, tables_with(alloc, name, number, epoch)?)
}
