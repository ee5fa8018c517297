//! Rows of the bodies of routes: what a body is read as.
use crate::answer::Answer;
use crate::field::{bytes_of, only_bytes};
use crate::no_answer::NoAnswer;
use crate::references::push_reference;
use std::alloc::Global;
use xa_decide::{SourceRow, read_rows, write_rows};
use xa_notation::{read_new_token, read_old_token, read_root};
use xa_policy::Reference;
use xa_value::Items;

/// The role and the token that the body gives to a domain.
pub fn new_token(answer: &mut Answer, fields: &[&str]) -> Result<(), NoAnswer> {
    let body = only_bytes(answer.alloc(), fields)?;
    let read = read_new_token(answer.alloc(), &body);
    if let Some(new) = answer.success(read) {
        answer.push_shown("", &new.role);
        answer.push_field("", new.token.as_bytes());
    }
    Ok(())
}

/// The token that the body takes from a domain.
pub fn old_token(answer: &mut Answer, fields: &[&str]) -> Result<(), NoAnswer> {
    let body = only_bytes(answer.alloc(), fields)?;
    let read = read_old_token(answer.alloc(), &body);
    if let Some(token) = answer.success(read) {
        answer.push_field("", token.as_bytes());
    }
    Ok(())
}

/// Adds a field of the word and the root; `!None` if there is none.
pub fn push_root(
    answer: &mut Answer,
    word: &str,
    root: &Option<Reference>,
) -> Result<(), NoAnswer> {
    match root {
        Some(reference) => push_reference(answer, word, reference)?,
        None => answer.push_field(word, b"!None"),
    }
    Ok(())
}

/// The root that the body sets.
pub fn root(answer: &mut Answer, fields: &[&str]) -> Result<(), NoAnswer> {
    let body = only_bytes(answer.alloc(), fields)?;
    let read = read_root(answer.alloc(), &body);
    match answer.success(read) {
        Some(root) => push_root(answer, "", &root),
        None => Ok(()),
    }
}

/// Adds a field of the word and the body that lists the rows.
pub fn push_rows(answer: &mut Answer, word: &str, rows: &[SourceRow]) -> Result<(), NoAnswer> {
    let body = write_rows(answer.alloc(), rows)?;
    answer.push_field(word, &body);
    Ok(())
}

/// The rows that the body gives to a source of attributes: the body that lists them.
pub fn rows(answer: &mut Answer, fields: &[&str]) -> Result<(), NoAnswer> {
    let body = only_bytes(answer.alloc(), fields)?;
    let read = read_rows(answer.alloc(), &body);
    match answer.success(read) {
        Some(rows) => push_rows(answer, "", rows.as_slice()),
        None => Ok(()),
    }
}

/// The rows of a source of attributes that the field, a body, has.
pub fn rows_of(alloc: Global, field: &str) -> Result<Items<SourceRow>, NoAnswer> {
    read_rows(alloc, &bytes_of(alloc, field)?)
        .ok()
        .ok_or(NoAnswer::Malformed)
}
