//! Readings that a row asks of a keeper of records. What isn't there is answered `!None`, and a
//! list ends with `.`.
use crate::answer::Answer;
use crate::bodies::{push_root, push_rows};
use crate::field::bytes_of;
use crate::keeper::KeeperCall;
use crate::no_answer::NoAnswer;
use crate::references::{key_in, push_key};
use xa_notation::Role;
use xa_records::{Digest, Failure, Records, Token};

/// What a reading found. If it failed, or found nothing, that is answered.
fn finding_of<T: Drop>(answer: &mut Answer, read: Result<Option<T>, Failure>) -> Option<T> {
    match read {
        Ok(Some(found)) => return Some(found),
        Ok(None) => answer.push_word("!None"),
        Err(Failure::Store) => answer.push_word("!Store"),
        Err(Failure::Memory) => answer.cut(),
    }
    None
}

/// How many failures of the storage there were.
pub fn faults<R: Records>(answer: &mut Answer, records: &mut R) -> Result<(), NoAnswer> {
    answer.push_shown("", &records.faults());
    Ok(())
}

/// Whether the keeper is open.
pub fn is_open<R: Records>(answer: &mut Answer, records: &mut R) -> Result<(), NoAnswer> {
    answer.push_shown("", &records.is_open());
    Ok(())
}

/// The names of all domains.
pub fn domains<R: Records>(answer: &mut Answer, records: &mut R) -> Result<(), NoAnswer> {
    let read = records.domains(answer.alloc());
    if let Some(names) = finding_of(answer, read.map(Some)) {
        for name in names.as_slice() {
            answer.push_field("", name.as_bytes());
        }
        answer.push_word(".");
    }
    Ok(())
}

/// The role of the token of that digest.
fn role_of(tokens: &[Token], digest: Digest) -> Option<Role> {
    for token in tokens {
        if token.digest == digest {
            return Some(token.role);
        }
    }
    None
}

/// The domain's number and epoch, and how many tokens it has; or the role of the token, if one is named.
pub fn gate<R: Records>(
    answer: &mut Answer,
    records: &mut R,
    call: &KeeperCall<'_>,
) -> Result<(), NoAnswer> {
    let digest = Digest::of(&bytes_of(answer.alloc(), call.text)?);
    let read = records.gate(answer.alloc(), &call.name);
    let Some(gate) = finding_of(answer, read) else {
        return Ok(());
    };
    if call.text.is_empty() {
        answer.push_shown("number ", &gate.number);
        answer.append_shown(" epoch ", &gate.epoch);
        answer.append_shown(" tokens ", &gate.tokens.as_slice().len());
    } else {
        answer.push_shown_or_none(role_of(gate.tokens.as_slice(), digest));
    }
    Ok(())
}

/// What decides in the domain: the texts of its active documents, its root, and the rows of its
/// source of attributes.
pub fn view<R: Records>(
    answer: &mut Answer,
    records: &mut R,
    call: &KeeperCall<'_>,
) -> Result<(), NoAnswer> {
    let read = records.view(answer.alloc(), &call.name);
    let Some(view) = finding_of(answer, read) else {
        return Ok(());
    };
    for active in view.texts.as_slice() {
        answer.push_field("active:", active.text.as_slice());
    }
    push_root(answer, "root:", &view.root)?;
    push_rows(answer, "source:", view.source.as_slice())
}

/// The text of the document of the key.
pub fn document<R: Records>(
    answer: &mut Answer,
    records: &mut R,
    call: &KeeperCall<'_>,
) -> Result<(), NoAnswer> {
    let key = key_in(answer.alloc(), call.text)?;
    let read = records.document(answer.alloc(), &call.name, &key);
    if let Some(text) = finding_of(answer, read) {
        answer.push_field("", text.as_slice());
    }
    Ok(())
}

/// The keys of the domain's documents, and of each whether it is active.
pub fn list<R: Records>(
    answer: &mut Answer,
    records: &mut R,
    call: &KeeperCall<'_>,
) -> Result<(), NoAnswer> {
    let read = records.list(answer.alloc(), &call.name);
    let Some(documents) = finding_of(answer, read) else {
        return Ok(());
    };
    for listed in documents.as_slice() {
        let word = if listed.active {
            "active:"
        } else {
            "inactive:"
        };
        push_key(answer, word, &listed.key)?;
    }
    answer.push_word(".");
    Ok(())
}
