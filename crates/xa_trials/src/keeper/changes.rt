//! Changes that a row asks of a keeper of records.
use crate::answer::Answer;
use crate::bodies::rows_of;
use crate::field::{bytes_of, first_word_and_rest};
use crate::keeper::KeeperCall;
use crate::no_answer::NoAnswer;
use crate::references::{key_in, key_of, root_of};
use xa_notation::Role;
use xa_records::{ChangeError, Digest, Failure, Records, is_domain_name};

/// Adds why a change was refused, or that it failed.
fn push_error(answer: &mut Answer, error: ChangeError) {
    match error {
        ChangeError::Refused(refusal) => answer.push_shown("!", &refusal),
        ChangeError::Failed(Failure::Store) => answer.push_word("!Store"),
        ChangeError::Failed(Failure::Memory) => answer.cut(),
    }
}

/// Adds what a change has come to.
fn push_done(answer: &mut Answer, done: Result<(), ChangeError>) {
    match done {
        Ok(()) => answer.push_word("ok"),
        Err(error) => push_error(answer, error),
    }
}

/// Makes the domain, if the name is one.
pub fn create<R: Records>(
    answer: &mut Answer,
    records: &mut R,
    call: &KeeperCall<'_>,
) -> Result<(), NoAnswer> {
    if !is_domain_name(call.name.as_bytes()) {
        return Err(NoAnswer::Malformed);
    }
    push_done(answer, records.create(answer.alloc(), &call.name));
    Ok(())
}

/// Removes the domain.
pub fn remove<R: Records>(
    answer: &mut Answer,
    records: &mut R,
    call: &KeeperCall<'_>,
) -> Result<(), NoAnswer> {
    push_done(answer, records.remove(answer.alloc(), &call.name));
    Ok(())
}

/// The role of that name.
fn role_named(word: &str) -> Result<Role, NoAnswer> {
    match word {
        "ask" => Ok(Role::Ask),
        "admin" => Ok(Role::Admin),
        _ => Err(NoAnswer::Malformed),
    }
}

/// Puts in the token. The text is its role and the token, as `ROLE TOKEN`.
pub fn put_token<R: Records>(
    answer: &mut Answer,
    records: &mut R,
    call: &KeeperCall<'_>,
) -> Result<(), NoAnswer> {
    let (role, token) = first_word_and_rest(call.text);
    let digest = Digest::of(&bytes_of(answer.alloc(), token)?);
    let done = records.put_token(answer.alloc(), &call.name, digest, role_named(role)?);
    push_done(answer, done);
    Ok(())
}

/// Takes the token away.
pub fn drop_token<R: Records>(
    answer: &mut Answer,
    records: &mut R,
    call: &KeeperCall<'_>,
) -> Result<(), NoAnswer> {
    let digest = Digest::of(&bytes_of(answer.alloc(), call.text)?);
    push_done(
        answer,
        records.drop_token(answer.alloc(), &call.name, digest),
    );
    Ok(())
}

/// Uploads the document.
pub fn upload<R: Records>(
    answer: &mut Answer,
    records: &mut R,
    call: &KeeperCall<'_>,
) -> Result<(), NoAnswer> {
    let bytes = bytes_of(answer.alloc(), call.text)?;
    let document = bytes.as_slice();
    let key = key_of(answer.alloc(), document)?;
    match records.upload(answer.alloc(), &call.name, key, document) {
        Ok(upload) => answer.push_shown("", &upload),
        Err(error) => push_error(answer, error),
    }
    Ok(())
}

/// Makes the document of that key active, or inactive.
pub fn set_active<R: Records>(
    answer: &mut Answer,
    records: &mut R,
    call: &KeeperCall<'_>,
    active: bool,
) -> Result<(), NoAnswer> {
    let alloc = answer.alloc();
    let key = key_in(alloc, call.text)?;
    push_done(answer, records.set_active(alloc, &call.name, &key, active));
    Ok(())
}

/// Deletes the document of that key.
pub fn delete<R: Records>(
    answer: &mut Answer,
    records: &mut R,
    call: &KeeperCall<'_>,
) -> Result<(), NoAnswer> {
    let alloc = answer.alloc();
    let key = key_in(alloc, call.text)?;
    push_done(answer, records.delete(alloc, &call.name, &key));
    Ok(())
}

/// Sets the root to that of the body.
pub fn set_root<R: Records>(
    answer: &mut Answer,
    records: &mut R,
    call: &KeeperCall<'_>,
) -> Result<(), NoAnswer> {
    let root = root_of(answer.alloc(), call.text)?;
    push_done(answer, records.set_root(answer.alloc(), &call.name, root));
    Ok(())
}

/// Sets the rows of the source of attributes to those of the body.
pub fn set_source<R: Records>(
    answer: &mut Answer,
    records: &mut R,
    call: &KeeperCall<'_>,
) -> Result<(), NoAnswer> {
    let rows = rows_of(answer.alloc(), call.text)?;
    push_done(answer, records.set_source(answer.alloc(), &call.name, rows));
    Ok(())
}
