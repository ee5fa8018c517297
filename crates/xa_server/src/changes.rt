//! The changes that messages make. Of each the body is read first and the bytes of the reply are made;
//! the change itself is the last thing that can fail.
ghost use Rattle.std.specs.Prelude.{◌≡◌, IsTrue};
ghost use Rattle.xa_http.specs.declared.command.DocumentCommand.TheVariants as document;
ghost use Rattle.xa_http.specs.declared.command.DomainCommand.TheVariants as domain;
ghost use Rattle.xa_http.specs.declared.command.OperatorCommand.TheVariants as operator;
ghost use Rattle.xa_records.specs.Changes.{activity_set, created, removed, within};
ghost use Rattle.xa_records.specs.DomainName.{is_domain_name};
ghost use Rattle.xa_server.specs.handling.Replying.{HandlesChange};
ghost use Rattle.xa_server.specs.Machine.{by_document_command, by_domain_command, by_operator_command};
ghost use Rattle.xa_server.specs.Machine.{changed};
ghost use Rattle.xa_server.specs.Replies.{created_reply, done_reply};

use crate::handling_error::HandlingError;
use crate::replies::{created_reply, done_reply};
use std::alloc::Global;
use xa_decide::read_rows;
use xa_notation::{Parsed, read_new_token, read_old_token, read_root};
use xa_policy::DocumentKey;
use xa_records::{Digest, Records, Upload};
use xa_value::{Items, Text};

/// Makes a domain in which nothing has been put yet.
pub(crate) fn create_domain<R: Records>(
    alloc: Global,
    records: &mut R,
    name: &Text,
) -> Result<Items<u8>, HandlingError>
    requires { IsTrue (is_domain_name name.now) }
    ensures { HandlesChange (R.custody records.old) (R.custody records.new) name.now result
        (changed created_reply created) }
{
    let reply = created_reply(alloc)?;
    records.create(alloc, name)?;
    Ok(reply)
}

/// Removes the domain with all that is in it.
pub(crate) fn remove_domain<R: Records>(
    alloc: Global,
    records: &mut R,
    name: &Text,
) -> Result<Items<u8>, HandlingError>
    ensures { HandlesChange (R.custody records.old) (R.custody records.new) name.now result
        (changed done_reply removed) }
{
    let reply = done_reply(alloc)?;
    records.remove(alloc, name)?;
    Ok(reply)
}

/// Puts the token of the body into the domain, or gives it another role.
pub(crate) fn put_token<R: Records>(
    alloc: Global,
    records: &mut R,
    name: &Text,
    body: &[u8],
) -> Result<Items<u8>, HandlingError>
    ensures { HandlesChange (R.custody records.old) (R.custody records.new) name.now result
        (by_operator_command operator.PutToken body.now) }
{
    let new = read_new_token(alloc, body)?;
    let reply = done_reply(alloc)?;
    let digest = Digest::of(new.token.as_bytes());
    records.put_token(alloc, name, digest, new.role)?;
    Ok(reply)
}

/// Takes the token of the body from the domain.
pub(crate) fn drop_token<R: Records>(
    alloc: Global,
    records: &mut R,
    name: &Text,
    body: &[u8],
) -> Result<Items<u8>, HandlingError>
    ensures { HandlesChange (R.custody records.old) (R.custody records.new) name.now result
        (by_operator_command operator.DropToken body.now) }
{
    let token = read_old_token(alloc, body)?;
    let reply = done_reply(alloc)?;
    records.drop_token(alloc, name, Digest::of(token.as_bytes()))?;
    Ok(reply)
}

/// Keeps the document that the body is; the same text again changes nothing. Which of both it is isn't
/// known before, so both replies are made.
pub(crate) fn upload<R: Records>(
    alloc: Global,
    records: &mut R,
    name: &Text,
    body: &[u8],
) -> Result<Items<u8>, HandlingError>
    ensures { HandlesChange (R.custody records.old) (R.custody records.new) name.now result
        (by_domain_command domain.Upload body.now) }
{
    let parsed = Parsed::read(alloc, body)?;
    let key = parsed.key()?;
    let created = created_reply(alloc)?;
    let done = done_reply(alloc)?;
    match records.upload(alloc, name, key, body)? {
        Upload::New => Ok(created),
        Upload::Same => Ok(done),
    }
}

/// Sets the root to the reference of the body, or takes it away.
pub(crate) fn set_root<R: Records>(
    alloc: Global,
    records: &mut R,
    name: &Text,
    body: &[u8],
) -> Result<Items<u8>, HandlingError>
    ensures { HandlesChange (R.custody records.old) (R.custody records.new) name.now result
        (by_domain_command domain.SetRoot body.now) }
{
    let root = read_root(alloc, body)?;
    let reply = done_reply(alloc)?;
    records.set_root(alloc, name, root)?;
    Ok(reply)
}

/// Puts the rows of the body into the source of attributes, in place of all that were there.
pub(crate) fn set_source<R: Records>(
    alloc: Global,
    records: &mut R,
    name: &Text,
    body: &[u8],
) -> Result<Items<u8>, HandlingError>
    ensures { HandlesChange (R.custody records.old) (R.custody records.new) name.now result
        (by_domain_command domain.SetSource body.now) }
{
    let rows = read_rows(alloc, body)?;
    let reply = done_reply(alloc)?;
    records.set_source(alloc, name, rows)?;
    Ok(reply)
}

/// Deletes a document.
pub(crate) fn delete_document<R: Records>(
    alloc: Global,
    records: &mut R,
    name: &Text,
    key: &DocumentKey,
) -> Result<Items<u8>, HandlingError>
    ensures { HandlesChange (R.custody records.old) (R.custody records.new) name.now result
        (by_document_command document.Delete key.now) }
{
    let reply = done_reply(alloc)?;
    records.delete(alloc, name, key)?;
    Ok(reply)
}

/// Lets references resolve to a document, or no longer.
pub(crate) fn set_active<R: Records>(
    alloc: Global,
    records: &mut R,
    name: &Text,
    key: &DocumentKey,
    active: bool,
) -> Result<Items<u8>, HandlingError>
    ensures { HandlesChange (R.custody records.old) (R.custody records.new) name.now result
        (changed done_reply (within (activity_set key.now active))) }
{
    let reply = done_reply(alloc)?;
    records.set_active(alloc, name, key, active)?;
    Ok(reply)
}
