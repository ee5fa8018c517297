//! The statements that add and drop a document, and set whether it is active.
ghost use Rattle.std.specs.Prelude.{◌≡◌};
ghost use Rattle.sqlite.specs.Held.{state};
ghost use Rattle.xa_store.specs.declared.step.Step.TheVariants.{AddDocument, DropDocument, SetActive};
ghost use Rattle.xa_policy.specs.Version.{version_text};
ghost use Rattle.xa_store.specs.keeping.Execution.{IsTakenBy, StaysInsideOver, Takes};

use crate::parameter::{activity_number, kind_number};
use crate::sql;
use crate::step::execution::execute_in;
use sqlite::types::ValueRef;
use sqlite::{Alter, Transaction};
use std::alloc::Global;
use xa_policy::DocumentKey;
use xa_records::Failure;
use xa_value::Text;

/// Adds a document, which isn't active.
pub(crate) fn add_document<S: Alter>(
    alloc: Global,
    tx: &mut Transaction<'_, S>,
    number: i64,
    key: &DocumentKey,
    text: &[u8],
) -> Result<(), Failure>
    ensures same_reference { tx.new.conn.ghost_name ≡ tx.old.conn.ghost_name }
    ensures taken { IsTakenBy S.Store (AddDocument number key.now text.now)
        tx.old.conn.now tx.new.conn.now result }
{
    let version = key.version.to_text(alloc)?;
    execute_in(
        tx,
        sql::ADD_DOCUMENT,
        &[
            ValueRef::Int(number),
            ValueRef::Int(kind_number(key.kind)),
            ValueRef::Text(key.id.as_bytes()),
            ValueRef::Text(version.as_bytes()),
            ValueRef::Blob(text),
        ],
    )
}

/// Sets whether references may resolve to the document, whose version's text stands beside its key. For the
/// proof: in a function of its own, that text is known by a clause.
fn set_active_at<'a, S: Alter>(
    tx: &mut Transaction<'_, S>,
    number: i64,
    key: &'a DocumentKey,
    version: &'a Text,
    active: bool,
) -> Result<(), Failure>
    ensures same_reference { tx.new.conn.ghost_name ≡ tx.old.conn.ghost_name }
    ensures stays { StaysInsideOver S.Store tx.old.conn.now tx.new.conn.now result }
    ensures takes { version.now ≡ version_text key.now.version
        → Takes (SetActive number key.now active)
        (state S.Store tx.old.conn.now) (state S.Store tx.new.conn.now) result }
{
    execute_in(
        tx,
        sql::SET_ACTIVE,
        &[
            ValueRef::Int(number),
            ValueRef::Int(kind_number(key.kind)),
            ValueRef::Text(key.id.as_bytes()),
            ValueRef::Text(version.as_bytes()),
            ValueRef::Int(activity_number(active)),
        ],
    )
}

/// Sets whether references may resolve to the document.
pub(crate) fn set_active<S: Alter>(
    alloc: Global,
    tx: &mut Transaction<'_, S>,
    number: i64,
    key: &DocumentKey,
    active: bool,
) -> Result<(), Failure>
    ensures same_reference { tx.new.conn.ghost_name ≡ tx.old.conn.ghost_name }
    ensures taken { IsTakenBy S.Store (SetActive number key.now active)
        tx.old.conn.now tx.new.conn.now result }
{
    let version = key.version.to_text(alloc)?;
    set_active_at(tx, number, key, &version, active)
}

/// Drops a document.
pub(crate) fn drop_document<S: Alter>(
    alloc: Global,
    tx: &mut Transaction<'_, S>,
    number: i64,
    key: &DocumentKey,
) -> Result<(), Failure>
    ensures same_reference { tx.new.conn.ghost_name ≡ tx.old.conn.ghost_name }
    ensures taken { IsTakenBy S.Store (DropDocument number key.now) tx.old.conn.now tx.new.conn.now result }
{
    let version = key.version.to_text(alloc)?;
    execute_in(
        tx,
        sql::DROP_DOCUMENT,
        &[
            ValueRef::Int(number),
            ValueRef::Int(kind_number(key.kind)),
            ValueRef::Text(key.id.as_bytes()),
            ValueRef::Text(version.as_bytes()),
        ],
    )
}
