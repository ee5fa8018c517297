//! The statements that add and drop a root.
ghost use Rattle.std.specs.Prelude.{◌≡◌};
ghost use Rattle.xa_store.specs.declared.step.Step.TheVariants.{AddRoot, DropRoot};
ghost use Rattle.xa_store.specs.keeping.Execution.{IsTakenBy};

use crate::parameter::{kind_number, text_of_pattern, text_of_version, text_or_null};
use crate::sql;
use crate::step::execution::execute_in;
use sqlite::types::ValueRef;
use sqlite::{Alter, Transaction};
use std::alloc::Global;
use xa_policy::Reference;
use xa_records::Failure;

/// Adds a root.
pub(crate) fn add_root<S: Alter>(
    alloc: Global,
    tx: &mut Transaction<'_, S>,
    number: i64,
    root: &Reference,
) -> Result<(), Failure>
    ensures same_reference { tx.new.conn.ghost_name ≡ tx.old.conn.ghost_name }
    ensures taken { IsTakenBy S.Store (AddRoot number root.now) tx.old.conn.now tx.new.conn.now result }
{
    let pattern = text_of_pattern(alloc, &root.version)?;
    let earliest = text_of_version(alloc, &root.earliest)?;
    let latest = text_of_version(alloc, &root.latest)?;
    execute_in(
        tx,
        sql::ADD_ROOT,
        &[
            ValueRef::Int(number),
            ValueRef::Int(kind_number(root.kind)),
            ValueRef::Text(root.id.as_bytes()),
            text_or_null(&pattern),
            text_or_null(&earliest),
            text_or_null(&latest),
        ],
    )
}

/// Drops the root.
pub(crate) fn drop_root<S: Alter>(tx: &mut Transaction<'_, S>, number: i64) -> Result<(), Failure>
    ensures same_reference { tx.new.conn.ghost_name ≡ tx.old.conn.ghost_name }
    ensures taken { IsTakenBy S.Store (DropRoot number) tx.old.conn.now tx.new.conn.now result }
{
    execute_in(tx, sql::DROP_ROOT, &[ValueRef::Int(number)])
}
