//! The statements that add and drop a token, and set its role.
ghost use Rattle.std.specs.Prelude.{◌≡◌};
ghost use Rattle.xa_store.specs.declared.step.Step.TheVariants.{AddToken, DropToken, SetRole};
ghost use Rattle.xa_store.specs.keeping.Execution.{IsTakenBy};

use crate::parameter::role_number;
use crate::sql;
use crate::step::execution::execute_in;
use sqlite::types::ValueRef;
use sqlite::{Alter, Transaction};
use xa_notation::Role;
use xa_records::{Digest, Failure};

/// Adds a token.
pub(crate) fn add_token<S: Alter>(
    tx: &mut Transaction<'_, S>,
    number: i64,
    digest: &Digest,
    role: Role,
) -> Result<(), Failure>
    ensures same_reference { tx.new.conn.ghost_name ≡ tx.old.conn.ghost_name }
    ensures taken { IsTakenBy S.Store (AddToken number digest.now role)
        tx.old.conn.now tx.new.conn.now result }
{
    execute_in(
        tx,
        sql::ADD_TOKEN,
        &[
            ValueRef::Int(number),
            ValueRef::Blob(digest.as_bytes()),
            ValueRef::Int(role_number(role)),
        ],
    )
}

/// Sets the role of a token.
pub(crate) fn set_role<S: Alter>(
    tx: &mut Transaction<'_, S>,
    number: i64,
    digest: &Digest,
    role: Role,
) -> Result<(), Failure>
    ensures same_reference { tx.new.conn.ghost_name ≡ tx.old.conn.ghost_name }
    ensures taken { IsTakenBy S.Store (SetRole number digest.now role)
        tx.old.conn.now tx.new.conn.now result }
{
    execute_in(
        tx,
        sql::SET_ROLE,
        &[
            ValueRef::Int(number),
            ValueRef::Blob(digest.as_bytes()),
            ValueRef::Int(role_number(role)),
        ],
    )
}

/// Drops a token.
pub(crate) fn drop_token<S: Alter>(
    tx: &mut Transaction<'_, S>,
    number: i64,
    digest: &Digest,
) -> Result<(), Failure>
    ensures same_reference { tx.new.conn.ghost_name ≡ tx.old.conn.ghost_name }
    ensures taken { IsTakenBy S.Store (DropToken number digest.now) tx.old.conn.now tx.new.conn.now result }
{
    execute_in(
        tx,
        sql::DROP_TOKEN,
        &[ValueRef::Int(number), ValueRef::Blob(digest.as_bytes())],
    )
}
