//! The statements that add and drop a domain, and set its epoch and the number of the next.
ghost use Rattle.std.specs.Prelude.{◌≡◌};
ghost use Rattle.xa_store.specs.declared.step.Step.TheVariants.{AddDomain, DropDomain, SetEpoch, SetNext};
ghost use Rattle.xa_store.specs.keeping.Execution.{IsTakenBy};

use crate::sql;
use crate::step::RaisedEpoch;
use crate::step::execution::execute_in;
use sqlite::types::ValueRef;
use sqlite::{Alter, Transaction};
use xa_records::Failure;
use xa_value::Text;

/// Adds a domain, with epoch 0.
pub(crate) fn add_domain<S: Alter>(
    tx: &mut Transaction<'_, S>,
    number: i64,
    name: &Text,
) -> Result<(), Failure>
    ensures same_reference { tx.new.conn.ghost_name ≡ tx.old.conn.ghost_name }
    ensures taken { IsTakenBy S.Store (AddDomain number name.now) tx.old.conn.now tx.new.conn.now result }
{
    execute_in(
        tx,
        sql::ADD_DOMAIN,
        &[ValueRef::Int(number), ValueRef::Text(name.as_bytes())],
    )
}

/// Sets the number of the next domain.
pub(crate) fn set_next<S: Alter>(tx: &mut Transaction<'_, S>, next: i64) -> Result<(), Failure>
    ensures same_reference { tx.new.conn.ghost_name ≡ tx.old.conn.ghost_name }
    ensures taken { IsTakenBy S.Store (SetNext next) tx.old.conn.now tx.new.conn.now result }
{
    execute_in(tx, sql::SET_NEXT, &[ValueRef::Int(next)])
}

/// Sets the domain's epoch.
pub(crate) fn set_epoch<S: Alter>(
    tx: &mut Transaction<'_, S>,
    raised: RaisedEpoch,
) -> Result<(), Failure>
    ensures same_reference { tx.new.conn.ghost_name ≡ tx.old.conn.ghost_name }
    ensures taken { IsTakenBy S.Store (SetEpoch raised) tx.old.conn.now tx.new.conn.now result }
{
    execute_in(
        tx,
        sql::SET_EPOCH,
        &[ValueRef::Int(raised.number), ValueRef::Int(raised.epoch)],
    )
}

/// Drops a domain, with all that is in it.
pub(crate) fn drop_domain<S: Alter>(tx: &mut Transaction<'_, S>, number: i64) -> Result<(), Failure>
    ensures same_reference { tx.new.conn.ghost_name ≡ tx.old.conn.ghost_name }
    ensures taken { IsTakenBy S.Store (DropDomain number) tx.old.conn.now tx.new.conn.now result }
{
    execute_in(tx, sql::DROP_DOMAIN, &[ValueRef::Int(number)])
}
