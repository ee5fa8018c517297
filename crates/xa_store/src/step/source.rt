//! The statements that add a row of a source, and drop a source.
ghost use Rattle.std.specs.Prelude.{◌≡◌};
ghost use Rattle.xa_store.specs.declared.step.Step.TheVariants.{AddSourceRow, DropSource};
ghost use Rattle.xa_store.specs.keeping.Execution.{IsTakenBy};

use crate::parameter::{text_or_null, type_number};
use crate::sql;
use crate::step::execution::execute_in;
use sqlite::types::ValueRef;
use sqlite::{Alter, Transaction};
use std::alloc::Global;
use xa_decide::SourceRow;
use xa_records::Failure;

/// Adds a row of the source, at that place.
pub(crate) fn add_source_row<S: Alter>(
    alloc: Global,
    tx: &mut Transaction<'_, S>,
    number: i64,
    place: i64,
    row: &SourceRow,
) -> Result<(), Failure>
    ensures same_reference { tx.new.conn.ghost_name ≡ tx.old.conn.ghost_name }
    ensures taken { IsTakenBy S.Store (AddSourceRow number place row.now)
        tx.old.conn.now tx.new.conn.now result }
{
    let value = row.value.to_text(alloc)?;
    execute_in(
        tx,
        sql::ADD_SOURCE_ROW,
        &[
            ValueRef::Int(number),
            ValueRef::Int(place),
            ValueRef::Text(row.category.as_bytes()),
            ValueRef::Text(row.entity.as_bytes()),
            ValueRef::Text(row.attribute_id.as_bytes()),
            ValueRef::Int(type_number(&row.value)),
            ValueRef::Text(value.as_bytes()),
            text_or_null(&row.issuer),
        ],
    )
}

/// Drops all rows of the source.
pub(crate) fn drop_source<S: Alter>(tx: &mut Transaction<'_, S>, number: i64) -> Result<(), Failure>
    ensures same_reference { tx.new.conn.ghost_name ≡ tx.old.conn.ghost_name }
    ensures taken { IsTakenBy S.Store (DropSource number) tx.old.conn.now tx.new.conn.now result }
{
    execute_in(tx, sql::DROP_SOURCE, &[ValueRef::Int(number)])
}
