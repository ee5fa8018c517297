//! The trait of all that is read from one row, and the readers of one row and of many.
ghost use Rattle.std.specs.Prelude.{◌≡◌, map, IfOk};
ghost use Rattle.sqlite.specs.Order.{Row as SqlRow};
ghost use Rattle.xa_store.specs.keeping.Columns.{TellsOne};

use sqlite::Row;
use std::alloc::Global;
use xa_records::Failure;
use xa_value::Items;

/// What is read from one row.
pub(crate) trait FromRow: Sized {
    /// What the row tells.
    ghost told: { SqlRow → Self };

    /// Reads it from the row. A row that the keeper never writes is a failure of the store.
    fn from_row(alloc: Global, row: &Row) -> Result<Self, Failure>
        ensures { IfOk result (λ x. x ≡ told row.now) };
}

/// What is read from the one row, if there is one. Several rows are a failure of the store.
pub(crate) fn read_one<T: FromRow>(alloc: Global, rows: &[Row]) -> Result<Option<T>, Failure>
    ensures { IfOk result (TellsOne T.FromRow.told rows.now) }
{
    match rows {
        [] => Ok(None),
        [row] => Ok(Some(T::from_row(alloc, row)?)),
        _ => Err(Failure::Store),
    }
}

/// What is read from each row. A row goes as soon as it is read, so the longest text alone is held twice.
pub(crate) fn read_all<T: FromRow + Drop>(
    alloc: Global,
    rows: Vec<Row>,
) -> Result<Items<T>, Failure>
    ensures { IfOk result (λ items. items ≡ map T.FromRow.told rows.items) }
{
    let mut items = Items::new(alloc);
    for row in rows {
        items.push(T::from_row(alloc, &row)?)?;
    }
    Ok(items)
}
