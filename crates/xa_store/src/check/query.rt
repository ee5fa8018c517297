//! The queries of the check, whose errors are answers of opening.
ghost use Rattle.std.specs.Prelude.{[], IfErr, IfOk};
ghost use Rattle.sqlite.specs.Given.{IsPlain};
ghost use Rattle.sqlite.specs.Held.{state};
ghost use Rattle.sqlite.specs.Listing.{understood};
ghost use Rattle.sqlite.specs.State.{HasCleanDisk, Shown};
ghost use Rattle.xa_store.specs.declared.schema.version.SchemaVersion.{SchemaVersion as Version};
ghost use Rattle.xa_store.specs.keeping.Check.{AsksOver};
ghost use Rattle.xa_store.specs.Opened.{schema_of};
ghost use Rattle.xa_store.specs.Opening.{IsFailure};
ghost use Rattle.xa_store.specs.Sound.{RestsIn};

use crate::error::OpenError;
use crate::failure::error_of_check;
use sqlite::{Alter, Connection, Row};

/// All rows that a query shows, of tables of a schema of which it is a plain one.
pub(crate) fn rows_to_check<S: Alter>(
    conn: &mut Connection<S>,
    sql: &str,
) -> Result<Vec<Row>, OpenError>
    ensures asks { (version : Version) → IsPlain (understood (schema_of version) sql.now)
        → AsksOver S.Store version conn.old conn.new result }
    ensures shows { HasCleanDisk (state S.Store conn.new) → IfOk result (λ rows.
        Shown sql.now [] (state S.Store conn.old) (state S.Store conn.new) rows.items) }
    ensures fails { HasCleanDisk (state S.Store conn.new)
        → (version : Version) → IsPlain (understood (schema_of version) sql.now)
        → RestsIn (schema_of version) (state S.Store conn.old) → IfErr result IsFailure }
{
    match conn.query_all(sql, &[]) {
        Ok(rows) => Ok(rows),
        Err(error) => Err(error_of_check(error)),
    }
}
