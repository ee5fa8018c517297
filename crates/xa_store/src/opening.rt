//! Opening a connection as a keeper. Tables are made if there are none, else checked, and those of schema 1
//! are brought into schema 2.
//!
//! The steps, in this order. Each has a function of its own, whose clauses settle one question:
//! 1. `make_or_check`: is a transaction under way? Is a name of a keeper's tables taken? Its clauses
//!    (`Loads`) tell what opening answers and leaves.
//! 2. `make_and_check`, if no name is taken: are the tables made? If so, step 4 checks them as any others.
//! 3. `check_existing`, if one is: which schema is it? Tables of schema 1 are brought into schema 2 after
//!    step 4 (`check_and_migrate`).
//! 4. `check_as`: are there other tables, too (`found_tables`)?
//! 5. `check_found`: is each row sound? Beside other tables this is checked in a transaction that is undone.
ghost use Rattle.std.specs.Prelude.{◌≡◌, ◌≢◌, false, Err, IfErr, IfOk, IsTrue};
ghost use Rattle.sqlite.specs.Held.{state};
ghost use Rattle.sqlite.specs.State.{HasCleanDisk, Survives};
ghost use Rattle.xa_store.specs.keeping.Check.{IsIdle, Loads, Tested, found_as};
ghost use Rattle.xa_store.specs.Keeper.{IsSound};
ghost use Rattle.xa_store.specs.Opened.{schema_of};
ghost use Rattle.xa_store.specs.Opening.{has_room, held_in, schema_version_in, IsBlank, IsKnown};
ghost use Rattle.xa_store.specs.Opening.{IsKnownSchema, IsRefusal, LeavesAlone, Makes, MayLeaveTables};
ghost use Rattle.xa_store.specs.Opening.{Migrates, Opens, Settles};
ghost use Rattle.xa_store.specs.declared.error.OpenError.TheVariants.{Store};
ghost use Rattle.xa_store.specs.declared.keeper.tables.Tables.TheVariants.{OnlyOurs, WithOthers};
ghost use Rattle.xa_store.specs.declared.schema.version.SchemaVersion.TheVariants.{Schema1};
ghost use Rattle.xa_store.specs.Sound.{Rests, RestsIn};
ghost use Rattle.xa_store.specs.Tables.{schema_1};

use crate::check::rollback::check_in_undone_transaction;
use crate::check::tables::check;
use crate::error::OpenError;
use crate::failure::error_after_making;
use crate::keeper::SqlRecords;
use crate::keeper::tables::Tables;
use crate::schema::creation::make;
use crate::schema::migration::migrate;
use crate::schema::shape::{has_room, has_schema, is_blank, schema_version_in};
use crate::schema::version::SchemaVersion;
use sqlite::{Alter, Connection};
use sqlite_schema::schema::Schema;
use std::alloc::Global;

impl<S: Alter> SqlRecords<S> {
    /// Opens the store of the connection as a keeper. If no name of a keeper's tables is taken, these are
    /// made, in one transaction. Else each row is read and checked, a body at a time, and then all places
    /// of source rows at once. Then tables of schema 1 are brought into schema 2, in one transaction. A
    /// connection that is refused is handed back; its tables are as they were, unless the store failed.
    /// If a transaction is under way nothing is asked, and the answer is `Store`.
    pub fn open(
        alloc: Global,
        mut conn: Connection<S>,
    ) -> Result<SqlRecords<S>, (OpenError, Connection<S>)>
        ensures opens { Rests (state S.Store conn) → Opens S.Store (state S.Store conn) result }
        ensures migrates { RestsIn schema_1 (state S.Store conn)
            → Migrates S.Store (state S.Store conn) result }
        ensures makes { IsBlank (state S.Store conn) → Makes S.Store (state S.Store conn) result }
        ensures refused { IfErr result (λ e.
            IsRefusal e.0 → LeavesAlone (state S.Store conn) (state S.Store e.1)) }
        ensures busy { IsTrue (state S.Store conn).in_transaction → result ≡ Err (Store, conn) }
        ensures leaves { Survives (state S.Store conn) (state S.Store (held_in S.Store result))
            (MayLeaveTables (state S.Store conn)) }
        ensures settled { IfOk result (Settles S.Store) }
        ensures sound { IfOk result (λ k.
            IsTrue k.had_only_our_tables → IsTrue (state S.Store k.conn).is_open → IsSound S.Store k) }
        ensures stays { HasCleanDisk (state S.Store (held_in S.Store result)) → IsKnown (state S.Store conn)
            → IfOk result (λ k. IsTrue (state S.Store k.conn).is_open) }
        ensures known { IfOk result (λ k.
            IsTrue k.had_only_our_tables → IsKnownSchema (state S.Store conn).now.schema) }
    {
        match make_or_check(alloc, &mut conn) {
            Ok(tables) => Ok(SqlRecords::over(conn, tables)),
            Err(error) => Err((error, conn)),
        }
    }
}

/// Which tables there are: those of that schema and no others, or others, too.
fn found_tables(version: SchemaVersion, schema: &Schema) -> Tables
    ensures ours { result ≡ OnlyOurs → schema.now ≡ schema_of version }
    ensures others { result ≡ WithOthers → schema.now ≢ schema_of version }
{
    if has_schema(version, schema) {
        Tables::OnlyOurs
    } else {
        Tables::WithOthers
    }
}

/// Checks the tables that were found, as those of that schema. If there are others, too, all stay as they
/// were, whatever the queries do.
fn check_found<S: Alter>(
    alloc: Global,
    conn: &mut Connection<S>,
    version: SchemaVersion,
    tables: Tables,
) -> Result<(), OpenError>
    requires quiet { IsIdle (state S.Store conn.old) }
    requires ours { tables ≡ OnlyOurs → (state S.Store conn.old).now.schema ≡ schema_of version }
    requires others { tables ≡ WithOthers → (state S.Store conn.old).now.schema ≢ schema_of version }
    ensures { Tested version (state S.Store conn.old) (state S.Store conn.new) (found_as tables result) }
{
    match tables {
        Tables::OnlyOurs => check(alloc, conn, version),
        Tables::WithOthers => check_in_undone_transaction(alloc, conn, version),
    }
}

/// Checks the tables as those of that schema, and says which they are.
fn check_as<S: Alter>(
    alloc: Global,
    conn: &mut Connection<S>,
    version: SchemaVersion,
) -> Result<Tables, OpenError>
    ensures { Tested version (state S.Store conn.old) (state S.Store conn.new) result }
{
    // For the proof: `check_found` requires that no transaction is under way; of tables that `make` has just
    // made, that is told only if the store was blank.
    if !conn.is_autocommit() {
        return Err(OpenError::Store);
    }
    let tables = found_tables(version, conn.schema());
    check_found(alloc, conn, version, tables)?;
    Ok(tables)
}

/// Makes the tables beside what is there, and then checks them as any others. If these aren't sound, the
/// store has failed. It says which tables there are now.
fn make_and_check<S: Alter>(alloc: Global, conn: &mut Connection<S>) -> Result<Tables, OpenError>
    requires { IsTrue (has_room (state S.Store conn.old).now.schema) }
    ensures { Loads (state S.Store conn.old) (state S.Store conn.new) result }
{
    let had_none = is_blank(conn.schema());
    make(conn)?;
    match check_as(alloc, conn, SchemaVersion::Schema2) {
        Ok(tables) => Ok(tables.if_alone(had_none)),
        Err(error) => Err(error_after_making(error)),
    }
}

/// Checks tables of schema 1, and then brings them into schema 2. It says which tables there were.
fn check_and_migrate<S: Alter>(alloc: Global, conn: &mut Connection<S>) -> Result<Tables, OpenError>
    requires taken { has_room (state S.Store conn.old).now.schema ≡ false }
    requires first { schema_version_in (state S.Store conn.old).now.schema ≡ Schema1 }
    ensures { Loads (state S.Store conn.old) (state S.Store conn.new) result }
{
    let tables = check_as(alloc, conn, SchemaVersion::Schema1)?;
    migrate(conn)?;
    Ok(tables)
}

/// Checks the tables that are there, and brings those of schema 1 into schema 2. It says which they are.
fn check_existing<S: Alter>(alloc: Global, conn: &mut Connection<S>) -> Result<Tables, OpenError>
    requires { has_room (state S.Store conn.old).now.schema ≡ false }
    ensures { Loads (state S.Store conn.old) (state S.Store conn.new) result }
{
    match schema_version_in(conn.schema()) {
        SchemaVersion::Schema1 => check_and_migrate(alloc, conn),
        SchemaVersion::Schema2 => check_as(alloc, conn, SchemaVersion::Schema2),
    }
}

/// Makes the tables or checks them, and says which they are.
fn make_or_check<S: Alter>(alloc: Global, conn: &mut Connection<S>) -> Result<Tables, OpenError>
    ensures loads { Loads (state S.Store conn.old) (state S.Store conn.new) result }
    ensures busy { IsTrue (state S.Store conn.old).in_transaction
        → (result ≡ Err Store) × (conn.new ≡ conn.old) }
{
    if !conn.is_autocommit() {
        return Err(OpenError::Store);
    }
    if has_room(conn.schema()) {
        make_and_check(alloc, conn)
    } else {
        check_existing(alloc, conn)
    }
}
