//! The check of all tables: their rows, the order of these, and the places of the rows of sources.
ghost use Rattle.std.specs.Prelude.{◌≡◌, ◌&&◌, map, IsTrue};
ghost use Rattle.std.specs.List.{list_all};
ghost use Rattle.sqlite.specs.Effect.{IsDatabase};
ghost use Rattle.sqlite.specs.Held.{state};
ghost use Rattle.xa_store.specs.keeping.Check.{AreSources, AsksOver, Checked, CheckedBy, FindsIn};
ghost use Rattle.xa_store.specs.keeping.Check.{FindsRest, GivesNext, Orders, TellsSound};
ghost use Rattle.xa_store.specs.keeping.Check.{are_consecutive, has_table, no_place};
ghost use Rattle.xa_store.specs.Opened.{are_counted, is_left_empty, is_sound, is_sound_table};
ghost use Rattle.xa_store.specs.Opened.{known_next, place_in, read_meta, sources_in, tables_in};
ghost use Rattle.xa_store.specs.Tables.{meta_tree, tree_of};
ghost use Rattle.xa_store.specs.declared.schema.checked_table.CheckedTable.TheVariants.{Documents, Domains};
ghost use Rattle.xa_store.specs.declared.schema.checked_table.CheckedTable.TheVariants.{Roots, Tokens};
ghost use Rattle.xa_store.specs.declared.schema.version.SchemaVersion.{SchemaVersion as Version};
ghost use Rattle.xa_store.specs.declared.schema.version.SchemaVersion.TheVariants.{Schema2};

use crate::check::cell::is_count;
use crate::check::cursor::walk;
use crate::check::query::rows_to_check;
use crate::check::row::{SourcePlace, follows, known_next, place_told};
use crate::error::OpenError;
use crate::schema::checked_table::CheckedTable;
use crate::schema::version::{Checking, SchemaVersion};
use crate::sql;
use sqlite::{Alter, Connection, Row};
use std::alloc::Global;

/// `Damaged`, unless the tables are sound.
fn sound_or_damaged(sound: bool) -> Result<(), OpenError>
    ensures { TellsSound sound result }
{
    if sound {
        Ok(())
    } else {
        Err(OpenError::Damaged)
    }
}

/// Checks whether the table has its rows in the order of their rowids, of tables of a schema that has it.
fn check_order<S: Alter>(conn: &mut Connection<S>, table: CheckedTable) -> Result<(), OpenError>
    ensures asks { (version : Version) → IsTrue (has_table table version)
        → AsksOver S.Store version conn.old conn.new result }
    ensures finds { (version : Version) → IsTrue (has_table table version)
        → FindsIn S.Store version conn.old conn.new
        (Orders table (state S.Store conn.old).now.trees result) }
{
    let rows = rows_to_check(conn, table.order_query())?;
    sound_or_damaged(rows.is_empty())
}

/// Checks the rows of the table, and their order.
#[tactic(auto, using(crate::proofs::LoadLemmas::table_stopped))]
fn check_table<S: Alter>(
    alloc: Global,
    conn: &mut Connection<S>,
    table: CheckedTable,
    checking: Checking,
) -> Result<(), OpenError>
    requires { IsTrue (has_table table checking.version) }
    ensures { CheckedBy checking.version (λ db. is_sound_table db checking.next_domain table)
        (state S.Store conn.old) (state S.Store conn.new) result }
{
    walk(alloc, conn, table, checking)?;
    check_order(conn, table)
}

/// Checks two tables, one after the other. For the proof: it puts two checks together at a time, since a
/// loop's invariant can't hold `CheckedBy`, which is too large a type.
fn check_both<S: Alter>(
    alloc: Global,
    conn: &mut Connection<S>,
    first: CheckedTable,
    second: CheckedTable,
    checking: Checking,
) -> Result<(), OpenError>
    requires first { IsTrue (has_table first checking.version) }
    requires second { IsTrue (has_table second checking.version) }
    ensures { CheckedBy checking.version
        (λ db. is_sound_table db checking.next_domain first && is_sound_table db checking.next_domain second)
        (state S.Store conn.old) (state S.Store conn.new) result }
{
    check_table(alloc, conn, first, checking)?;
    check_table(alloc, conn, second, checking)
}

/// Checks the tables that both schemas have, but `meta` and those of the rows of sources. For the proof:
/// in two pairs, since it puts two checks together at a time.
fn check_common<S: Alter>(
    alloc: Global,
    conn: &mut Connection<S>,
    checking: Checking,
) -> Result<(), OpenError>
    ensures { CheckedBy checking.version
        (λ db.
        (is_sound_table db checking.next_domain Domains && is_sound_table db checking.next_domain Tokens)
        && (is_sound_table db checking.next_domain Documents && is_sound_table db checking.next_domain Roots))
        (state S.Store conn.old) (state S.Store conn.new) result }
{
    check_both(
        alloc,
        conn,
        CheckedTable::Domains,
        CheckedTable::Tokens,
        checking,
    )?;
    check_both(
        alloc,
        conn,
        CheckedTable::Documents,
        CheckedTable::Roots,
        checking,
    )
}

/// Checks all tables that have rows, but `meta`.
#[tactic(auto, using(crate::proofs::LoadLemmas::has_sources))]
fn check_tables<S: Alter>(
    alloc: Global,
    conn: &mut Connection<S>,
    checking: Checking,
) -> Result<(), OpenError>
    ensures { CheckedBy checking.version
        (λ db. list_all (is_sound_table db checking.next_domain) (tables_in checking.version))
        (state S.Store conn.old) (state S.Store conn.new) result }
{
    check_common(alloc, conn, checking)?;
    check_table(alloc, conn, checking.version.sources(), checking)
}

/// Whether each place comes after the one before.
fn are_consecutive(rows: &[Row]) -> bool
    ensures { result ≡ are_consecutive no_place rows.now }
{
    // A place before the first of any domain.
    let mut last = SourcePlace {
        domain: -1,
        index: -1,
    };
    for row in rows {
        match place_told(row) {
            Some(place) if follows(last, place) => last = place,
            _ => return false,
        }
    }
    true
}

/// Checks the places of the rows of sources. Those of all domains are in memory at once: two numbers a row.
fn check_places<S: Alter>(conn: &mut Connection<S>, version: SchemaVersion) -> Result<(), OpenError>
    ensures asks { AsksOver S.Store version conn.old conn.new result }
    ensures finds { FindsIn S.Store version conn.old conn.new
        (AreSources version (state S.Store conn.old).now.trees → TellsSound
        (are_counted (map place_in ((state S.Store conn.old).now.trees (tree_of (sources_in version)))))
        result) }
{
    let rows = rows_to_check(conn, version.places_query())?;
    sound_or_damaged(are_consecutive(rows.as_slice()))
}

/// Checks whether the table `attributes` has no row, of tables of schema 2.
fn check_attributes<S: Alter>(conn: &mut Connection<S>) -> Result<(), OpenError>
    ensures { CheckedBy Schema2 (λ db. is_left_empty Schema2 db)
        (state S.Store conn.old) (state S.Store conn.new) result }
{
    let rows = rows_to_check(conn, SchemaVersion::Schema1.places_query())?;
    sound_or_damaged(rows.is_empty())
}

/// Checks the places of the rows of sources in schema 2, and whether none of these stands in `attributes`.
fn check_sources_of_schema_2<S: Alter>(conn: &mut Connection<S>) -> Result<(), OpenError>
    ensures asks { AsksOver S.Store Schema2 conn.old conn.new result }
    ensures finds { FindsRest Schema2 (state S.Store conn.old) (state S.Store conn.new) result }
{
    check_places(conn, SchemaVersion::Schema2)?;
    check_attributes(conn)
}

/// Checks the places of the rows of sources, and whether none of these stands where the schema has none.
fn check_sources<S: Alter>(
    conn: &mut Connection<S>,
    version: SchemaVersion,
) -> Result<(), OpenError>
    ensures asks { AsksOver S.Store version conn.old conn.new result }
    ensures finds { FindsRest version (state S.Store conn.old) (state S.Store conn.new) result }
{
    match version {
        SchemaVersion::Schema1 => check_places(conn, version),
        SchemaVersion::Schema2 => check_sources_of_schema_2(conn),
    }
}

/// Checks all tables but `meta`, and the places.
fn check_all<S: Alter>(
    alloc: Global,
    conn: &mut Connection<S>,
    checking: Checking,
) -> Result<(), OpenError>
    ensures asks { AsksOver S.Store checking.version conn.old conn.new result }
    ensures finds { FindsIn S.Store checking.version conn.old conn.new
        (IsDatabase (state S.Store conn.old).now
        → TellsSound (is_sound checking.version (state S.Store conn.old).now.trees checking.next_domain)
        result) }
{
    if !is_count(checking.next_domain) {
        return Err(OpenError::Damaged);
    }
    check_tables(alloc, conn, checking)?;
    check_sources(conn, checking.version)
}

/// The number of the next domain, in the one row of `meta`, which has to have the number of that schema.
fn next_domain<S: Alter>(conn: &mut Connection<S>, version: SchemaVersion) -> Result<i64, OpenError>
    ensures asks { AsksOver S.Store version conn.old conn.new result }
    ensures finds { FindsIn S.Store version conn.old conn.new
        (GivesNext
        (known_next version (map read_meta ((state S.Store conn.old).now.trees meta_tree))) result) }
{
    let rows = rows_to_check(conn, sql::META_ROWS)?;
    match known_next(version, rows.as_slice()) {
        Some(next) => Ok(next),
        None => Err(OpenError::NotThisSchema),
    }
}

/// Checks the tables, as those of that schema.
pub(crate) fn check<S: Alter>(
    alloc: Global,
    conn: &mut Connection<S>,
    version: SchemaVersion,
) -> Result<(), OpenError>
    ensures { Checked version (state S.Store conn.old) (state S.Store conn.new) result }
{
    // For the proof: an open store holds a database.
    let _schema = conn.schema();
    let next = next_domain(conn, version)?;
    check_all(
        alloc,
        conn,
        Checking {
            version,
            next_domain: next,
        },
    )
}
