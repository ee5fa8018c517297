//! What stands in a store beside the program's tables.
use sqlite::Row;
use sqlite::types::ValueRef;
use sqlite_schema::names::same_name;
use sqlite_schema::schema::{Schema, View};
use std::{fmt, str};

/// The names of the program's tables; those of schema 1 first, to which schema 2 adds the last.
const TABLES: [&str; 7] = [
    "meta",
    "domains",
    "tokens",
    "policies",
    "roots",
    "attributes",
    "sources",
];

/// How many of them schema 1 has.
const OF_SCHEMA_1: usize = 6;

/// How the names of the indexes begin that SQLite makes for a key (SQLite's file format, 2.6.1). They go with
/// their table.
const AUTOMATIC: &[u8] = b"sqlite_autoindex_";

/// What a store's schema has, by names alone.
#[derive(Clone, Copy)]
pub enum Objects {
    /// Nothing, or the program's tables and no others.
    Own,
    /// Other tables, and not those of the program.
    OfAnother,
    /// The program's tables, and others, or indexes, views or triggers.
    Foreign,
}

/// Whether a table, or one that is kept as it is, has that name.
fn has_table(schema: &Schema, name: &str) -> bool {
    schema.table_named(name.as_bytes()).is_some()
        || schema.views.as_slice().iter().any(|view| is_kept_table(view)
            && same_name(view.name.as_slice(), name.as_bytes()))
}

/// Whether it is the name of one of the program's tables.
fn is_own_name(found: &[u8]) -> bool {
    TABLES.iter().any(|name| same_name(found, name.as_bytes()))
}

/// Whether it is a table that can't be read, since a trigger or an index of it isn't understood, or its own
/// text isn't.
fn is_kept_table(view: &View) -> bool {
    match &view.foreign {
        Some(table) => !view.binds && table.as_slice() == view.name.as_slice(),
        None => false,
    }
}

/// Whether an index is one that SQLite made.
fn is_automatic(name: &[u8]) -> bool {
    name.starts_with(AUTOMATIC)
}

/// Whether what isn't a table or an index that can be read is the program's.
fn is_own_view(view: &View) -> bool {
    is_kept_table(view) && is_own_name(view.name.as_slice()) || is_automatic(view.name.as_slice())
}

/// Whether all are the program's tables, or the indexes that SQLite made for these.
fn are_own(schema: &Schema) -> bool {
    schema
        .tables
        .as_slice()
        .iter()
        .all(|table| is_own_name(table.name.as_slice()))
        && schema
            .indexes
            .as_slice()
            .iter()
            .all(|index| is_automatic(index.name.as_slice()))
        && schema.views.as_slice().iter().all(is_own_view)
}

/// Whether the schema has nothing.
fn is_blank(schema: &Schema) -> bool {
    schema.tables.is_empty() && schema.indexes.is_empty() && schema.views.is_empty()
}

/// What the schema has.
pub fn objects_in(schema: &Schema) -> Objects {
    let has_tables = TABLES[..OF_SCHEMA_1]
        .iter()
        .all(|name| has_table(schema, name));
    if is_blank(schema) {
        Objects::Own
    } else if !has_tables {
        Objects::OfAnother
    } else if are_own(schema) {
        Objects::Own
    } else {
        Objects::Foreign
    }
}

/// A name between the quotes of SQL. A control character in it is shown by its number.
#[derive(Clone, Copy)]
struct Quoted<'a> {
    /// The name.
    name: &'a [u8],
}

impl fmt::Display for Quoted<'_> {
    fn fmt<W: fmt::Write>(&self, f: &mut fmt::Formatter<W>) -> fmt::Result {
        f.write_str("\"")?;
        for character in str::from_utf8(self.name).unwrap_or("?").chars() {
            if character.is_control() {
                write!(f, "\\u{{{:x}}}", u32::from(character))?;
            } else if character == '"' {
                f.write_str("\"\"")?;
            } else {
                write!(f, "{character}")?;
            }
        }
        f.write_str("\"")
    }
}

/// The kinds of what stands in a store, and what SQL calls them, in an order in which they can be dropped.
const KINDS: [(&str, &str); 4] = [
    ("trigger", "TRIGGER"),
    ("view", "VIEW"),
    ("index", "INDEX"),
    ("table", "TABLE"),
];

/// The text of a query that shows what stands in a store: the kind and the name of each object.
pub const OBJECTS: &str = "SELECT type, name FROM sqlite_schema";

/// The text in a column of a row; empty if there is none.
fn text_at(row: &Row, at: usize) -> &[u8] {
    match row.get_ref(at) {
        Ok(ValueRef::Text(text)) => text,
        _ => b"",
    }
}

/// Whether a row shows one of the program's tables, or an index that SQLite made.
fn is_own(row: &Row) -> bool {
    let name = text_at(row, 1);
    text_at(row, 0) == b"table".as_slice() && is_own_name(name) || is_automatic(name)
}

/// The statements of SQL that drop what isn't the program's.
#[derive(Drop)]
pub struct DropsForeign<'a> {
    /// What stands in the store, as `OBJECTS` shows it.
    pub rows: &'a [Row],
}

/// Writes the statements that drop what is of one kind.
fn write_drops<W: fmt::Write>(
    f: &mut fmt::Formatter<W>,
    rows: &[Row],
    kind: (&str, &str),
) -> fmt::Result {
    for row in rows {
        if text_at(row, 0) == kind.0.as_bytes() && !is_own(row) {
            let name = text_at(row, 1);
            write!(f, " DROP {} {};", kind.1, Quoted { name })?;
        }
    }
    Ok(())
}

impl fmt::Display for DropsForeign<'_> {
    fn fmt<W: fmt::Write>(&self, f: &mut fmt::Formatter<W>) -> fmt::Result {
        for kind in KINDS {
            write_drops(f, self.rows, kind)?;
        }
        Ok(())
    }
}
