//! All texts of SQL, each with what it does. No other file has any.

// ---- Queries of a keeper's readings and plans

/// The number and the epoch of the domain of a name.
pub(crate) const SHOW_DOMAIN: &str = "SELECT number, epoch FROM domains WHERE name = ?1";

/// The names of all domains, in their order.
pub(crate) const SHOW_DOMAIN_NAMES: &str = "SELECT name FROM domains ORDER BY name";

/// The number of the next domain.
pub(crate) const SHOW_NEXT_NUMBER: &str = "SELECT next_number FROM meta WHERE id = 1";

/// The role of a token in a domain.
pub(crate) const SHOW_ROLE: &str = "SELECT role FROM tokens WHERE number = ?1 AND digest = ?2";

/// The tokens of a domain, by their digests.
pub(crate) const SHOW_TOKENS: &str =
    "SELECT digest, role FROM tokens WHERE number = ?1 ORDER BY digest";

/// The text of a document, by its key, and whether it is active.
pub(crate) const SHOW_DOCUMENT: &str =
    "SELECT body, active FROM policies WHERE number = ?1 AND kind = ?2 AND id = ?3 AND version = ?4";

/// A row for each of a domain's documents, to count them, in the order of their keys. The primary key's
/// index has all its columns, in this order, so no text is read.
pub(crate) const SHOW_DOCUMENT_KINDS: &str =
    "SELECT kind FROM policies WHERE number = ?1 ORDER BY kind, id, version";

/// The keys of a domain's documents, and which of these are active. The primary key's index doesn't have
/// `active`, so each row is read whole, with its text.
pub(crate) const SHOW_DOCUMENTS: &str =
    "SELECT kind, id, version, active FROM policies WHERE number = ?1 ORDER BY kind, id, version";

/// The keys and the texts of a domain's active documents. The rows of the others are read whole as well.
pub(crate) const SHOW_ACTIVE_DOCUMENTS: &str =
    "SELECT kind, id, version, body FROM policies WHERE number = ?1 AND active = 1 ORDER BY kind, id, version";

/// The root of a domain.
pub(crate) const SHOW_ROOT: &str =
    "SELECT kind, id, pattern, earliest, latest FROM roots WHERE number = ?1";

/// The rows of a domain's source, by their places.
pub(crate) const SHOW_SOURCE: &str =
    "SELECT category, entity, attribute, value_type, value, issuer FROM sources WHERE number = ?1 ORDER BY place";

// ---- Statements of steps

/// Adds a domain, with epoch 0.
pub(crate) const ADD_DOMAIN: &str = "INSERT INTO domains (number, name, epoch) VALUES (?1, ?2, 0)";

/// Sets the number of the next domain.
pub(crate) const SET_NEXT: &str = "UPDATE meta SET next_number = ?1 WHERE id = 1";

/// Sets a domain's epoch.
pub(crate) const SET_EPOCH: &str = "UPDATE domains SET epoch = ?2 WHERE number = ?1";

/// Drops a domain. Its other rows go with it, by ON DELETE CASCADE; the kit's `sqlite` always enforces
/// foreign keys, which SQLite doesn't by default (Foreign Key Support, 2).
pub(crate) const DROP_DOMAIN: &str = "DELETE FROM domains WHERE number = ?1";

/// Adds a token.
pub(crate) const ADD_TOKEN: &str = "INSERT INTO tokens (number, digest, role) VALUES (?1, ?2, ?3)";

/// Sets the role of a token.
pub(crate) const SET_ROLE: &str = "UPDATE tokens SET role = ?3 WHERE number = ?1 AND digest = ?2";

/// Drops a token.
pub(crate) const DROP_TOKEN: &str = "DELETE FROM tokens WHERE number = ?1 AND digest = ?2";

/// Adds a document, which isn't active.
pub(crate) const ADD_DOCUMENT: &str =
    "INSERT INTO policies (number, kind, id, version, body, active) VALUES (?1, ?2, ?3, ?4, ?5, 0)";

/// Sets whether a document is active.
pub(crate) const SET_ACTIVE: &str =
    "UPDATE policies SET active = ?5 WHERE number = ?1 AND kind = ?2 AND id = ?3 AND version = ?4";

/// Drops a document.
pub(crate) const DROP_DOCUMENT: &str =
    "DELETE FROM policies WHERE number = ?1 AND kind = ?2 AND id = ?3 AND version = ?4";

/// Adds a root.
pub(crate) const ADD_ROOT: &str =
    "INSERT INTO roots (number, kind, id, pattern, earliest, latest) VALUES (?1, ?2, ?3, ?4, ?5, ?6)";

/// Drops the root of a domain, if there is one.
pub(crate) const DROP_ROOT: &str = "DELETE FROM roots WHERE number = ?1";

/// Adds a row of a source, at a place.
pub(crate) const ADD_SOURCE_ROW: &str =
    "INSERT INTO sources (number, place, category, entity, attribute, value_type, value, issuer) VALUES (?1, ?2, ?3, ?4, ?5, ?6, ?7, ?8)";

/// Drops all rows of a domain's source.
pub(crate) const DROP_SOURCE: &str = "DELETE FROM sources WHERE number = ?1";

// ---- The creation of the tables

/// The table of the schema's number and the next domain's.
pub(crate) const CREATE_META: &str =
    "CREATE TABLE meta (id INTEGER PRIMARY KEY, schema_no INTEGER NOT NULL, next_number INTEGER NOT NULL) STRICT";

/// The table of domains.
pub(crate) const CREATE_DOMAINS: &str =
    "CREATE TABLE domains (number INTEGER PRIMARY KEY, name TEXT NOT NULL UNIQUE, epoch INTEGER NOT NULL) STRICT";

/// The table of tokens.
pub(crate) const CREATE_TOKENS: &str =
    "CREATE TABLE tokens (number INTEGER NOT NULL REFERENCES domains (number) ON DELETE CASCADE, digest BLOB NOT NULL, role INTEGER NOT NULL, PRIMARY KEY (number, digest)) STRICT";

/// The table of documents.
pub(crate) const CREATE_POLICIES: &str =
    "CREATE TABLE policies (number INTEGER NOT NULL REFERENCES domains (number) ON DELETE CASCADE, kind INTEGER NOT NULL, id TEXT NOT NULL, version TEXT NOT NULL, body BLOB NOT NULL, active INTEGER NOT NULL, PRIMARY KEY (number, kind, id, version)) STRICT";

/// The table of roots.
pub(crate) const CREATE_ROOTS: &str =
    "CREATE TABLE roots (number INTEGER PRIMARY KEY REFERENCES domains (number) ON DELETE CASCADE, kind INTEGER NOT NULL, id TEXT NOT NULL, pattern TEXT, earliest TEXT, latest TEXT) STRICT";

/// The table of the rows of sources in schema 1, which stays empty.
pub(crate) const CREATE_ATTRIBUTES: &str =
    "CREATE TABLE attributes (number INTEGER NOT NULL REFERENCES domains (number) ON DELETE CASCADE, place INTEGER NOT NULL, category TEXT NOT NULL, entity TEXT NOT NULL, attribute TEXT NOT NULL, value_type INTEGER NOT NULL, value TEXT NOT NULL, PRIMARY KEY (number, place)) STRICT";

/// The table of the rows of sources.
pub(crate) const CREATE_SOURCES: &str =
    "CREATE TABLE sources (number INTEGER NOT NULL REFERENCES domains (number) ON DELETE CASCADE, place INTEGER NOT NULL, category TEXT NOT NULL, entity TEXT NOT NULL, attribute TEXT NOT NULL, value_type INTEGER NOT NULL, value TEXT NOT NULL, issuer TEXT, PRIMARY KEY (number, place)) STRICT";

/// The one row of `meta`: schema 2, and 1 as the number of the next domain.
pub(crate) const ADD_META_ROW: &str =
    "INSERT INTO meta (id, schema_no, next_number) VALUES (1, 2, 1)";

// ---- The migration of tables of schema 1

/// Copies all rows of sources, in the order in which they stood, without issuers.
pub(crate) const COPY_ATTRIBUTES: &str =
    "INSERT INTO sources (number, place, category, entity, attribute, value_type, value, issuer) SELECT number, place, category, entity, attribute, value_type, value, NULL FROM attributes ORDER BY rowid";

/// Drops all rows of the table in which they stood.
pub(crate) const EMPTY_ATTRIBUTES: &str = "DELETE FROM attributes";

/// Sets the schema's number.
pub(crate) const SET_SCHEMA: &str = "UPDATE meta SET schema_no = 2 WHERE id = 1";

// ---- The check of the tables

/// The rows of `meta`.
pub(crate) const META_ROWS: &str = "SELECT id, schema_no, next_number FROM meta ORDER BY id";

/// All domains, by their rowids.
pub(crate) const DOMAIN_ROWS: &str = "SELECT number, name, epoch FROM domains ORDER BY number";

/// All tokens, by their rowids.
pub(crate) const TOKEN_ROWS: &str = "SELECT rowid, number, digest, role FROM tokens ORDER BY rowid";

/// All documents with their texts, by their rowids.
pub(crate) const DOCUMENT_ROWS: &str =
    "SELECT rowid, number, kind, id, version, body, active FROM policies ORDER BY rowid";

/// All roots, by their rowids.
pub(crate) const ROOT_ROWS: &str =
    "SELECT number, kind, id, pattern, earliest, latest FROM roots ORDER BY number";

/// All rows of sources in schema 1, by their rowids.
pub(crate) const ATTRIBUTE_ROWS: &str =
    "SELECT rowid, number, place, category, entity, attribute, value_type, value FROM attributes ORDER BY rowid";

/// All rows of sources in schema 2, by their rowids.
pub(crate) const SOURCE_ROWS: &str =
    "SELECT rowid, number, place, category, entity, attribute, value_type, value, issuer FROM sources ORDER BY rowid";

/// A row, if the domains' rowids don't rise.
pub(crate) const DOMAIN_ORDER: &str =
    "WITH s(n) AS (SELECT rowid FROM domains ORDER BY rowid) SELECT 1 WHERE (SELECT group_concat(rowid) FROM domains) IS NOT (SELECT group_concat(n) FROM s)";

/// A row, if the tokens' rowids don't rise.
pub(crate) const TOKEN_ORDER: &str =
    "WITH s(n) AS (SELECT rowid FROM tokens ORDER BY rowid) SELECT 1 WHERE (SELECT group_concat(rowid) FROM tokens) IS NOT (SELECT group_concat(n) FROM s)";

/// A row, if the documents' rowids don't rise.
pub(crate) const DOCUMENT_ORDER: &str =
    "WITH s(n) AS (SELECT rowid FROM policies ORDER BY rowid) SELECT 1 WHERE (SELECT group_concat(rowid) FROM policies) IS NOT (SELECT group_concat(n) FROM s)";

/// A row, if the roots' rowids don't rise.
pub(crate) const ROOT_ORDER: &str =
    "WITH s(n) AS (SELECT rowid FROM roots ORDER BY rowid) SELECT 1 WHERE (SELECT group_concat(rowid) FROM roots) IS NOT (SELECT group_concat(n) FROM s)";

/// A row, if the rowids of rows of sources in schema 1 don't rise.
pub(crate) const ATTRIBUTE_ORDER: &str =
    "WITH s(n) AS (SELECT rowid FROM attributes ORDER BY rowid) SELECT 1 WHERE (SELECT group_concat(rowid) FROM attributes) IS NOT (SELECT group_concat(n) FROM s)";

/// A row, if the rowids of rows of sources in schema 2 don't rise.
pub(crate) const SOURCE_ORDER: &str =
    "WITH s(n) AS (SELECT rowid FROM sources ORDER BY rowid) SELECT 1 WHERE (SELECT group_concat(rowid) FROM sources) IS NOT (SELECT group_concat(n) FROM s)";

/// The domains and places of the rows of sources in schema 1.
pub(crate) const ATTRIBUTE_PLACES: &str =
    "SELECT number, place FROM attributes ORDER BY number, place";

/// The domains and places of the rows of sources in schema 2.
pub(crate) const SOURCE_PLACES: &str = "SELECT number, place FROM sources ORDER BY number, place";

/// Begins a transaction.
pub(crate) const BEGIN: &str = "BEGIN";

/// Undoes the transaction.
pub(crate) const ROLLBACK: &str = "ROLLBACK";

// ---- The look at a store

/// A text that is no statement: an open store refuses it as such, and takes no memory to do so.
pub(crate) const NO_STATEMENT: &str = "look";
