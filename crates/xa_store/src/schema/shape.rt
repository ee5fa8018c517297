//! The tables that a keeper's store has, and the indexes, with no others beside them. For the proof: a group
//! that is used once, as `are_meta_domains_and_tokens`, is a function, since the prover takes a conjunction
//! of so many parts only in groups.
ghost use Rattle.std.specs.Prelude.{◌≡◌, ◌↔◌, false, [], ◌∷◌, None, Some, IsTrue};
ghost use Rattle.xa_store.specs.Opened.{schema_of};
ghost use Rattle.xa_store.specs.Opening.{has_room, is_free, no_tables, schema_version_in};
ghost use Rattle.xa_store.specs.Tables.{attributes, domains, meta, of_domain, policies, rising};
ghost use Rattle.xa_store.specs.Tables.{roots, schema_1, schema_2, sources, tokens};

use crate::schema::columns::{
    are_attribute_columns, are_domain_columns, are_meta_columns, are_policy_columns,
    are_root_columns, are_source_columns, are_token_columns, is_named,
};
use crate::schema::indexes::{are_indexes_of_schema_1, are_indexes_of_schema_2};
use crate::schema::trees;
use crate::schema::version::SchemaVersion;
use sqlite_items::Items;
use sqlite_schema::schema::{Action, Reference, Schema, Stamps, Table};
use sqlite_value::keys::Order;
use sqlite_value::value::Bytes;

/// Whether it is this one place.
fn is_place(places: &[usize], place: usize) -> bool
    ensures { IsTrue result ↔ (places.now ≡ place ∷ []) }
{
    match places {
        [one] => *one == place,
        _ => false,
    }
}

/// Whether it is this one name.
fn is_name(names: &[Bytes], name: &str) -> bool
    ensures { IsTrue result ↔ (names.now ≡ name.now ∷ []) }
{
    match names {
        [one] => is_named(one, name),
        _ => false,
    }
}

/// Whether the reference goes from that column to a domain's number, and the row with its domain.
fn is_domain_reference(reference: &Reference, column: usize) -> bool
    ensures { IsTrue result ↔ (reference.now ≡ record of_domain { columns = column ∷ [] }) }
{
    is_place(reference.columns.as_slice(), column)
        && is_named(&reference.parent, "domains")
        && is_name(reference.parent_columns.as_slice(), "number")
        && reference.on_delete == Action::Cascade
        && reference.on_update == Action::NoAction
        && !reference.is_deferred
}

/// Whether it is one reference, from that column to a domain's number.
fn is_one_domain_reference(references: &[Reference], column: usize) -> bool
    ensures { IsTrue result ↔ (references.now ≡ record of_domain { columns = column ∷ [] } ∷ []) }
{
    match references {
        [one] => is_domain_reference(one, column),
        _ => false,
    }
}

/// Whether the table has that name and tree.
fn is_titled(table: &Table, name: &str, tree: u32) -> bool
    ensures { IsTrue result ↔ ((table.now.name ≡ name.now) × (table.now.tree ≡ tree)) }
{
    is_named(&table.name, name) && table.tree == tree
}

/// Whether no column of the table reads the time.
fn is_timeless(stamps: &Stamps) -> bool
    ensures { IsTrue result ↔ (stamps.now ≡ record { places = []; terms = []; formats = [] }) }
{
    stamps.places.is_empty() && stamps.terms.roots.is_empty() && stamps.formats.is_empty()
}

/// Whether the table has no check, no computed default and no counter.
fn is_bare(table: &Table) -> bool
    ensures { IsTrue result
        ↔ ((table.now.checks ≡ []) × (table.now.computed ≡ [])
        × (table.now.stamps ≡ record { places = []; terms = []; formats = [] })
        × (table.now.is_counted ≡ false)) }
{
    table.checks.roots.is_empty()
        && table.computed.is_empty()
        && is_timeless(&table.stamps)
        && !table.is_counted
}

/// Whether the table has that name and tree, and no check, no computed default and no counter.
fn is_plain(table: &Table, name: &str, tree: u32) -> bool
    ensures { IsTrue result
        ↔ (((table.now.name ≡ name.now) × (table.now.tree ≡ tree))
        × ((table.now.checks ≡ []) × (table.now.computed ≡ [])
        × (table.now.stamps ≡ record { places = []; terms = []; formats = [] })
        × (table.now.is_counted ≡ false))) }
{
    is_titled(table, name, tree) && is_bare(table)
}

/// Whether the first column is the row's own key.
fn has_own_key(table: &Table) -> bool
    ensures { IsTrue result ↔ ((table.now.key ≡ Some 0) × (table.now.primary ≡ 0 ∷ [])) }
{
    table.key == Some(0) && is_place(table.primary.as_slice(), 0)
}

/// Whether the places are these.
fn are_places(all: &Items<usize>, places: &[usize]) -> bool
    ensures { IsTrue result ↔ (all.now ≡ places.now) }
{
    all.as_slice() == places
}

/// Whether it is the one key of these places.
fn is_one_key(keys: &[Items<usize>], places: &[usize]) -> bool
    ensures { IsTrue result ↔ (keys.now ≡ places.now ∷ []) }
{
    match keys {
        [one] => are_places(one, places),
        _ => false,
    }
}

/// Whether it is one order, which rises.
fn is_one_order(orders: &[Order]) -> bool
    ensures { IsTrue result ↔ (orders.now ≡ rising ∷ []) }
{
    match orders {
        [order] => order.digits == 0,
        _ => false,
    }
}

/// Whether these columns alone have to be unique, in rising order.
fn has_unique(table: &Table, places: &[usize]) -> bool
    ensures { IsTrue result ↔ ((table.now.uniques ≡ places.now ∷ []) × (table.now.orders ≡ rising ∷ [])) }
{
    is_one_key(table.uniques.as_slice(), places) && is_one_order(table.orders.as_slice())
}

/// Whether no columns have to be unique but the row's own key.
fn has_no_unique(table: &Table) -> bool
    ensures { IsTrue result ↔ ((table.now.uniques ≡ []) × (table.now.orders ≡ [])) }
{
    table.uniques.is_empty() && table.orders.is_empty()
}

/// Whether the table's key is these columns, and its rows are of domains.
fn has_domain_key(table: &Table, places: &[usize]) -> bool
    ensures { IsTrue result
        ↔ ((table.now.key ≡ None) × (table.now.primary ≡ places.now) × (table.now.uniques ≡ places.now ∷ [])
        × (table.now.orders ≡ rising ∷ []) × (table.now.references ≡ of_domain ∷ [])) }
{
    table.key.is_none()
        && table.primary.as_slice() == places
        && has_unique(table, places)
        && is_one_domain_reference(table.references.as_slice(), 1)
}

/// Whether it is the table of the schema's number and the next domain's.
fn is_meta(table: &Table) -> bool
    ensures { IsTrue result ↔ (table.now ≡ meta) }
{
    is_plain(table, "meta", trees::META)
        && are_meta_columns(table.columns.as_slice())
        && has_own_key(table)
        && has_no_unique(table)
        && table.references.is_empty()
}

/// Whether it is the table of domains.
fn is_domains(table: &Table) -> bool
    ensures { IsTrue result ↔ (table.now ≡ domains) }
{
    is_plain(table, "domains", trees::DOMAINS)
        && are_domain_columns(table.columns.as_slice())
        && has_own_key(table)
        && has_unique(table, &[2])
        && table.references.is_empty()
}

/// Whether it is the table of the domains' tokens.
fn is_tokens(table: &Table) -> bool
    ensures { IsTrue result ↔ (table.now ≡ tokens) }
{
    is_plain(table, "tokens", trees::TOKENS)
        && are_token_columns(table.columns.as_slice())
        && has_domain_key(table, &[1, 2])
}

/// Whether it is the table of the domains' documents.
fn is_policies(table: &Table) -> bool
    ensures { IsTrue result ↔ (table.now ≡ policies) }
{
    is_plain(table, "policies", trees::POLICIES)
        && are_policy_columns(table.columns.as_slice())
        && has_domain_key(table, &[1, 2, 3, 4])
}

/// Whether it is the table of the domains' roots.
fn is_roots(table: &Table) -> bool
    ensures { IsTrue result ↔ (table.now ≡ roots) }
{
    is_plain(table, "roots", trees::ROOTS)
        && are_root_columns(table.columns.as_slice())
        && has_own_key(table)
        && has_no_unique(table)
        && is_one_domain_reference(table.references.as_slice(), 0)
}

/// Whether it is the table of the rows of the domains' sources in schema 1.
fn is_attributes(table: &Table) -> bool
    ensures { IsTrue result ↔ (table.now ≡ attributes) }
{
    is_plain(table, "attributes", trees::ATTRIBUTES)
        && are_attribute_columns(table.columns.as_slice())
        && has_domain_key(table, &[1, 2])
}

/// Whether it is the table of the rows of the domains' sources in schema 2.
fn is_sources(table: &Table) -> bool
    ensures { IsTrue result ↔ (table.now ≡ sources) }
{
    is_plain(table, "sources", trees::SOURCES)
        && are_source_columns(table.columns.as_slice())
        && has_domain_key(table, &[1, 2])
}

/// Whether they are the tables `meta`, of domains and of their tokens.
fn are_meta_domains_and_tokens(first: &Table, second: &Table, third: &Table) -> bool
    ensures { IsTrue result ↔ ((first.now ≡ meta) × (second.now ≡ domains) × (third.now ≡ tokens)) }
{
    is_meta(first) && is_domains(second) && is_tokens(third)
}

/// Whether they are the tables of documents, of roots and of the rows of sources in schema 1.
fn are_policies_roots_and_attributes(first: &Table, second: &Table, third: &Table) -> bool
    ensures { IsTrue result ↔ ((first.now ≡ policies) × (second.now ≡ roots) × (third.now ≡ attributes)) }
{
    is_policies(first) && is_roots(second) && is_attributes(third)
}

/// Whether they are the tables of schema 1, and no others.
fn are_tables_of_schema_1(all: &[Table]) -> bool
    ensures { IsTrue result ↔ (all.now ≡ schema_1.tables) }
{
    match all {
        [meta, domains, tokens, policies, roots, attributes] => {
            are_meta_domains_and_tokens(meta, domains, tokens)
                && are_policies_roots_and_attributes(policies, roots, attributes)
        }
        _ => false,
    }
}

/// Whether they are the tables of schema 2, and no others.
fn are_tables_of_schema_2(all: &[Table]) -> bool
    ensures { IsTrue result ↔ (all.now ≡ schema_2.tables) }
{
    match all {
        [meta, domains, tokens, policies, roots, attributes, sources] => {
            are_meta_domains_and_tokens(meta, domains, tokens)
                && are_policies_roots_and_attributes(policies, roots, attributes)
                && is_sources(sources)
        }
        _ => false,
    }
}

/// Whether the schema has the tables of schema 1 and nothing else.
fn is_schema_1(schema: &Schema) -> bool
    ensures { IsTrue result ↔ (schema.now ≡ schema_1) }
{
    are_tables_of_schema_1(schema.tables.as_slice())
        && are_indexes_of_schema_1(schema.indexes.as_slice())
        && schema.views.is_empty()
}

/// Whether the schema has the tables of a keeper and nothing else.
pub(crate) fn is_schema_2(schema: &Schema) -> bool
    ensures { IsTrue result ↔ (schema.now ≡ schema_2) }
{
    are_tables_of_schema_2(schema.tables.as_slice())
        && are_indexes_of_schema_2(schema.indexes.as_slice())
        && schema.views.is_empty()
}

/// Whether nothing is in the schema.
pub(crate) fn is_blank(schema: &Schema) -> bool
    ensures { IsTrue result ↔ (schema.now ≡ no_tables) }
{
    schema.tables.is_empty() && schema.indexes.is_empty() && schema.views.is_empty()
}

/// Whether it is that schema, and nothing else is in it.
pub(crate) fn has_schema(version: SchemaVersion, schema: &Schema) -> bool
    ensures { IsTrue result ↔ (schema.now ≡ schema_of version) }
{
    match version {
        SchemaVersion::Schema1 => is_schema_1(schema),
        SchemaVersion::Schema2 => is_schema_2(schema),
    }
}

/// Whether no table, index or view has that name. Names that differ in the case of letters alone are one.
fn is_free(schema: &Schema, name: &str) -> bool
    ensures { result ≡ is_free schema.now name.now }
{
    let name = name.as_bytes();
    schema.table_named(name).is_none()
        && schema.index_named(name).is_none()
        && schema.view_named(name).is_none()
}

/// Whether no name of a keeper's tables is taken.
pub(crate) fn has_room(schema: &Schema) -> bool
    ensures { result ≡ has_room schema.now }
{
    is_free(schema, "meta")
        && is_free(schema, "domains")
        && is_free(schema, "tokens")
        && is_free(schema, "policies")
        && is_free(schema, "roots")
        && is_free(schema, "attributes")
        && is_free(schema, "sources")
}

/// Which schema it is, if it has a keeper's tables.
pub(crate) fn schema_version_in(schema: &Schema) -> SchemaVersion
    ensures { result ≡ schema_version_in schema.now }
{
    if is_free(schema, "sources") {
        SchemaVersion::Schema1
    } else {
        SchemaVersion::Schema2
    }
}
