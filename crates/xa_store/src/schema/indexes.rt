//! The automatic indexes of a keeper's tables, with no others beside them. For the proof: a group that is
//! used once, as `are_name_and_digest_indexes`, is a function, since the prover takes a conjunction of so
//! many parts only in groups.
ghost use Rattle.std.specs.Prelude.{◌≡◌, ◌↔◌, [], ◌∷◌, IsTrue, codes};
ghost use Rattle.xa_store.specs.Tables.{index_of, indexes_of_schema_1, indexes_of_schema_2};

use crate::schema::columns::is_named;
use crate::schema::trees;
use sqlite_schema::schema::Index;
use sqlite_value::keys::Order;

/// Whether the index is the automatic one of that name, over these columns of the table.
fn is_index(index: &Index, name: &str, tree: u32, table: u32, columns: &[usize]) -> bool
    ensures { IsTrue result ↔ (index.now ≡ index_of name.now tree table columns.now) }
{
    is_named(&index.name, name)
        && index.tree == tree
        && index.table == table
        && index.columns.as_slice() == columns
        && index.order == Order::PLAIN
        && index.is_unique
}

/// Whether they are the indexes of the domains' names and of the tokens' digests.
fn are_name_and_digest_indexes(names: &Index, digests: &Index) -> bool
    ensures { IsTrue result
        ↔ ((names.now ≡ index_of (codes "sqlite_autoindex_domains_1") 2 1 (2 ∷ []))
        × (digests.now ≡ index_of (codes "sqlite_autoindex_tokens_1") 4 3 (1 ∷ 2 ∷ []))) }
{
    is_index(
        names,
        "sqlite_autoindex_domains_1",
        trees::DOMAIN_NAMES,
        trees::DOMAINS,
        &[2],
    ) && is_index(
        digests,
        "sqlite_autoindex_tokens_1",
        trees::TOKEN_DIGESTS,
        trees::TOKENS,
        &[1, 2],
    )
}

/// Whether they are the indexes of the documents' keys and of the places in sources of schema 1.
fn are_key_and_place_indexes(keys: &Index, places: &Index) -> bool
    ensures { IsTrue result
        ↔ ((keys.now ≡ index_of (codes "sqlite_autoindex_policies_1") 6 5 (1 ∷ 2 ∷ 3 ∷ 4 ∷ []))
        × (places.now ≡ index_of (codes "sqlite_autoindex_attributes_1") 9 8 (1 ∷ 2 ∷ []))) }
{
    is_index(
        keys,
        "sqlite_autoindex_policies_1",
        trees::POLICY_KEYS,
        trees::POLICIES,
        &[1, 2, 3, 4],
    ) && is_index(
        places,
        "sqlite_autoindex_attributes_1",
        trees::ATTRIBUTE_PLACES,
        trees::ATTRIBUTES,
        &[1, 2],
    )
}

/// Whether they are the indexes of schema 1, and no others.
pub(crate) fn are_indexes_of_schema_1(all: &[Index]) -> bool
    ensures { IsTrue result ↔ (all.now ≡ indexes_of_schema_1) }
{
    match all {
        [names, digests, keys, places] => {
            are_name_and_digest_indexes(names, digests) && are_key_and_place_indexes(keys, places)
        }
        _ => false,
    }
}

/// Whether they are the indexes of schema 2, and no others.
pub(crate) fn are_indexes_of_schema_2(all: &[Index]) -> bool
    ensures { IsTrue result ↔ (all.now ≡ indexes_of_schema_2) }
{
    match all {
        [names, digests, keys, places, sources] => {
            are_name_and_digest_indexes(names, digests)
                && are_key_and_place_indexes(keys, places)
                && is_index(
                    sources,
                    "sqlite_autoindex_sources_1",
                    trees::SOURCE_PLACES,
                    trees::SOURCES,
                    &[1, 2],
                )
        }
        _ => false,
    }
}
