//! The two schemas of a keeper's tables, and what differs between them.
ghost use Rattle.std.specs.Prelude.{◌≡◌};
ghost use Rattle.xa_store.specs.keeping.Check.{places_query};
ghost use Rattle.xa_store.specs.Opened.{number_of, sources_in};

use crate::schema::checked_table::CheckedTable;
use crate::sql;

/// A schema of a keeper's tables.
#[derive(Clone, Copy, Debug)]
pub(crate) enum SchemaVersion {
    /// The rows of sources stand in the table `attributes`, without issuers.
    Schema1,
    /// They stand in the table `sources`, with their issuers, and `attributes` has no row.
    Schema2,
}

impl SchemaVersion {
    /// The number that `meta` has for it.
    pub(crate) fn number(self) -> i64
        ensures { result ≡ number_of self }
    {
        match self {
            SchemaVersion::Schema1 => 1,
            SchemaVersion::Schema2 => 2,
        }
    }

    /// The table that has the rows of sources.
    pub(crate) fn sources(self) -> CheckedTable
        ensures { result ≡ sources_in self }
    {
        match self {
            SchemaVersion::Schema1 => CheckedTable::Attributes,
            SchemaVersion::Schema2 => CheckedTable::Sources,
        }
    }

    /// The query of the domains and places of the rows of sources, domain by domain, in the order of
    /// the places.
    pub(crate) fn places_query(self) -> &'static str
        ensures { result.now ≡ places_query self }
    {
        match self {
            SchemaVersion::Schema1 => sql::ATTRIBUTE_PLACES,
            SchemaVersion::Schema2 => sql::SOURCE_PLACES,
        }
    }
}

/// What a check of tables goes by.
#[derive(Clone, Copy, Debug)]
pub(crate) struct Checking {
    /// Their schema.
    pub(crate) version: SchemaVersion,
    /// The number of the next domain.
    pub(crate) next_domain: i64,
}
