//! The columns that the queries of the check show, by the places at which they show them. For definitions
//! `CheckedColumns` has the numbers.

/// The column of the rowid, which each query of rows shows first.
pub(crate) const ROWID: usize = 0;

/// The columns of `meta`, as `sql::META_ROWS` shows them.
pub(crate) mod meta {
    pub(crate) const ID: usize = 0;

    pub(crate) const SCHEMA: usize = 1;

    pub(crate) const NEXT: usize = 2;
}

/// The columns of a domain, as `CheckedTable::Domains` shows them.
pub(crate) mod domain {
    pub(crate) const NUMBER: usize = 0;

    pub(crate) const NAME: usize = 1;

    pub(crate) const EPOCH: usize = 2;
}

/// The columns of a token, as `CheckedTable::Tokens` shows them.
pub(crate) mod token {
    pub(crate) const NUMBER: usize = 1;

    pub(crate) const DIGEST: usize = 2;

    pub(crate) const ROLE: usize = 3;
}

/// The columns of a document, as `CheckedTable::Documents` shows them.
pub(crate) mod document {
    pub(crate) const NUMBER: usize = 1;

    pub(crate) const KIND: usize = 2;

    pub(crate) const ID: usize = 3;

    pub(crate) const VERSION: usize = 4;

    pub(crate) const BODY: usize = 5;

    pub(crate) const ACTIVE: usize = 6;
}

/// The columns of a root, as `CheckedTable::Roots` shows them.
pub(crate) mod root {
    pub(crate) const NUMBER: usize = 0;

    pub(crate) const KIND: usize = 1;

    pub(crate) const ID: usize = 2;

    pub(crate) const PATTERN: usize = 3;

    pub(crate) const EARLIEST: usize = 4;

    pub(crate) const LATEST: usize = 5;
}

/// The columns of a row of a source, as `CheckedTable::Attributes` and `CheckedTable::Sources` show them;
/// the former has no issuer.
pub(crate) mod source {
    pub(crate) const NUMBER: usize = 1;

    pub(crate) const CATEGORY: usize = 3;

    pub(crate) const ENTITY: usize = 4;

    pub(crate) const ATTRIBUTE: usize = 5;

    pub(crate) const VALUE_TYPE: usize = 6;

    pub(crate) const VALUE: usize = 7;

    pub(crate) const ISSUER: usize = 8;
}

/// The columns of the place of a row of a source, as `SchemaVersion::places_query` shows them.
pub(crate) mod source_place {
    pub(crate) const NUMBER: usize = 0;

    pub(crate) const PLACE: usize = 1;
}
