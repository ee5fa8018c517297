//! The columns of queries, by the places at which they are shown. For definitions `ShownColumns` has the
//! numbers.

/// The columns of a domain, as `sql::SHOW_DOMAIN` shows them.
pub(crate) mod found_domain {
    pub(crate) const NUMBER: usize = 0;

    pub(crate) const EPOCH: usize = 1;
}

/// The column of a domain's name, as `sql::SHOW_DOMAIN_NAMES` shows it.
pub(crate) mod name_row {
    pub(crate) const NAME: usize = 0;
}

/// The column of the number of the next domain, as `sql::SHOW_NEXT_NUMBER` shows it.
pub(crate) mod next_row {
    pub(crate) const NEXT_NUMBER: usize = 0;
}

/// The column of a token's role, as `sql::SHOW_ROLE` shows it.
pub(crate) mod role_row {
    pub(crate) const ROLE: usize = 0;
}

/// The columns of a token, as `sql::SHOW_TOKENS` shows them.
pub(crate) mod token_row {
    pub(crate) const DIGEST: usize = 0;

    pub(crate) const ROLE: usize = 1;
}

/// The columns of a document that was found by its key, as `sql::SHOW_DOCUMENT` shows them.
pub(crate) mod found_document {
    pub(crate) const BODY: usize = 0;

    pub(crate) const ACTIVE: usize = 1;
}

/// The columns of a document's key, as `sql::SHOW_DOCUMENTS` and `sql::SHOW_ACTIVE_DOCUMENTS` show them
/// first.
pub(crate) mod document_key {
    pub(crate) const KIND: usize = 0;

    pub(crate) const ID: usize = 1;

    pub(crate) const VERSION: usize = 2;
}

/// The column after the key, as `sql::SHOW_DOCUMENTS` shows it.
pub(crate) mod listed {
    pub(crate) const ACTIVE: usize = 3;
}

/// The column after the key, as `sql::SHOW_ACTIVE_DOCUMENTS` shows it.
pub(crate) mod active_text {
    pub(crate) const BODY: usize = 3;
}

/// The columns of a root, as `sql::SHOW_ROOT` shows them.
pub(crate) mod root_row {
    pub(crate) const KIND: usize = 0;

    pub(crate) const ID: usize = 1;

    pub(crate) const PATTERN: usize = 2;

    pub(crate) const EARLIEST: usize = 3;

    pub(crate) const LATEST: usize = 4;
}

/// The columns of a row of a source, as `sql::SHOW_SOURCE` shows them.
pub(crate) mod source_row {
    pub(crate) const CATEGORY: usize = 0;

    pub(crate) const ENTITY: usize = 1;

    pub(crate) const ATTRIBUTE: usize = 2;

    pub(crate) const VALUE_TYPE: usize = 3;

    pub(crate) const VALUE: usize = 4;

    pub(crate) const ISSUER: usize = 5;
}
