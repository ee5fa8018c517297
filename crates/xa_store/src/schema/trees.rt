//! The trees of tables and of their automatic indexes. They are numbered from 0 as the tables are made: a
//! table's index comes after it. For definitions `Tables` has the numbers.

/// The tree of `meta`.
pub(crate) const META: u32 = 0;

/// The tree of the domains.
pub(crate) const DOMAINS: u32 = 1;

/// The tree of the index of the domains' names.
pub(crate) const DOMAIN_NAMES: u32 = 2;

/// The tree of the domains' tokens.
pub(crate) const TOKENS: u32 = 3;

/// The tree of the index of the tokens' digests.
pub(crate) const TOKEN_DIGESTS: u32 = 4;

/// The tree of the domains' documents.
pub(crate) const POLICIES: u32 = 5;

/// The tree of the index of the documents' keys.
pub(crate) const POLICY_KEYS: u32 = 6;

/// The tree of the domains' roots.
pub(crate) const ROOTS: u32 = 7;

/// The tree of the rows of sources in schema 1.
pub(crate) const ATTRIBUTES: u32 = 8;

/// The tree of the index of the places in sources of schema 1.
pub(crate) const ATTRIBUTE_PLACES: u32 = 9;

/// The tree of the rows of sources in schema 2.
pub(crate) const SOURCES: u32 = 10;

/// The tree of the index of the places in sources of schema 2.
pub(crate) const SOURCE_PLACES: u32 = 11;
