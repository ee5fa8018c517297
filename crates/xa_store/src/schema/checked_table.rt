//! The tables whose rows are checked one by one when a store is opened, each by two queries.
ghost use Rattle.std.specs.Prelude.{◌≡◌};
ghost use Rattle.xa_store.specs.keeping.Check.{order_query, rows_query};

use crate::sql;

/// A table whose rows are checked one by one: each but `meta`.
#[derive(Clone, Copy, Debug)]
pub(crate) enum CheckedTable {
    /// The domains, by their numbers.
    Domains,
    /// The digests of their tokens.
    Tokens,
    /// Their documents, with the bodies.
    Documents,
    /// Their roots.
    Roots,
    /// The rows of their sources in schema 1.
    Attributes,
    /// The rows of their sources in schema 2.
    Sources,
}

impl CheckedTable {
    /// The query of all rows of the table, in the order of their rowids. A bare column of a row's own
    /// key is its rowid.
    pub(crate) fn rows_query(self) -> &'static str
        ensures { result.now ≡ rows_query self }
    {
        match self {
            CheckedTable::Domains => sql::DOMAIN_ROWS,
            CheckedTable::Tokens => sql::TOKEN_ROWS,
            CheckedTable::Documents => sql::DOCUMENT_ROWS,
            CheckedTable::Roots => sql::ROOT_ROWS,
            CheckedTable::Attributes => sql::ATTRIBUTE_ROWS,
            CheckedTable::Sources => sql::SOURCE_ROWS,
        }
    }

    /// The query that shows a row exactly if the table has its rowids in another order than the rising
    /// one. That they rise is what the order of the table's rows rests on, and of what a query shows
    /// only an aggregate tells the order in which a table has its rows. It makes two texts of all
    /// rowids, and its cost grows as that of sorting them.
    pub(crate) fn order_query(self) -> &'static str
        ensures { result.now ≡ order_query self }
    {
        match self {
            CheckedTable::Domains => sql::DOMAIN_ORDER,
            CheckedTable::Tokens => sql::TOKEN_ORDER,
            CheckedTable::Documents => sql::DOCUMENT_ORDER,
            CheckedTable::Roots => sql::ROOT_ORDER,
            CheckedTable::Attributes => sql::ATTRIBUTE_ORDER,
            CheckedTable::Sources => sql::SOURCE_ORDER,
        }
    }
}
