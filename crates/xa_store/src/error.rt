//! Why a connection can't be opened as a keeper.

use thiserror::Error;

/// Why a connection can't be opened as a keeper of domains.
#[derive(Clone, Copy, Debug, Drop, PartialEq, Eq, Error)]
pub enum OpenError {
    /// Its tables aren't a keeper's, or have a schema that this version doesn't know.
    #[error("the tables are of another schema")]
    NotThisSchema,
    /// A row of the tables is none that a keeper writes, or the rows stand in another order.
    #[error("a row of the tables is damaged")]
    Damaged,
    /// The store failed.
    #[error("the store failed")]
    Store,
    /// There is no memory left.
    #[error("out of memory")]
    Memory,
}
