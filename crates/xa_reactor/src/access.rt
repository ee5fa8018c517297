//! At which address a connection came, and so what may be asked for on it.

/// At which address a connection came.
#[derive(Clone, Copy, Debug, PartialEq, Eq)]
pub enum Access {
    /// At the only one. Each message is served.
    All,
    /// At the first of two. A message that asks for a change is turned away.
    Asks,
    /// At that for changes. Each message is served.
    Changes,
}
