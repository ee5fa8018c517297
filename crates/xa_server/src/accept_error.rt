//! Why no further connection is given.

/// Why no further connection is given.
#[derive(Clone, Copy, Debug, PartialEq, Eq)]
pub enum AcceptError {
    /// Taking one failed.
    Failed,
    /// There was no memory for it.
    Memory,
}
