//! The result of an upload.

/// Whether an upload has added a document.
#[derive(Clone, Copy, Debug, PartialEq, Eq)]
pub enum Upload {
    /// The document is new, and not active.
    New,
    /// It was there already with this text. Nothing has changed.
    Same,
}
