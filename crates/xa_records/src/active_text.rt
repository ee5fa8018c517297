//! The text of an active document.
use xa_policy::DocumentKey;
use xa_value::Items;

/// The text of an active document, with its key.
#[derive(Debug, Drop)]
pub struct ActiveText {
    /// The document's key.
    pub key: DocumentKey,
    /// Its text, as it was uploaded.
    pub text: Items<u8>,
}
