//! Active documents.
use xa_policy::{DocumentKind, Version};
use xa_value::{Items, Text};

/// An active document, to which a reference may resolve, by its kind, its id and its version alone. A
/// policy or a policy set inside a document isn't one.
#[derive(Debug, Drop)]
pub struct Active {
    /// Whether it is a policy or a policy set.
    pub kind: DocumentKind,
    /// Its id.
    pub id: Text,
    /// Its version.
    pub version: Version,
    /// Its text, which is read if the root leads to it.
    pub text: Items<u8>,
}
