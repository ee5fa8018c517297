//! A document as it is listed.
use xa_policy::DocumentKey;

/// What a list of documents tells of one.
#[derive(Debug, Drop)]
pub struct Listed {
    /// Its kind, id and version.
    pub key: DocumentKey,
    /// Whether references may resolve to it.
    pub active: bool,
}
