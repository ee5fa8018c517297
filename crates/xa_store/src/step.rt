//! Steps, of which each change is made: a step is one statement. Numbers and epochs are integers here, as
//! columns hold them. An epoch in place of a number would be refused by the step's contract (`Takes`).

pub(crate) mod document;
pub(crate) mod domain;
pub(crate) mod execution;
pub(crate) mod root;
pub(crate) mod source;
pub(crate) mod token;
pub(crate) mod transaction;

use xa_decide::SourceRow;
use xa_notation::Role;
use xa_policy::{DocumentKey, Reference};
use xa_records::Digest;
use xa_value::{Items, Text};

/// The epoch to which a change raises that of a domain.
#[derive(Clone, Copy, Debug)]
pub(crate) struct RaisedEpoch {
    /// The domain's number.
    pub(crate) number: i64,
    /// Its epoch after the change.
    pub(crate) epoch: i64,
}

/// One statement of a change. Each `number` is that of a domain.
#[derive(Debug, Drop)]
pub(crate) enum Step {
    /// Adds a domain of that number and name, with epoch 0.
    AddDomain {
        number: i64,
        name: Text,
    },
    /// Sets the number of the next domain.
    SetNext(i64),
    /// Sets the domain's epoch.
    SetEpoch(RaisedEpoch),
    /// Drops the domain, with all its rows.
    DropDomain(i64),
    /// Adds a token that isn't there, with its role.
    AddToken {
        number: i64,
        digest: Digest,
        role: Role,
    },
    /// Sets the role of a token that is there.
    SetRole {
        number: i64,
        digest: Digest,
        role: Role,
    },
    /// Drops the token.
    DropToken {
        number: i64,
        digest: Digest,
    },
    /// Adds a document that isn't there, with its text. It isn't active.
    AddDocument {
        number: i64,
        key: DocumentKey,
        text: Items<u8>,
    },
    /// Sets whether references may resolve to the document.
    SetActive {
        number: i64,
        key: DocumentKey,
        active: bool,
    },
    /// Drops the document.
    DropDocument {
        number: i64,
        key: DocumentKey,
    },
    /// Adds the root of a domain that has none.
    AddRoot {
        number: i64,
        root: Reference,
    },
    /// Drops the root, if there is one.
    DropRoot(i64),
    /// Adds a row of the source, with its issuer, at a place that has none.
    AddSourceRow {
        number: i64,
        place: i64,
        row: SourceRow,
    },
    /// Drops all rows of the source.
    DropSource(i64),
}
