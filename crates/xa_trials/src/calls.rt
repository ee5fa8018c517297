//! The calls of a keeper.

/// A call of a keeper: a method of `Records` that may fail. It is shown by its name here.
#[derive(Clone, Copy, Debug, PartialEq, Eq)]
pub enum Call {
    /// Reads a domain's number, epoch and tokens.
    Gate,
    /// Reads what decides in a domain.
    View,
    /// Reads the text of a document.
    Document,
    /// Reads the keys of a domain's documents.
    List,
    /// Reads the names of all domains.
    Domains,
    /// Makes a domain.
    Create,
    /// Removes a domain.
    Remove,
    /// Adds a token, or gives it another role.
    PutToken,
    /// Takes a token away.
    DropToken,
    /// Adds a document.
    Upload,
    /// Makes a document active, or inactive.
    SetActive,
    /// Deletes a document.
    Delete,
    /// Sets the root, or takes it away.
    SetRoot,
    /// Replaces the rows of the source of attributes.
    SetSource,
}

/// All calls, in the order of the trait's methods. Each has to stand here: one that is left out isn't
/// counted, and nothing tells.
pub const CALLS: [Call; 14] = [
    Call::Gate,
    Call::View,
    Call::Document,
    Call::List,
    Call::Domains,
    Call::Create,
    Call::Remove,
    Call::PutToken,
    Call::DropToken,
    Call::Upload,
    Call::SetActive,
    Call::Delete,
    Call::SetRoot,
    Call::SetSource,
];
