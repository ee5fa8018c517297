//! Documents: policies and policy sets whose expressions are checked.
ghost use Rattle.std.specs.Prelude.{◌≡◌, nat_lt, length, IfOk, IsTrue};
ghost use Rattle.xa_value.specs.Gives.{Gives, answered};
ghost use Rattle.xa_notation.specs.Document.{document_as_written, document_of, or_ill_typed, typed_document};
ghost use Rattle.xa_notation.specs.Typing.{typed_tree as tree_typed};

use crate::document_shape::written_document;
use crate::json::json;
use crate::notation_error::NotationError;
use crate::typing::typed_tree;
use crate::written::{WrittenDocument, WrittenTree};
use std::alloc::{AllocError, Global};
use xa_policy::{DocumentKey, DocumentKind, Policy, PolicySet, Reference, Version};
use xa_value::{Items, OrMemory, Shared, Text, map_error};

/// The most bytes of a document: a bound of this project's own.
const MAX_DOCUMENT_BYTES: usize = 65_536;

/// A document, or a part of one. Its expressions are checked. Policies, and policy sets without their
/// children, can be shared.
#[derive(Debug, Drop)]
pub enum Document {
    /// A policy.
    Policy(Shared<Policy>),
    /// A policy set, with its children in order.
    PolicySet(Shared<PolicySet>, Items<Document>),
    /// A reference, as a child of a policy set.
    Reference(Reference),
}

/// What a text says: a policy or a policy set with its id and version.
#[derive(Debug, Drop)]
pub struct Parsed {
    kind: DocumentKind,
    id: Text,
    version: Version,
    document: Document,
}

impl Parsed {
    /// The document that the text is (XACML 3.0, core, section 5), or its first fault: TooLarge of more
    /// than 65,536 bytes, then NotJson, then those of its shape from the outside to the inside, and then
    /// IllTyped.
    #[tactic(auto, unfolding(crate::specs::Document::document_of))]
    pub fn read(alloc: Global, text: &[u8]) -> Result<Parsed, OrMemory<NotationError>>
        ensures value { Gives result (document_of text.now) }
        ensures exact { IsTrue (nat_lt 65_536 (length text.now)) → result ≡ answered (document_of text.now) }
    {
        if text.len() > MAX_DOCUMENT_BYTES {
            return Err(NotationError::TooLarge.into());
        }
        typed_document(alloc, document_as_written(alloc, text)?)
    }

    /// Whether the document is a policy or a policy set.
    pub fn kind(&self) -> DocumentKind
        ensures { result ≡ self.now.kind }
    {
        self.kind
    }

    /// The document's id.
    pub fn id(&self) -> &Text
        ensures { result.now ≡ self.now.id }
    {
        &self.id
    }

    /// The document's version.
    pub fn version(&self) -> &Version
        ensures { result.now ≡ self.now.version }
    {
        &self.version
    }

    /// The document's key.
    pub fn key(&self) -> Result<DocumentKey, AllocError>
        ensures { IfOk result (λ key.
            key ≡ record { kind = self.now.kind; id = self.now.id; version = self.now.version }) }
    {
        Ok(DocumentKey {
            kind: self.kind,
            id: self.id.clone()?,
            version: self.version,
        })
    }

    /// The policy, or the policy set with its children.
    pub fn document(&self) -> &Document
        ensures { result.now ≡ self.now.document }
    {
        &self.document
    }
}

/// The document as the text writes it. Its JSON isn't kept.
fn document_as_written(
    alloc: Global,
    text: &[u8],
) -> Result<WrittenDocument, OrMemory<NotationError>>
    ensures { Gives result (document_as_written text.now) }
{
    let value = json(alloc, text)?;
    written_document(alloc, &value)
}

/// The typed tree of the document; the fault is IllTyped.
fn tree_or_ill_typed(alloc: Global, tree: WrittenTree) -> Result<Document, OrMemory<NotationError>>
    ensures { Gives result (or_ill_typed (tree_typed tree)) }
{
    map_error(typed_tree(alloc, tree), NotationError::IllTyped)
}

/// The typed document.
fn typed_document(
    alloc: Global,
    written: WrittenDocument,
) -> Result<Parsed, OrMemory<NotationError>>
    ensures { Gives result (typed_document written) }
{
    let WrittenDocument { key, tree } = written;
    let document = tree_or_ill_typed(alloc, tree)?;
    let DocumentKey { kind, id, version } = key;
    Ok(Parsed {
        kind,
        id,
        version,
        document,
    })
}
