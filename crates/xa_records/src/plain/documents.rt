//! The documents of a domain, in memory.
ghost use Rattle.std.specs.Prelude.{◌≡◌, ℕ, List, false, map, nat_lt, filter};
ghost use Rattle.std.specs.Prelude.{IfOk, OnOk, OnErr, Some, None, option_map};
ghost use Rattle.std.specs.FinMap.{contains_key, empty, entries, get, insert, len, remove};
ghost use Rattle.xa_records.specs.DomainState.{StoredDocument};
ghost use Rattle.xa_records.specs.Plain.{with_activity};
ghost use Rattle.xa_records.specs.Readings.{active_among, listed_of};

use crate::active_text::ActiveText;
use crate::limits::MAX_DOCUMENTS;
use crate::listed::Listed;
use std::alloc::{AllocError, Global};
use std::collections::BTreeMap;
use std::marker::Model;
use xa_policy::DocumentKey;
use xa_value::Items;

/// A document, without its key.
#[derive(Drop)]
pub(crate) struct Document {
    /// The text, as it was uploaded.
    text: Items<u8>,
    /// Whether references may resolve to it.
    active: bool,
}

impl Model for Document {
    ghost use Rattle.std.specs.Coded.{codes};
    ghost use Rattle.xa_records.specs.DomainState.{StoredDocument};

    ghost Value = { StoredDocument };

    ghost coded = { Prim.hlevel codes };

    ghost view = { λ d. record { text = d.text; active = d.active } };
}

impl Document {
    /// A document with a copy of the text, not active.
    pub(crate) fn new(alloc: Global, text: &[u8]) -> Result<Document, AllocError>
        ensures { IfOk result (λ d. d ≡ record { text = text.now; active = false }) }
    {
        Ok(Document {
            text: copy_of(alloc, text)?,
            active: false,
        })
    }

    /// The text.
    pub(crate) fn text(&self) -> &[u8]
        ensures { result.now ≡ self.now.text }
    {
        self.text.as_slice()
    }

    /// Whether the document is active.
    pub(crate) fn is_active(&self) -> bool
        ensures { result ≡ self.now.active }
    {
        self.active
    }

    /// Makes the document active or inactive.
    fn set_active(&mut self, active: bool)
        ensures { self.new ≡ record { text = self.old.text; active = active } }
    {
        self.active = active;
    }
}

/// The documents of a domain.
#[derive(Drop)]
pub(crate) struct Documents {
    /// The documents by their keys.
    documents: BTreeMap<DocumentKey, Document>,
}

impl Model for Documents {
    ghost use Rattle.std.specs.Coded.{codes};
    ghost use Rattle.std.specs.FinMap as finite;
    ghost use Rattle.xa_policy.specs.contracts.document_key.DocumentKey as key;
    ghost use Rattle.xa_policy.specs.DocumentKey.{compare_keys};
    ghost use Rattle.xa_records.specs.DomainState.{StoredDocument};

    ghost Value = { finite.FinMap compare_keys StoredDocument };

    ghost coded = { finite.code key.the_row.coded (Prim.hlevel codes) };

    ghost view = { λ d. finite.from_entries d.documents.entries };
}

impl Documents {
    /// No documents. Nothing is allocated.
    pub(crate) fn new(alloc: Global) -> Documents
        ensures { result ≡ empty }
    {
        Documents {
            documents: BTreeMap::new(alloc),
        }
    }

    /// The document of that key.
    pub(crate) fn get(&self, key: &DocumentKey) -> Option<&Document>
        ensures { option_map (λ d. d.now) result ≡ get self.now key.now }
    {
        self.documents.get(key)
    }

    /// Whether one more document may be added.
    pub(crate) fn has_room(&self) -> bool
        ensures { result ≡ nat_lt (len self.now) 1_024 }
    {
        self.len() < MAX_DOCUMENTS
    }

    /// How many documents there are.
    fn len(&self) -> usize
        ensures { result ≡ len self.now }
    {
        self.documents.len()
    }

    /// Adds a document, or replaces the one of its key. Without memory nothing changes.
    pub(crate) fn put(&mut self, key: DocumentKey, document: Document) -> Result<(), AllocError>
        ensures ok { OnOk result (self.new ≡ insert self.old key document) }
        ensures err { OnErr result (self.new ≡ self.old) }
    {
        self.documents.insert(key, document)?;
        Ok(())
    }

    /// Makes the document of that key active or inactive, if it is there.
    pub(crate) fn set_active(&mut self, key: &DocumentKey, active: bool)
        ensures { self.new ≡ with_activity key.now active self.old }
    {
        if let Some(document) = self.documents.get_mut(key) {
            document.set_active(active);
        }
    }

    /// Removes the document of that key.
    pub(crate) fn remove(&mut self, key: &DocumentKey)
        ensures { self.new ≡ remove self.old key.now }
    {
        self.documents.remove(key);
    }

    /// The documents as they are listed, in the order of their keys.
    pub(crate) fn list(&self, alloc: Global) -> Result<Items<Listed>, AllocError>
        ensures { IfOk result (λ ls. ls ≡ map listed_of (entries self.now)) }
    {
        let mut listed = Vec::with_capacity(alloc, self.documents.len())?;
        for (key, document) in self.documents.iter() {
            listed.push(listed_as(key, document)?)?;
        }
        Ok(Items::from_vec(listed))
    }

    /// Copies of the texts of the active documents, in the order of their keys.
    pub(crate) fn active_texts(&self, alloc: Global) -> Result<Items<ActiveText>, AllocError>
        ensures { IfOk result (λ texts. texts ≡ active_among (entries self.now)) }
    {
        let mut texts = Vec::new(alloc);
        for (key, document) in self.documents.iter() {
            if document.is_active() {
                texts.push(active_text(alloc, key, document)?)?;
            }
        }
        Ok(Items::from_vec(texts))
    }
}

/// A copy of the bytes.
pub(crate) fn copy_of(alloc: Global, bytes: &[u8]) -> Result<Items<u8>, AllocError>
    ensures { IfOk result (λ copy. copy ≡ bytes.now) }
{
    Ok(Items::from_vec(Vec::from_slice(alloc, bytes)?))
}

/// The document of that key as it is listed.
fn listed_as(key: &DocumentKey, document: &Document) -> Result<Listed, AllocError>
    ensures { IfOk result (λ listed. listed ≡ record { key = key.now; active = document.now.active }) }
{
    Ok(Listed {
        key: key.clone()?,
        active: document.is_active(),
    })
}

/// A copy of the text of the document of that key.
fn active_text(
    alloc: Global,
    key: &DocumentKey,
    document: &Document,
) -> Result<ActiveText, AllocError>
    ensures { IfOk result (λ active. active ≡ record { key = key.now; text = document.now.text }) }
{
    Ok(ActiveText {
        key: key.clone()?,
        text: copy_of(alloc, document.text())?,
    })
}
