//! One domain, in memory.
ghost use Rattle.std.specs.Prelude.{◌≡◌, IfOk, IsErrOf, Some};
ghost use Rattle.xa_records.specs.declared.refusal.ChangeError.TheVariants.{Failed};
ghost use Rattle.xa_records.specs.declared.refusal.Failure.TheVariants.{Store};
ghost use Rattle.xa_records.specs.Changes.{activity_set, deleted, root_set, source_set};
ghost use Rattle.xa_records.specs.Changes.{token_dropped, token_put, upload_of, uploaded};
ghost use Rattle.xa_records.specs.DomainState.{new_domain};
ghost use Rattle.xa_records.specs.Plain.{activity_at, Alters, CantRaiseEpoch, upload_again};
ghost use Rattle.xa_records.specs.Readings.{gate_of_domain, listing_of_state, text_in, view_of_state};

use crate::digest::Digest;
use crate::gate::Gate;
use crate::kept_view::KeptView;
use crate::limits::may_be_kept;
use crate::listed::Listed;
use crate::plain::documents::{Document, Documents, copy_of};
use crate::plain::raising::next_after;
use crate::plain::tokens::Tokens;
use crate::refusal::{ChangeError, Refusal};
use crate::sameness::{is_same_activity, is_same_root, is_same_source};
use crate::upload::Upload;
use std::alloc::{AllocError, Global};
use std::marker::Model;
use xa_decide::SourceRow;
use xa_notation::Role;
use xa_policy::{DocumentKey, Reference};
use xa_value::Items;

/// A domain: its number, its epoch and its state.
#[derive(Drop)]
pub(crate) struct PlainDomain {
    /// Its number, which no other domain ever has.
    number: u64,
    /// How often its documents, its root or its source rows have changed.
    epoch: u64,
    /// Its tokens.
    tokens: Tokens,
    /// Its documents.
    documents: Documents,
    /// The reference at which decisions start, if one is set.
    root: Option<Reference>,
    /// The rows of its attribute source.
    source: Items<SourceRow>,
}

impl Model for PlainDomain {
    ghost use Rattle.std.specs.Coded.{codes, coded_list, coded_ℕ};
    ghost use Rattle.std.specs.FinMap as finite;
    ghost use Rattle.xa_policy.specs.contracts.document_key.DocumentKey as key;
    ghost use Rattle.xa_policy.specs.contracts.reference.Reference as reference;
    ghost use Rattle.xa_decide.specs.contracts.source_row.SourceRow as row;
    ghost use Rattle.xa_notation.specs.contracts.token.Role as role;
    ghost use Rattle.xa_records.specs.contracts.plain.tokens.Tokens as held;
    ghost use Rattle.xa_records.specs.contracts.plain.documents.Documents as stored;
    ghost use Rattle.xa_records.specs.Kept.{Domain};

    ghost Value = { Domain };

    ghost coded = { Prim.hlevel
        (codes, held.the_row.coded, stored.the_row.coded, reference.the_row.coded, row.the_row.coded) };

    ghost view = { λ d. record {
      number = d.number;
      epoch = d.epoch;
      state = record { tokens = d.tokens; documents = d.documents; root = d.root; source = d.source };
    } };
}

impl PlainDomain {
    /// A domain of that number and epoch, in which nothing has been put yet. Nothing is allocated.
    pub(crate) fn new(alloc: Global, number: u64, epoch: u64) -> PlainDomain
        ensures { result ≡ record { number = number; epoch = epoch; state = new_domain } }
    {
        PlainDomain {
            number,
            epoch,
            tokens: Tokens::new(alloc),
            documents: Documents::new(alloc),
            root: None,
            source: Items::new(alloc),
        }
    }

    /// The domain's number, its epoch and its tokens.
    pub(crate) fn gate(&self, alloc: Global) -> Result<Gate, AllocError>
        ensures { IfOk result (λ gate. gate ≡ gate_of_domain self.now) }
    {
        Ok(Gate {
            number: self.number,
            epoch: self.epoch,
            tokens: self.tokens.list(alloc)?,
        })
    }

    /// What decides in it.
    pub(crate) fn view(&self, alloc: Global) -> Result<KeptView, AllocError>
        ensures { IfOk result (λ view. view ≡ view_of_state self.now.state) }
    {
        Ok(KeptView {
            texts: self.documents.active_texts(alloc)?,
            root: self.root.clone()?,
            source: copy_of_rows(alloc, self.source.as_slice())?,
        })
    }

    /// A copy of the text of the document of that key.
    pub(crate) fn document(
        &self,
        alloc: Global,
        key: &DocumentKey,
    ) -> Result<Option<Items<u8>>, AllocError>
        ensures { IfOk result (λ text. text ≡ text_in key.now self.now.state) }
    {
        match self.documents.get(key) {
            Some(document) => Ok(Some(copy_of(alloc, document.text())?)),
            None => Ok(None),
        }
    }

    /// The domain's documents, in the order of their keys.
    pub(crate) fn list(&self, alloc: Global) -> Result<Items<Listed>, AllocError>
        ensures { IfOk result (λ list. list ≡ listing_of_state self.now.state) }
    {
        self.documents.list(alloc)
    }

    /// Adds a token, or replaces the role of one.
    pub(crate) fn put_token(&mut self, digest: Digest, role: Role) -> Result<(), ChangeError>
        ensures does { Alters (token_put digest role) self.old self.new result }
        ensures store { ¬ IsErrOf result (Failed Store) }
    {
        if !self.tokens.has_room_for(&digest) {
            return Err(Refusal::Quota.into());
        }
        self.tokens.put(digest, role)?;
        Ok(())
    }

    /// Drops a token.
    pub(crate) fn drop_token(&mut self, digest: Digest) -> Result<(), ChangeError>
        ensures does { Alters (token_dropped digest) self.old self.new result }
        ensures store { ¬ IsErrOf result (Failed Store) }
    {
        if !self.tokens.contains(&digest) {
            return Err(Refusal::Absent.into());
        }
        self.tokens.remove(&digest);
        Ok(())
    }

    /// Adds a document, which isn't active yet. The same text again changes nothing.
    pub(crate) fn upload(
        &mut self,
        alloc: Global,
        key: DocumentKey,
        text: &[u8],
    ) -> Result<Upload, ChangeError>
        ensures does { Alters (uploaded key text.now) self.old self.new result }
        ensures which { IfOk result (λ u. u ≡ upload_of key (Some self.old.state)) }
        ensures store { IsErrOf result (Failed Store) → CantRaiseEpoch (uploaded key text.now) self.old }
    {
        if let Some(document) = self.documents.get(&key) {
            return upload_again(document, text);
        }
        if !self.documents.has_room() {
            return Err(Refusal::Quota.into());
        }
        let epoch = next_after(self.epoch)?;
        let document = Document::new(alloc, text)?;
        self.documents.put(key, document)?;
        self.epoch = epoch;
        Ok(Upload::New)
    }

    /// Makes the document of that key active or inactive.
    pub(crate) fn set_active(&mut self, key: &DocumentKey, active: bool) -> Result<(), ChangeError>
        ensures does { Alters (activity_set key.now active) self.old self.new result }
        ensures store { IsErrOf result (Failed Store)
            → CantRaiseEpoch (activity_set key.now active) self.old }
    {
        let before = self.activity_of(key)?;
        if is_same_activity(before, active) {
            return Ok(());
        }
        self.epoch = next_after(self.epoch)?;
        self.documents.set_active(key, active);
        Ok(())
    }

    /// Deletes the document of that key, which must not be active.
    pub(crate) fn delete(&mut self, key: &DocumentKey) -> Result<(), ChangeError>
        ensures does { Alters (deleted key.now) self.old self.new result }
        ensures store { IsErrOf result (Failed Store) → CantRaiseEpoch (deleted key.now) self.old }
    {
        if self.activity_of(key)? {
            return Err(Refusal::StillActive.into());
        }
        self.epoch = next_after(self.epoch)?;
        self.documents.remove(key);
        Ok(())
    }

    /// Sets or removes the root.
    pub(crate) fn set_root(&mut self, root: Option<Reference>) -> Result<(), ChangeError>
        ensures does { Alters (root_set root) self.old self.new result }
        ensures store { IsErrOf result (Failed Store) → CantRaiseEpoch (root_set root) self.old }
    {
        if is_same_root(&self.root, &root) {
            return Ok(());
        }
        self.epoch = next_after(self.epoch)?;
        self.root = root;
        Ok(())
    }

    /// Replaces the rows of the attribute source.
    pub(crate) fn set_source(&mut self, rows: Items<SourceRow>) -> Result<(), ChangeError>
        ensures does { Alters (source_set rows) self.old self.new result }
        ensures store { IsErrOf result (Failed Store) → CantRaiseEpoch (source_set rows) self.old }
    {
        if !may_be_kept(&rows) {
            return Err(Refusal::Quota.into());
        }
        if is_same_source(&self.source, &rows) {
            return Ok(());
        }
        self.epoch = next_after(self.epoch)?;
        self.source = rows;
        Ok(())
    }

    /// Whether the document of that key is active.
    fn activity_of(&self, key: &DocumentKey) -> Result<bool, Refusal>
        ensures { result ≡ activity_at key.now self.now.state }
    {
        match self.documents.get(key) {
            Some(document) => Ok(document.is_active()),
            None => Err(Refusal::Absent),
        }
    }
}

/// The result of an upload over a document of the same key.
fn upload_again(document: &Document, text: &[u8]) -> Result<Upload, ChangeError>
    ensures { result ≡ upload_again document.now text.now }
{
    if document.text() != text {
        return Err(Refusal::SameVersionOtherText.into());
    }
    Ok(Upload::Same)
}

/// A copy of the rows.
fn copy_of_rows(alloc: Global, rows: &[SourceRow]) -> Result<Items<SourceRow>, AllocError>
    ensures { IfOk result (λ copy. copy ≡ rows.now) }
{
    let mut copy = Vec::with_capacity(alloc, rows.len())?;
    for row in rows {
        copy.push(row.clone()?)?;
    }
    Ok(Items::from_vec(copy))
}
