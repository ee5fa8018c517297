//! The keeper of what is kept of all domains.
ghost use Rattle.std.specs.Prelude.{◌≡◌, IsTrue, IfOk};
ghost use Rattle.xa_records.specs.Changes.{activity_set, created, deleted, removed, root_set, source_set};
ghost use Rattle.xa_records.specs.Changes.{token_dropped, token_put, upload_of, uploaded, within};
ghost use Rattle.xa_records.specs.DomainName.{is_domain_name};
ghost use Rattle.xa_records.specs.DomainState.{IsDocumentOf};
ghost use Rattle.xa_records.specs.Keeper.{Changing, Custody, Reading};
ghost use Rattle.xa_records.specs.Kept.{IsNumbered, Kept, names_of, state_of};
ghost use Rattle.xa_records.specs.Keyed.{KeepsDocuments};
ghost use Rattle.xa_records.specs.Readings.{gate_of, kept_view_of, listing_of, text_of};

use crate::digest::Digest;
use crate::gate::Gate;
use crate::kept_view::KeptView;
use crate::listed::Listed;
use crate::refusal::{ChangeError, Failure};
use crate::upload::Upload;
use std::alloc::Global;
use xa_decide::SourceRow;
use xa_notation::Role;
use xa_policy::{DocumentKey, Reference};
use xa_value::{Items, Text};

/// A keeper of domains. Its meaning is a finite map from the names of domains to their states, each with
/// a number and an epoch, and the next number.
///
/// Each method reads that map or makes one change of it, for the domain named and no other. After a
/// refusal or a failure nothing has changed. After `Store` one exception holds: if the storage is opened
/// again, after an orderly end or a crash, the change may be there, as a whole. The clauses speak of the
/// map only if the keeper is `sound` after the call, and then it was sound before. A keeper that was sound
/// stays so, whatever the call answers, while it can go on (`is_open`) and the disk gives back what was
/// written.
pub trait Records {
    /// What is told of the keeper: what it keeps, and whether it is sound.
    ghost custody: { Self → Custody };

    /// How many calls have failed with `Store`. At the greatest number the count stays.
    fn faults(&self) -> u64
        ensures { result ≡ (custody self.now).faults };

    /// Whether the keeper can go on. One that is shut answers `Store` to each call, now and for ever: its
    /// storage has to be opened again. It is found shut only after a call that answered `Store`.
    fn is_open(&self) -> bool
        ensures { result ≡ (custody self.now).is_open };

    /// The domain's number, its epoch and its tokens; nothing, if there is no such domain.
    fn gate(&mut self, alloc: Global, name: &Text) -> Result<Option<Gate>, Failure>
        ensures { Reading (custody self.old) (custody self.new) result
            (gate_of name.now (custody self.old).kept) };

    /// What decides in the domain; nothing, if there is no such domain.
    fn view(&mut self, alloc: Global, name: &Text) -> Result<Option<KeptView>, Failure>
        ensures { Reading (custody self.old) (custody self.new) result
            (kept_view_of name.now (custody self.old).kept) };

    /// The text of the document as it was uploaded; nothing, if there is no such domain or document.
    fn document(
        &mut self,
        alloc: Global,
        name: &Text,
        key: &DocumentKey,
    ) -> Result<Option<Items<u8>>, Failure>
        ensures { Reading (custody self.old) (custody self.new) result
            (text_of name.now key.now (custody self.old).kept) };

    /// The domain's documents, in the order of their keys; nothing, if there is no such domain.
    fn list(&mut self, alloc: Global, name: &Text) -> Result<Option<Items<Listed>>, Failure>
        ensures { Reading (custody self.old) (custody self.new) result
            (listing_of name.now (custody self.old).kept) };

    /// The names of all domains, in the order of their bytes.
    fn domains(&mut self, alloc: Global) -> Result<Items<Text>, Failure>
        ensures { Reading (custody self.old) (custody self.new) result (names_of (custody self.old).kept) };

    /// Makes a domain in which nothing has been put yet. It gets the next number; the first is 1.
    /// Refused with `Exists`.
    fn create(&mut self, alloc: Global, name: &Text) -> Result<(), ChangeError>
        requires { IsTrue (is_domain_name name.now) }
        ensures { Changing (custody self.old) (custody self.new) result name.now created };

    /// Removes the domain with all that is in it. Refused with `Absent`.
    fn remove(&mut self, alloc: Global, name: &Text) -> Result<(), ChangeError>
        ensures { Changing (custody self.old) (custody self.new) result name.now removed };

    /// Adds a token with its role, or replaces the role of one that is there. Refused with `Absent`, and
    /// with `Quota` if the domain has 32 others.
    fn put_token(
        &mut self,
        alloc: Global,
        name: &Text,
        digest: Digest,
        role: Role,
    ) -> Result<(), ChangeError>
        ensures { Changing (custody self.old) (custody self.new) result name.now
            (within (token_put digest role)) };

    /// Drops a token. Refused with `Absent`, also if the domain has no such token.
    fn drop_token(&mut self, alloc: Global, name: &Text, digest: Digest) -> Result<(), ChangeError>
        ensures { Changing (custody self.old) (custody self.new) result name.now
            (within (token_dropped digest)) };

    /// Adds a document, which isn't active at first. The same text again changes nothing. Refused with
    /// `Absent`, with `SameVersionOtherText`, and with `Quota` if the domain has 1,024 others.
    fn upload(
        &mut self,
        alloc: Global,
        name: &Text,
        key: DocumentKey,
        text: &[u8],
    ) -> Result<Upload, ChangeError>
        requires { IsDocumentOf key text.now }
        ensures does { Changing (custody self.old) (custody self.new) result name.now
            (within (uploaded key text.now)) }
        ensures which { (custody self.new).sound
            → IfOk result (λ u. u ≡ upload_of key (state_of name.now ((custody self.old).kept))) };

    /// Makes the document active, so that references may resolve to it, or inactive. Refused with
    /// `Absent`, also if there is no such document.
    fn set_active(
        &mut self,
        alloc: Global,
        name: &Text,
        key: &DocumentKey,
        active: bool,
    ) -> Result<(), ChangeError>
        ensures { Changing (custody self.old) (custody self.new) result name.now
            (within (activity_set key.now active)) };

    /// Deletes a document. Refused with `Absent`, also if there is no such document, and with
    /// `StillActive`.
    fn delete(&mut self, alloc: Global, name: &Text, key: &DocumentKey) -> Result<(), ChangeError>
        ensures { Changing (custody self.old) (custody self.new) result name.now (within (deleted key.now)) };

    /// Sets or removes the root. Refused with `Absent`.
    fn set_root(
        &mut self,
        alloc: Global,
        name: &Text,
        root: Option<Reference>,
    ) -> Result<(), ChangeError>
        ensures { Changing (custody self.old) (custody self.new) result name.now (within (root_set root)) };

    /// Replaces the rows of the attribute source. Refused with `Absent`, and with `Quota` if there are more
    /// than 4,096.
    fn set_source(
        &mut self,
        alloc: Global,
        name: &Text,
        rows: Items<SourceRow>,
    ) -> Result<(), ChangeError>
        ensures { Changing (custody self.old) (custody self.new) result name.now (within (source_set rows)) };

    /// Law: each text is a document of the key under which it is kept. So it need not be read in order to
    /// know its key. The call does nothing.
    fn keeps_documents(&self)
        ensures { (custody self.now).sound → KeepsDocuments (custody self.now).kept };

    /// Law: no two domains have one number, every number is below the next, and that and all epochs are
    /// at most 2^63 - 1.
    ghost numbered: { (s : Self) → (custody s).sound → IsNumbered (custody s).kept };

    /// Law: a sound keeper can go on.
    ghost open_if_sound: { (s : Self) → (custody s).sound → IsTrue (custody s).is_open };

    /// Law: a crash leaves what is kept, and nothing else.
    ghost settled: { (s : Self) → (custody s).sound → (left : Kept) → (custody s).may_leave left
        → left ≡ (custody s).kept };
}
