//! The domains and the next number, in memory, and each change of them.
ghost use Rattle.std.specs.Prelude.{◌≡◌, ◌+◌, ◌<◌, ◌≤◌, ◌^◌, ◌⊎◌, IfOk, OnOk, IsErrOf};
ghost use Rattle.xa_records.specs.declared.refusal.ChangeError.TheVariants.{Failed};
ghost use Rattle.xa_records.specs.declared.refusal.Failure.TheVariants.{Store};
ghost use Rattle.xa_records.specs.Changes.{activity_set, created, deleted, removed, root_set, source_set};
ghost use Rattle.xa_records.specs.Changes.{token_dropped, token_put, upload_of, uploaded, within};
ghost use Rattle.xa_records.specs.Keeper.{Changes};
ghost use Rattle.xa_records.specs.Kept.{CantRaise, IsGreatest, names_of, nothing_kept, one_kept, state_of};
ghost use Rattle.xa_records.specs.Readings.{gate_of, kept_view_of, listing_of, text_of};

use crate::digest::Digest;
use crate::gate::Gate;
use crate::kept_view::KeptView;
use crate::listed::Listed;
use crate::plain::domain::PlainDomain;
use crate::plain::raising::{is_at_most_greatest, next_after};
use crate::refusal::{ChangeError, Failure, Refusal};
use crate::upload::Upload;
use std::alloc::{AllocError, Global};
use std::collections::BTreeMap;
use std::marker::Model;
use xa_decide::SourceRow;
use xa_notation::Role;
use xa_policy::{DocumentKey, Reference};
use xa_value::{Items, Text};

/// Domains by their names, and the number of the next that is made.
#[derive(Drop)]
pub(crate) struct Domains {
    /// The domains by their names.
    by_name: BTreeMap<Text, PlainDomain>,
    /// The number of the next that is made.
    next: u64,
}

impl Model for Domains {
    ghost use Rattle.std.specs.Coded.{codes, coded_list, coded_ℕ};
    ghost use Rattle.std.specs.FinMap as finite;
    ghost use Rattle.xa_records.specs.contracts.plain.domain.PlainDomain as domain;
    ghost use Rattle.xa_records.specs.DomainState.{compare_bytes};
    ghost use Rattle.xa_records.specs.Kept.{Kept};

    ghost Value = { Kept };

    ghost coded = { Prim.hlevel
        (codes, finite.code {R = compare_bytes} (coded_list coded_ℕ) domain.the_row.coded) };

    ghost view = { λ d. record { domains = finite.from_entries d.by_name.entries; next = d.next } };
}

impl Domains {
    /// No domains; the first that is made gets the number 1. Nothing is allocated.
    pub(crate) fn new(alloc: Global) -> Domains
        ensures { result ≡ nothing_kept }
    {
        Domains {
            by_name: BTreeMap::new(alloc),
            next: 1,
        }
    }

    /// One domain, in which nothing has been put yet; the next that is made gets the number after its own.
    /// `Store`, if the next number or the epoch would be above 2^63 - 1.
    pub(crate) fn of_one(
        alloc: Global,
        name: Text,
        number: u64,
        epoch: u64,
    ) -> Result<Domains, Failure>
        ensures keeps { IfOk result (λ domains. domains ≡ one_kept name number epoch) }
        ensures held { OnOk result ((number + 1 < 2 ^ 63) × (epoch < 2 ^ 63)) }
        ensures store { IsErrOf result Store → IsGreatest number ⊎ (2 ^ 63 ≤ epoch) }
    {
        if !is_at_most_greatest(epoch) {
            return Err(Failure::Store);
        }
        let next = next_after(number)?;
        let mut by_name = BTreeMap::new(alloc);
        by_name.insert(name, PlainDomain::new(alloc, number, epoch))?;
        Ok(Domains { by_name, next })
    }

    /// The domain's number, its epoch and its tokens, if it is there.
    pub(crate) fn gate(&self, alloc: Global, name: &Text) -> Result<Option<Gate>, AllocError>
        ensures { IfOk result (λ x. x ≡ gate_of name.now self.now) }
    {
        let Some(domain) = self.by_name.get(name) else {
            return Ok(None);
        };
        Ok(Some(domain.gate(alloc)?))
    }

    /// What decides in the domain, if it is there.
    pub(crate) fn view(&self, alloc: Global, name: &Text) -> Result<Option<KeptView>, AllocError>
        ensures { IfOk result (λ x. x ≡ kept_view_of name.now self.now) }
    {
        let Some(domain) = self.by_name.get(name) else {
            return Ok(None);
        };
        Ok(Some(domain.view(alloc)?))
    }

    /// The text of the document of that key, if it and its domain are there.
    pub(crate) fn document(
        &self,
        alloc: Global,
        name: &Text,
        key: &DocumentKey,
    ) -> Result<Option<Items<u8>>, AllocError>
        ensures { IfOk result (λ x. x ≡ text_of name.now key.now self.now) }
    {
        let Some(domain) = self.by_name.get(name) else {
            return Ok(None);
        };
        domain.document(alloc, key)
    }

    /// The domain's documents, if it is there.
    pub(crate) fn list(
        &self,
        alloc: Global,
        name: &Text,
    ) -> Result<Option<Items<Listed>>, AllocError>
        ensures { IfOk result (λ x. x ≡ listing_of name.now self.now) }
    {
        let Some(domain) = self.by_name.get(name) else {
            return Ok(None);
        };
        Ok(Some(domain.list(alloc)?))
    }

    /// The names of all domains, in the order of their bytes.
    pub(crate) fn names(&self, alloc: Global) -> Result<Items<Text>, AllocError>
        ensures { IfOk result (λ names. names ≡ names_of self.now) }
    {
        let mut names = Vec::with_capacity(alloc, self.by_name.len())?;
        for name in self.by_name.keys() {
            names.push(name.clone()?)?;
        }
        Ok(Items::from_vec(names))
    }

    /// Makes a domain in which nothing has been put yet, of the next number.
    pub(crate) fn create(&mut self, alloc: Global, name: &Text) -> Result<(), ChangeError>
        ensures does { Changes self.old self.new result name.now created }
        ensures store { IsErrOf result (Failed Store) → CantRaise created name.now self.old }
    {
        if self.by_name.contains_key(name) {
            return Err(Refusal::Exists.into());
        }
        let next = next_after(self.next)?;
        let domain = PlainDomain::new(alloc, self.next, 0);
        self.by_name.insert(name.clone()?, domain)?;
        self.next = next;
        Ok(())
    }

    /// Removes the domain with all that is in it.
    pub(crate) fn remove(&mut self, name: &Text) -> Result<(), ChangeError>
        ensures does { Changes self.old self.new result name.now removed }
        ensures store { ¬ IsErrOf result (Failed Store) }
    {
        let Some(_) = self.by_name.remove(name) else {
            return Err(Refusal::Absent.into());
        };
        Ok(())
    }

    /// Adds a token, or replaces the role of one.
    pub(crate) fn put_token(
        &mut self,
        name: &Text,
        digest: Digest,
        role: Role,
    ) -> Result<(), ChangeError>
        ensures does { Changes self.old self.new result name.now (within (token_put digest role)) }
        ensures store { ¬ IsErrOf result (Failed Store) }
    {
        let Some(domain) = self.by_name.get_mut(name) else {
            return Err(Refusal::Absent.into());
        };
        domain.put_token(digest, role)
    }

    /// Drops a token.
    pub(crate) fn drop_token(&mut self, name: &Text, digest: Digest) -> Result<(), ChangeError>
        ensures does { Changes self.old self.new result name.now (within (token_dropped digest)) }
        ensures store { ¬ IsErrOf result (Failed Store) }
    {
        let Some(domain) = self.by_name.get_mut(name) else {
            return Err(Refusal::Absent.into());
        };
        domain.drop_token(digest)
    }

    /// Adds a document, which isn't active yet. The same text again changes nothing.
    pub(crate) fn upload(
        &mut self,
        alloc: Global,
        name: &Text,
        key: DocumentKey,
        text: &[u8],
    ) -> Result<Upload, ChangeError>
        ensures does { Changes self.old self.new result name.now (within (uploaded key text.now)) }
        ensures which { IfOk result (λ u. u ≡ upload_of key (state_of name.now self.old)) }
        ensures store { IsErrOf result (Failed Store)
            → CantRaise (within (uploaded key text.now)) name.now self.old }
    {
        let Some(domain) = self.by_name.get_mut(name) else {
            return Err(Refusal::Absent.into());
        };
        domain.upload(alloc, key, text)
    }

    /// Makes the document of that key active or inactive.
    pub(crate) fn set_active(
        &mut self,
        name: &Text,
        key: &DocumentKey,
        active: bool,
    ) -> Result<(), ChangeError>
        ensures does { Changes self.old self.new result name.now (within (activity_set key.now active)) }
        ensures store { IsErrOf result (Failed Store)
            → CantRaise (within (activity_set key.now active)) name.now self.old }
    {
        let Some(domain) = self.by_name.get_mut(name) else {
            return Err(Refusal::Absent.into());
        };
        domain.set_active(key, active)
    }

    /// Deletes the document of that key, which must not be active.
    pub(crate) fn delete(&mut self, name: &Text, key: &DocumentKey) -> Result<(), ChangeError>
        ensures does { Changes self.old self.new result name.now (within (deleted key.now)) }
        ensures store { IsErrOf result (Failed Store)
            → CantRaise (within (deleted key.now)) name.now self.old }
    {
        let Some(domain) = self.by_name.get_mut(name) else {
            return Err(Refusal::Absent.into());
        };
        domain.delete(key)
    }

    /// Sets or removes the root.
    pub(crate) fn set_root(
        &mut self,
        name: &Text,
        root: Option<Reference>,
    ) -> Result<(), ChangeError>
        ensures does { Changes self.old self.new result name.now (within (root_set root)) }
        ensures store { IsErrOf result (Failed Store) → CantRaise (within (root_set root)) name.now self.old }
    {
        let Some(domain) = self.by_name.get_mut(name) else {
            return Err(Refusal::Absent.into());
        };
        domain.set_root(root)
    }

    /// Replaces the rows of the attribute source.
    pub(crate) fn set_source(
        &mut self,
        name: &Text,
        rows: Items<SourceRow>,
    ) -> Result<(), ChangeError>
        ensures does { Changes self.old self.new result name.now (within (source_set rows)) }
        ensures store { IsErrOf result (Failed Store)
            → CantRaise (within (source_set rows)) name.now self.old }
    {
        let Some(domain) = self.by_name.get_mut(name) else {
            return Err(Refusal::Absent.into());
        };
        domain.set_source(rows)
    }
}
