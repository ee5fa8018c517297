//! The keeper in memory.
ghost use Rattle.std.specs.Prelude.{◌≡◌, ◌≤◌, ◌^◌, ◌⊎◌, IfOk, IsErrOf, refl};
ghost use Rattle.xa_records.specs.declared.refusal.ChangeError.TheVariants.{Failed};
ghost use Rattle.xa_records.specs.declared.refusal.Failure.TheVariants.{Store};
ghost use Rattle.xa_records.specs.Changes.{activity_set, created, deleted, removed, root_set, source_set};
ghost use Rattle.xa_records.specs.Changes.{token_dropped, token_put, upload_of, uploaded, within};
ghost use Rattle.xa_records.specs.DomainState.{IsDocumentOf};
ghost use Rattle.xa_records.specs.Keeper.{Changing, Reading};
ghost use Rattle.xa_records.specs.Kept.{CantRaise, IsGreatest, IsNumbered};
ghost use Rattle.xa_records.specs.Kept.{names_of, nothing_kept, one_kept, state_of};
ghost use Rattle.xa_records.specs.Keyed.{KeepsDocuments};
ghost use Rattle.xa_records.specs.Readings.{gate_of, kept_view_of, listing_of, text_of};
ghost use Rattle.std.proofs.Props.{props};
ghost use Rattle.xa_policy.specs.contracts.document_key.DocumentKey as key;

use crate::digest::Digest;
use crate::gate::Gate;
use crate::kept_view::KeptView;
use crate::listed::Listed;
use crate::plain::domains::Domains;
use crate::records::Records;
use crate::refusal::{ChangeError, Failure, count_failure};
use crate::upload::Upload;
use std::alloc::Global;
use xa_decide::SourceRow;
use xa_notation::Role;
use xa_policy::{DocumentKey, Reference};
use xa_value::{Items, Text};

/// A keeper in memory. What a call for one domain costs grows with what that domain keeps, and with the
/// logarithm of the number of domains.
#[derive(Drop)]
pub struct PlainRecords {
    /// What it keeps.
    domains: Domains,
    /// How many calls have failed with `Store`.
    faults: u64,
    pub ghost numbered: { IsNumbered domains } by { Prim.hlevel props },
    pub ghost documented: { KeepsDocuments domains } by { Prim.hlevel (props, key.the_row.coded) },
}

impl PlainRecords {
    /// A keeper of no domains; the first that is made gets the number 1. Nothing is allocated.
    pub fn new(alloc: Global) -> PlainRecords
        ensures kept { (⟦<PlainRecords as Records>⟧.custody result).kept ≡ nothing_kept }
        ensures sound { (⟦<PlainRecords as Records>⟧.custody result).sound }
        ensures faults { (⟦<PlainRecords as Records>⟧.custody result).faults ≡ 0 }
    {
        PlainRecords {
            domains: Domains::new(alloc),
            faults: 0,
        }
    }

    /// A keeper of one domain of that number and epoch, in which nothing has been put yet; the next gets
    /// the number after it. It is there for tests of the greatest numbers, which no test reaches by
    /// calls. Answers `Store` if the next number or the epoch would be above 2^63 - 1.
    pub fn with_domain(
        alloc: Global,
        name: Text,
        number: u64,
        epoch: u64,
    ) -> Result<PlainRecords, Failure>
        ensures kept { IfOk result (λ r.
            (⟦<PlainRecords as Records>⟧.custody r).kept ≡ one_kept name number epoch) }
        ensures sound { IfOk result (λ r. (⟦<PlainRecords as Records>⟧.custody r).sound) }
        ensures faults { IfOk result (λ r. (⟦<PlainRecords as Records>⟧.custody r).faults ≡ 0) }
        ensures store { IsErrOf result Store → IsGreatest number ⊎ (2 ^ 63 ≤ epoch) }
    {
        let domains = Domains::of_one(alloc, name, number, epoch)?;
        Ok(PlainRecords { domains, faults: 0 })
    }
}

impl Records for PlainRecords {
    ghost use Rattle.xa_records.specs.PlainCustody.{plain_custody};

    ghost custody = { plain_custody };

    fn faults(&self) -> u64 {
        self.faults
    }

    fn is_open(&self) -> bool {
        true
    }

    fn gate(&mut self, alloc: Global, name: &Text) -> Result<Option<Gate>, Failure>
        ensures reads { Reading (plain_custody self.old) (plain_custody self.new) result
            (gate_of name.now self.old.domains) }
        ensures store { ¬ IsErrOf result Store }
    {
        Ok(self.domains.gate(alloc, name)?)
    }

    fn view(&mut self, alloc: Global, name: &Text) -> Result<Option<KeptView>, Failure>
        ensures reads { Reading (plain_custody self.old) (plain_custody self.new) result
            (kept_view_of name.now self.old.domains) }
        ensures store { ¬ IsErrOf result Store }
    {
        Ok(self.domains.view(alloc, name)?)
    }

    fn document(
        &mut self,
        alloc: Global,
        name: &Text,
        key: &DocumentKey,
    ) -> Result<Option<Items<u8>>, Failure>
        ensures reads { Reading (plain_custody self.old) (plain_custody self.new) result
            (text_of name.now key.now self.old.domains) }
        ensures store { ¬ IsErrOf result Store }
    {
        Ok(self.domains.document(alloc, name, key)?)
    }

    fn list(&mut self, alloc: Global, name: &Text) -> Result<Option<Items<Listed>>, Failure>
        ensures reads { Reading (plain_custody self.old) (plain_custody self.new) result
            (listing_of name.now self.old.domains) }
        ensures store { ¬ IsErrOf result Store }
    {
        Ok(self.domains.list(alloc, name)?)
    }

    fn domains(&mut self, alloc: Global) -> Result<Items<Text>, Failure>
        ensures reads { Reading (plain_custody self.old) (plain_custody self.new) result
            (names_of self.old.domains) }
        ensures store { ¬ IsErrOf result Store }
    {
        Ok(self.domains.names(alloc)?)
    }

    fn create(&mut self, alloc: Global, name: &Text) -> Result<(), ChangeError>
        ensures does { Changing (plain_custody self.old) (plain_custody self.new) result name.now created }
        ensures store { IsErrOf result (Failed Store) → CantRaise created name.now self.old.domains }
    {
        let done = self.domains.create(alloc, name);
        count_failure(&mut self.faults, &done);
        done
    }

    fn remove(&mut self, _alloc: Global, name: &Text) -> Result<(), ChangeError>
        ensures does { Changing (plain_custody self.old) (plain_custody self.new) result name.now removed }
        ensures store { ¬ IsErrOf result (Failed Store) }
    {
        let done = self.domains.remove(name);
        count_failure(&mut self.faults, &done);
        done
    }

    fn put_token(
        &mut self,
        _alloc: Global,
        name: &Text,
        digest: Digest,
        role: Role,
    ) -> Result<(), ChangeError>
        ensures does { Changing (plain_custody self.old) (plain_custody self.new) result
            name.now (within (token_put digest role)) }
        ensures store { ¬ IsErrOf result (Failed Store) }
    {
        let done = self.domains.put_token(name, digest, role);
        count_failure(&mut self.faults, &done);
        done
    }

    fn drop_token(&mut self, _alloc: Global, name: &Text, digest: Digest) -> Result<(), ChangeError>
        ensures does { Changing (plain_custody self.old) (plain_custody self.new) result
            name.now (within (token_dropped digest)) }
        ensures store { ¬ IsErrOf result (Failed Store) }
    {
        let done = self.domains.drop_token(name, digest);
        count_failure(&mut self.faults, &done);
        done
    }

    fn upload(
        &mut self,
        alloc: Global,
        name: &Text,
        key: DocumentKey,
        text: &[u8],
    ) -> Result<Upload, ChangeError>
        requires { IsDocumentOf key text.now }
        ensures does { Changing (plain_custody self.old) (plain_custody self.new) result
            name.now (within (uploaded key text.now)) }
        ensures which { IfOk result (λ u. u ≡ upload_of key (state_of name.now self.old.domains)) }
        ensures store { IsErrOf result (Failed Store)
            → CantRaise (within (uploaded key text.now)) name.now self.old.domains }
    {
        let done = self.domains.upload(alloc, name, key, text);
        count_failure(&mut self.faults, &done);
        done
    }

    fn set_active(
        &mut self,
        _alloc: Global,
        name: &Text,
        key: &DocumentKey,
        active: bool,
    ) -> Result<(), ChangeError>
        ensures does { Changing (plain_custody self.old) (plain_custody self.new) result
            name.now (within (activity_set key.now active)) }
        ensures store { IsErrOf result (Failed Store)
            → CantRaise (within (activity_set key.now active)) name.now self.old.domains }
    {
        let done = self.domains.set_active(name, key, active);
        count_failure(&mut self.faults, &done);
        done
    }

    fn delete(&mut self, _alloc: Global, name: &Text, key: &DocumentKey) -> Result<(), ChangeError>
        ensures does { Changing (plain_custody self.old) (plain_custody self.new) result
            name.now (within (deleted key.now)) }
        ensures store { IsErrOf result (Failed Store)
            → CantRaise (within (deleted key.now)) name.now self.old.domains }
    {
        let done = self.domains.delete(name, key);
        count_failure(&mut self.faults, &done);
        done
    }

    fn set_root(
        &mut self,
        _alloc: Global,
        name: &Text,
        root: Option<Reference>,
    ) -> Result<(), ChangeError>
        ensures does { Changing (plain_custody self.old) (plain_custody self.new) result
            name.now (within (root_set root)) }
        ensures store { IsErrOf result (Failed Store)
            → CantRaise (within (root_set root)) name.now self.old.domains }
    {
        let done = self.domains.set_root(name, root);
        count_failure(&mut self.faults, &done);
        done
    }

    fn set_source(
        &mut self,
        _alloc: Global,
        name: &Text,
        rows: Items<SourceRow>,
    ) -> Result<(), ChangeError>
        ensures does { Changing (plain_custody self.old) (plain_custody self.new) result
            name.now (within (source_set rows)) }
        ensures store { IsErrOf result (Failed Store)
            → CantRaise (within (source_set rows)) name.now self.old.domains }
    {
        let done = self.domains.set_source(name, rows);
        count_failure(&mut self.faults, &done);
        done
    }

    fn keeps_documents(&self) {}

    ghost numbered = { λ r _. r.numbered };

    ghost open_if_sound = { λ _ _. refl };

    ghost settled = { λ _ _ _ left. absurd left };
}
