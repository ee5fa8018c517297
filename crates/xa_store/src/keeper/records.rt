//! The keeper's readings and changes, as the trait `Records` asks for them: each is done on the
//! connection, and then what is known of its store is brought up to date.
ghost use Rattle.std.proofs.Common.{◌∙◌};
ghost use Rattle.xa_store.specs.KeeperReading.{custody_by};

use crate::change::{document, domain, root, source, token};
use crate::keeper::SqlRecords;
use crate::query::name::names_in;
use crate::query::reading::{gate_by_name, listing_by_name, text_by_name, view_by_name};
use sqlite::Alter;
use std::alloc::Global;
use xa_decide::SourceRow;
use xa_notation::Role;
use xa_policy::{DocumentKey, Reference};
use xa_records::{ChangeError, Digest, Failure, Gate, KeptView, Listed, Records, Upload};
use xa_value::{Items, Text};

impl<S: Alter> Records for SqlRecords<S> {
    ghost custody = { custody_by S.Store };

    ghost numbered = { λ r is. is.1.ours.domains.numbered };

    ghost open_if_sound = { λ r is. is.2 };

    ghost settled = { λ r is left leaves.
        leaves.2 (is.1.settled leaves.0 leaves.1).0 ∙ (is.1.settled leaves.0 leaves.1).1 };

    fn keeps_documents(&self) {}

    fn faults(&self) -> u64 {
        self.health.faults
    }

    fn is_open(&self) -> bool {
        self.health.is_open
    }

    fn gate(&mut self, alloc: Global, name: &Text) -> Result<Option<Gate>, Failure> {
        let read = gate_by_name(alloc, &mut self.conn, name);
        self.health.after_reading(&mut self.conn, read)
    }

    fn view(&mut self, alloc: Global, name: &Text) -> Result<Option<KeptView>, Failure> {
        let read = view_by_name(alloc, &mut self.conn, name);
        self.health.after_reading(&mut self.conn, read)
    }

    fn document(
        &mut self,
        alloc: Global,
        name: &Text,
        key: &DocumentKey,
    ) -> Result<Option<Items<u8>>, Failure> {
        let read = text_by_name(alloc, &mut self.conn, name, key);
        self.health.after_reading(&mut self.conn, read)
    }

    fn list(&mut self, alloc: Global, name: &Text) -> Result<Option<Items<Listed>>, Failure> {
        let read = listing_by_name(alloc, &mut self.conn, name);
        self.health.after_reading(&mut self.conn, read)
    }

    fn domains(&mut self, alloc: Global) -> Result<Items<Text>, Failure> {
        let read = names_in(alloc, &mut self.conn);
        self.health.after_reading(&mut self.conn, read)
    }

    fn create(&mut self, alloc: Global, name: &Text) -> Result<(), ChangeError> {
        let done = domain::create(alloc, &mut self.conn, name);
        self.health.after_change(&mut self.conn, done)
    }

    fn remove(&mut self, alloc: Global, name: &Text) -> Result<(), ChangeError> {
        let done = domain::remove(alloc, &mut self.conn, name);
        self.health.after_change(&mut self.conn, done)
    }

    fn put_token(
        &mut self,
        alloc: Global,
        name: &Text,
        digest: Digest,
        role: Role,
    ) -> Result<(), ChangeError> {
        let done = token::put_token(alloc, &mut self.conn, name, digest, role);
        self.health.after_change(&mut self.conn, done)
    }

    fn drop_token(
        &mut self,
        alloc: Global,
        name: &Text,
        digest: Digest,
    ) -> Result<(), ChangeError> {
        let done = token::drop_token(alloc, &mut self.conn, name, digest);
        self.health.after_change(&mut self.conn, done)
    }

    fn upload(
        &mut self,
        alloc: Global,
        name: &Text,
        key: DocumentKey,
        text: &[u8],
    ) -> Result<Upload, ChangeError> {
        let done = document::upload(alloc, &mut self.conn, name, key, text);
        self.health.after_change(&mut self.conn, done)
    }

    fn set_active(
        &mut self,
        alloc: Global,
        name: &Text,
        key: &DocumentKey,
        active: bool,
    ) -> Result<(), ChangeError> {
        let done = document::set_active(alloc, &mut self.conn, name, key, active);
        self.health.after_change(&mut self.conn, done)
    }

    fn delete(&mut self, alloc: Global, name: &Text, key: &DocumentKey) -> Result<(), ChangeError> {
        let done = document::delete(alloc, &mut self.conn, name, key);
        self.health.after_change(&mut self.conn, done)
    }

    fn set_root(
        &mut self,
        alloc: Global,
        name: &Text,
        root: Option<Reference>,
    ) -> Result<(), ChangeError> {
        let done = root::set(alloc, &mut self.conn, name, root);
        self.health.after_change(&mut self.conn, done)
    }

    fn set_source(
        &mut self,
        alloc: Global,
        name: &Text,
        rows: Items<SourceRow>,
    ) -> Result<(), ChangeError> {
        let done = source::set(alloc, &mut self.conn, name, rows);
        self.health.after_change(&mut self.conn, done)
    }
}
