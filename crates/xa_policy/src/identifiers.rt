//! The policies and policy sets that are named, as a tree is evaluated.
ghost use Rattle.std.specs.Prelude.{◌≡◌, [], ◌∷◌, length, OnOk};
ghost use Rattle.xa_policy.specs.Evaluation.{named_by};
ghost use Rattle.xa_policy.specs.walking.Walk.{kept_by, with_named};

use crate::decision::Decision;
use crate::document_key::DocumentKey;
use std::alloc::{AllocError, Global};
use std::marker::Model;
use xa_value::{Items, Shared};

/// The keys of the policies and policy sets that are named so far, in order. If they aren't asked for,
/// there are never any. One list serves the whole tree: a policy set puts itself there before its
/// children, and takes all of them away again if it decides neither Permit nor Deny. So each key is put
/// there once, and taken away once at most.
#[derive(Debug, Drop)]
pub(crate) struct Identifiers {
    /// Whether they are asked for.
    names_policies: bool,
    /// The keys, in order.
    found: Vec<Shared<DocumentKey>>,
}

impl Model for Identifiers {
    ghost use Rattle.std.specs.Coded.{codes};
    ghost use Rattle.xa_policy.specs.walking.Walk.{Named};

    ghost Value = { Named };

    ghost view = { λ i. record { asked = i.names_policies; ids = i.found.items } };
}

impl Identifiers {
    /// No identifiers yet. Nothing is allocated.
    pub(crate) fn new(alloc: Global, names_policies: bool) -> Identifiers
        ensures { result ≡ record { asked = names_policies; ids = [] } }
    {
        Identifiers {
            names_policies,
            found: Vec::new(alloc),
        }
    }

    /// How many there are so far.
    pub(crate) fn count(&self) -> usize
        ensures { result ≡ length self.now.ids }
    {
        self.found.len()
    }

    /// Puts the key after those so far, if they are asked for. It is a share: no text is copied.
    pub(crate) fn add(&mut self, key: &Shared<DocumentKey>) -> Result<(), AllocError>
        ensures { OnOk result (self.new ≡ with_named self.old (key.now ∷ [])) }
    {
        if self.names_policies {
            self.found.push(key.clone()?)?;
        }
        Ok(())
    }

    /// Puts the key of a policy that decides this after those so far, if that is Permit or Deny.
    pub(crate) fn add_by(
        &mut self,
        decision: Decision,
        key: &Shared<DocumentKey>,
    ) -> Result<(), AllocError>
        ensures { OnOk result (self.new ≡ with_named self.old (named_by decision key.now [])) }
    {
        match decision.effect() {
            Some(_) => self.add(key),
            None => Ok(()),
        }
    }

    /// Keeps the first `count`, and those after them too if the policy set that found them decides Permit
    /// or Deny.
    pub(crate) fn keep_by(&mut self, decision: Decision, count: usize)
        ensures { self.new ≡ kept_by decision count self.old }
    {
        if decision.effect().is_none() {
            self.found.truncate(count);
        }
    }

    /// The identifiers that were found.
    pub(crate) fn into_items(self) -> Items<Shared<DocumentKey>>
        ensures { result ≡ self.ids }
    {
        Items::from_vec(self.found)
    }
}
