//! The tokens of a domain, in memory.
ghost use Rattle.std.specs.Prelude.{◌≡◌, ◌||◌, map, nat_lt, IfOk, OnOk, OnErr};
ghost use Rattle.std.specs.FinMap.{contains_key, empty, entries, insert, len, remove};
ghost use Rattle.xa_records.specs.Readings.{token_of};

use crate::digest::Digest;
use crate::gate::Token;
use crate::limits::MAX_TOKENS;
use std::alloc::{AllocError, Global};
use std::collections::BTreeMap;
use std::marker::Model;
use xa_notation::Role;
use xa_value::Items;

/// The tokens of a domain.
#[derive(Drop)]
pub(crate) struct Tokens {
    /// Their roles by their digests.
    roles: BTreeMap<Digest, Role>,
}

impl Model for Tokens {
    ghost use Rattle.std.specs.Coded.{coded_list, coded_ℕ};
    ghost use Rattle.std.specs.FinMap as finite;
    ghost use Rattle.xa_notation.specs.contracts.token.Role as role;
    ghost use Rattle.xa_notation.specs.declared.token.Role.{Role as Allowed};
    ghost use Rattle.xa_records.specs.DomainState.{compare_bytes};

    ghost Value = { finite.FinMap compare_bytes Allowed };

    ghost coded = { finite.code (coded_list coded_ℕ) role.the_row.coded };

    ghost view = { λ t. finite.from_entries t.roles.entries };
}

impl Tokens {
    /// No tokens. Nothing is allocated.
    pub(crate) fn new(alloc: Global) -> Tokens
        ensures { result ≡ empty }
    {
        Tokens {
            roles: BTreeMap::new(alloc),
        }
    }

    /// Whether the token of that digest is there.
    pub(crate) fn contains(&self, digest: &Digest) -> bool
        ensures { result ≡ contains_key self.now digest.now }
    {
        self.roles.contains_key(digest)
    }

    /// Whether the token of that digest may be put: it is there already, or there are fewer than a
    /// domain may have.
    pub(crate) fn has_room_for(&self, digest: &Digest) -> bool
        ensures { result ≡ (contains_key self.now digest.now || nat_lt (len self.now) 32) }
    {
        self.contains(digest) || self.len() < MAX_TOKENS
    }

    /// How many tokens there are.
    fn len(&self) -> usize
        ensures { result ≡ len self.now }
    {
        self.roles.len()
    }

    /// Adds a token, or replaces the role of one. Without memory nothing changes.
    pub(crate) fn put(&mut self, digest: Digest, role: Role) -> Result<(), AllocError>
        ensures ok { OnOk result (self.new ≡ insert self.old digest role) }
        ensures err { OnErr result (self.new ≡ self.old) }
    {
        self.roles.insert(digest, role)?;
        Ok(())
    }

    /// Removes a token.
    pub(crate) fn remove(&mut self, digest: &Digest)
        ensures { self.new ≡ remove self.old digest.now }
    {
        self.roles.remove(digest);
    }

    /// The tokens in the order of their digests.
    pub(crate) fn list(&self, alloc: Global) -> Result<Items<Token>, AllocError>
        ensures { IfOk result (λ tokens. tokens ≡ map token_of (entries self.now)) }
    {
        let mut tokens = Vec::with_capacity(alloc, self.roles.len())?;
        for (digest, role) in self.roles.iter() {
            tokens.push(Token {
                digest: *digest,
                role: *role,
            })?;
        }
        Ok(Items::from_vec(tokens))
    }
}
