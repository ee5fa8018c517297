//! The gates that are remembered: of each domain at most one, under its name. A gate is what lets messages
//! in: the domain's tokens, with its number and epoch.
ghost use Rattle.std.specs.Prelude.{◌≡◌, ◌⊎◌, [], IfOk, None, bytes_eq};
ghost use Rattle.std.specs.Map.{lookup};
ghost use Rattle.xa_server.specs.handling.Gates.{promoted, revision_in, role_in, with_gate, without_gate};

use crate::revision::Revision;
use lru::LruCache;
use std::alloc::{AllocError, Global};
use std::marker::Model;
use std::num::NonZeroUsize;
use xa_notation::Role;
use xa_records::{Digest, Gate, Token};
use xa_value::Text;

/// The most gates that are remembered: with 32 tokens each, the most of a domain, they take less than 1 MiB.
const MAX_GATES: usize = 512;

/// Gates that are remembered, each under its domain's name.
#[derive(Drop)]
pub(crate) struct Gates {
    /// The gates, the most recently used first.
    gates: LruCache<Text, Gate>,
}

impl Model for Gates {
    ghost use Rattle.std.specs.Prelude.{◌≡◌, List, ℕ};
    ghost use Rattle.std.specs.Coded.{codes};
    ghost use Rattle.xa_records.specs.contracts.gate.Gate.{the_row as gate_row};
    ghost use Rattle.xa_records.specs.declared.gate.Gate as gate;

    ghost Value = { List (List ℕ × gate.Gate) };

    ghost coded = { Prim.hlevel (codes, gate_row.coded) };

    ghost view = { λ g. g.gates.entries };

    ghost invariant = { λ g. g.gates.cap ≡ 512 };
}

impl Gates {
    /// No gates, and room for 512.
    pub(crate) fn new(alloc: Global) -> Result<Gates, AllocError>
        ensures { IfOk result (λ gates. gates ≡ []) }
    {
        let size = NonZeroUsize::new(MAX_GATES).unwrap();
        Ok(Gates {
            gates: LruCache::new(alloc, size)?,
        })
    }

    /// The revision of the domain of that name, if its gate is remembered and one of its tokens has that
    /// digest: one look-up.
    pub(crate) fn find(&self, name: &Text, digest: &Digest) -> Option<Revision>
        ensures { result ≡ revision_in name.now digest.now self.now }
    {
        let gate = self.gates.peek(name)?;
        role_in(gate.tokens.as_slice(), digest)?;
        Some(Revision::of(gate))
    }

    /// Makes the gate under that name the most recently used: one look-up.
    pub(crate) fn touch(&mut self, name: &Text)
        ensures { self.new ≡ promoted name.now self.old }
    {
        self.gates.promote(name);
    }

    /// Remembers the gate under a copy of that name, as the most recently used, if there is memory. Of 513
    /// the least recently used is evicted.
    pub(crate) fn remember(&mut self, name: &Text, gate: Gate)
        ensures { (self.new ≡ with_gate name.now gate self.old) ⊎ (self.new ≡ self.old) }
    {
        if let Ok(name) = name.clone() {
            let _put = self.gates.put(name, gate);
        }
    }

    /// Forgets the gate under that name.
    #[tactic(auto, using(crate::proofs::GateLemmas::gone))]
    pub(crate) fn forget(&mut self, name: &Text)
        ensures forgotten { self.new ≡ without_gate name.now self.old }
        ensures gone { lookup (bytes_eq name.now) self.new ≡ None }
    {
        // For the proof: no two gates stand under one name (the clause `valid`).
        let _length = self.gates.len();
        self.gates.pop(name);
    }
}

/// The role of the token of that digest, among these.
pub(crate) fn role_in(tokens: &[Token], digest: &Digest) -> Option<Role>
    ensures { result ≡ role_in digest.now tokens.now }
{
    for token in tokens {
        if token.digest == *digest {
            return Some(token.role);
        }
    }
    None
}
