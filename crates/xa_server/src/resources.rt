//! What a server shares among all domains: the shelf of policies, the cached views, decisions and gates,
//! and what the decision on a message may cost.
ghost use Rattle.std.specs.Prelude.{◌≡◌, ◌⊎◌, [], IfOk, IsSome, None, bytes_eq};
ghost use Rattle.std.specs.Map.{lookup};
ghost use Rattle.xa_server.specs.handling.Gates.{forgetting, remembering, revision_in, using_gate};
ghost use Rattle.xa_server.specs.Resources.{empty_resources};

use crate::decisions::Decisions;
use crate::gates::Gates;
use crate::limits::MessageLimits;
use crate::oversized::Oversized;
use crate::revision::Revision;
use crate::views::Views;
use std::alloc::{AllocError, Global};
use std::marker::Model;
use xa_decide::Limits;
use xa_records::{Digest, Gate};
use xa_shelf::Shelf;
use xa_value::Text;

/// The texts of policies that were read, and the domains whose policies have too much text to read.
#[derive(Drop)]
pub(crate) struct PolicyTexts {
    /// The policies that were read.
    pub(crate) shelf: Shelf,
    /// The domains whose policies have more bytes than may be read for a message.
    pub(crate) oversized: Oversized,
}

/// What a server shares among all domains.
#[derive(Drop)]
pub(crate) struct Resources {
    /// The texts of policies.
    pub(crate) texts: PolicyTexts,
    /// The cached views.
    pub(crate) views: Views,
    /// The cached decisions.
    pub(crate) decisions: Decisions,
    /// The gates that are remembered. Only the methods below reach them: a look-up that finds the token
    /// also makes the gate the most recently used.
    gates: Gates,
    /// What the decision on a message may cost.
    pub(crate) limits: MessageLimits,
}

impl Model for Resources {
    ghost use Rattle.std.specs.Coded.{codes};
    ghost use Rattle.xa_server.specs.contracts.decisions.Decisions as held;
    ghost use Rattle.xa_server.specs.contracts.gates.Gates as known;
    ghost use Rattle.xa_server.specs.contracts.views.Views as ready;
    ghost use Rattle.xa_server.specs.Resources.{ResourcesModel};

    ghost Value = { ResourcesModel };

    ghost coded = { Prim.hlevel (codes, held.the_row.coded, ready.the_row.coded, known.the_row.coded) };

    ghost view = { λ r. record { decisions = r.decisions; views = r.views; gates = r.gates } };
}

impl Resources {
    /// Nothing is cached yet, and a decision request may cost anything.
    pub(crate) fn new(alloc: Global, operator: Digest) -> Result<Resources, AllocError>
        ensures { IfOk result (λ r. r ≡ empty_resources) }
    {
        Ok(Resources {
            texts: PolicyTexts {
                shelf: Shelf::new(alloc)?,
                oversized: Oversized::new(alloc)?,
            },
            views: Views::new(alloc)?,
            decisions: Decisions::new(alloc, operator)?,
            gates: Gates::new(alloc)?,
            limits: MessageLimits::none(),
        })
    }

    /// From now on with these limits of deciding. All that is cached stays.
    pub(crate) fn set_limits(&mut self, limits: Limits)
        ensures { self.new ≡ self.old }
    {
        self.limits.deciding = limits;
    }

    /// From now on with this limit of reading. No view is cached any longer: more may have been read for it.
    pub(crate) fn set_reading_limit(&mut self, bytes: Option<u64>)
        ensures { self.new ≡ record {
          decisions = self.old.decisions;
          views = record {
            views = [];
            max_count = self.old.views.max_count;
            max_bytes = self.old.views.max_bytes;
          };
          gates = self.old.gates;
        } }
    {
        self.views.clear();
        self.texts.oversized.clear();
        self.limits.reading = bytes;
    }

    /// The revision of the domain of that name, if its gate is remembered and one of its tokens has that
    /// digest. If so, the gate is now the most recently used.
    pub(crate) fn revision_by_gate(&mut self, name: &Text, digest: &Digest) -> Option<Revision>
        ensures revision { result ≡ revision_in name.now digest.now self.old.gates }
        ensures uses { IsSome result → self.new ≡ using_gate name.now self.old }
        ensures left { result ≡ None → self.new ≡ self.old }
    {
        let revision = self.gates.find(name, digest)?;
        self.gates.touch(name);
        Some(revision)
    }

    /// Remembers the gate under that name, if there is memory. For the proof: nothing else is changed.
    pub(crate) fn remember(&mut self, name: &Text, gate: Gate)
        ensures { (self.new ≡ remembering name.now gate self.old) ⊎ (self.new ≡ self.old) }
    {
        self.gates.remember(name, gate);
    }

    /// Forgets the gate under that name.
    pub(crate) fn forget(&mut self, name: &Text)
        ensures forgotten { self.new ≡ forgetting name.now self.old }
        ensures gone { lookup (bytes_eq name.now) self.new.gates ≡ None }
    {
        self.gates.forget(name);
    }
}
