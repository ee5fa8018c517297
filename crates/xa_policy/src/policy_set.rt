//! Policy sets, whose expressions are checked.
ghost use Rattle.std.specs.Prelude.{◌≡◌, [], IfOk, OnErr};
ghost use Rattle.std.specs.Result.{result_map_both};
ghost use Rattle.xa_value.specs.Gives.{Gives};
ghost use Rattle.xa_policy.specs.Adding.{duties_of_set_replaced, no_expressions};
ghost use Rattle.xa_policy.specs.Policy.{AreTypedDuties, set_key};

use crate::checking::check_duties;
use crate::combining::Alg;
use crate::document_key::DocumentKey;
use crate::duty::DutyExpressions;
use crate::reference::DocumentKind;
use crate::version::Version;
use std::alloc::{AllocError, Global};
use std::marker::Model;
use xa_expr::{CheckError, Expr, Target, Typed, Variables};
use xa_value::{OrMemory, Shared, Text};

/// A policy set without its children (XACML 3.0, core, section 5.1). It has no variables.
#[derive(Debug, Drop)]
pub struct PolicySet {
    /// What tells it from others.
    key: Shared<DocumentKey>,
    /// How the children's decisions are combined.
    algorithm: Alg,
    /// To what it applies.
    target: Target,
    /// The obligations and the advice.
    duties: DutyExpressions<Typed>,
}

impl Model for PolicySet {
    ghost use Rattle.std.specs.Coded.{codes};
    ghost use Rattle.xa_expr.specs.contracts.typed.Typed as typed;
    ghost use Rattle.xa_policy.specs.Policy.{SetParts, IsTypedSet};

    ghost Value = { SetParts };

    ghost coded = { Prim.hlevel (codes, typed.the_row.coded) };

    ghost view = { λ s.
        record { key = s.key; algorithm = s.algorithm; target = s.target; duties = s.duties } };

    ghost invariant = { λ s.
        IsTypedSet (record { key = s.key; algorithm = s.algorithm; target = s.target; duties = s.duties }) };
}

impl PolicySet {
    /// A policy set of that id and version, without obligations and advice.
    pub fn new(
        alloc: Global,
        id: Text,
        version: Version,
        algorithm: Alg,
        target: Target,
    ) -> Result<PolicySet, AllocError>
        ensures { IfOk result (λ set. set ≡ record {
          key = set_key id version;
          algorithm = algorithm;
          target = target;
          duties = no_expressions;
        }) }
    {
        let key = DocumentKey {
            kind: DocumentKind::PolicySet,
            id,
            version,
        };
        Ok(PolicySet {
            key: Shared::new(alloc, key)?,
            algorithm,
            target,
            duties: DutyExpressions::none(alloc),
        })
    }

    /// Checks the obligations and the advice, in this order, and gives them to the policy set in place
    /// of those that it has. If one has a fault, nothing changes.
    pub fn set_duties(
        &mut self,
        alloc: Global,
        duties: &DutyExpressions<Expr>,
    ) -> Result<(), OrMemory<CheckError>>
        ensures value { Gives (result_map_both (λ _. self.new) (λ e. e) result)
            (duties_of_set_replaced self.old duties.now) }
        ensures err { OnErr result (self.new ≡ self.old) }
    {
        let none = Variables::new(alloc);
        self.duties = check_duties(alloc, duties, &none)?;
        Ok(())
    }

    /// What tells it from others: its kind, its id and its version.
    pub fn key(&self) -> &Shared<DocumentKey>
        ensures { result.now ≡ self.now.key }
    {
        &self.key
    }

    /// How the children's decisions are combined.
    pub fn algorithm(&self) -> Alg
        ensures { result ≡ self.now.algorithm }
    {
        self.algorithm
    }

    /// To what the policy set applies.
    pub fn target(&self) -> &Target
        ensures { result.now ≡ self.now.target }
    {
        &self.target
    }

    /// The obligations and the advice.
    pub fn duties(&self) -> &DutyExpressions<Typed>
        ensures value { result.now ≡ self.now.duties }
        ensures typed { AreTypedDuties [] result.now }
    {
        &self.duties
    }
}
