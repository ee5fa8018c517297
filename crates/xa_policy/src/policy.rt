//! Policies, whose expressions are checked.
ghost use Rattle.std.specs.Prelude.{◌≡◌, [], IfOk, OnErr};
ghost use Rattle.std.specs.Result.{result_map_both};
ghost use Rattle.xa_value.specs.Gives.{Gives};
ghost use Rattle.xa_expr.specs.Variables.{kinds};
ghost use Rattle.xa_policy.specs.Adding.{duties_replaced, no_expressions, rule_added};
ghost use Rattle.xa_policy.specs.Policy.{AreTypedDuties, AreTypedRules, policy_key};

use crate::checking::{check_duties, check_rule};
use crate::combining::Alg;
use crate::document_key::DocumentKey;
use crate::duty::DutyExpressions;
use crate::reference::DocumentKind;
use crate::rule::Rule;
use crate::version::Version;
use std::alloc::{AllocError, Global};
use std::marker::Model;
use xa_expr::{CheckError, Expr, Target, Typed, Variables};
use xa_value::{Items, OrMemory, Shared, Text};

/// A policy (XACML 3.0, core, section 5.14). Its expressions are checked under its variables.
#[derive(Debug, Drop)]
pub struct Policy {
    /// What tells it from others.
    key: Shared<DocumentKey>,
    /// How the rules' decisions are combined.
    algorithm: Alg,
    /// To what it applies.
    target: Target,
    /// The variables that its expressions may name.
    variables: Variables,
    /// The rules, in order.
    rules: Items<Rule<Typed>>,
    /// The obligations and the advice.
    duties: DutyExpressions<Typed>,
}

impl Model for Policy {
    ghost use Rattle.std.specs.Coded.{codes};
    ghost use Rattle.xa_expr.specs.contracts.typed.Typed as typed;
    ghost use Rattle.xa_policy.specs.Policy.{PolicyParts, IsTypedPolicy};

    ghost Value = { PolicyParts };

    ghost coded = { Prim.hlevel (codes, typed.the_row.coded) };

    ghost view = { λ p. record {
      key = p.key;
      algorithm = p.algorithm;
      target = p.target;
      variables = p.variables;
      rules = p.rules;
      duties = p.duties;
    } };

    ghost invariant = { λ p. IsTypedPolicy
        (record {
          key = p.key;
          algorithm = p.algorithm;
          target = p.target;
          variables = p.variables;
          rules = p.rules;
          duties = p.duties;
        }) };
}

impl Policy {
    /// A policy of that id and version, without rules, obligations and advice.
    pub fn new(
        alloc: Global,
        id: Text,
        version: Version,
        algorithm: Alg,
        target: Target,
        variables: Variables,
    ) -> Result<Policy, AllocError>
        ensures { IfOk result (λ policy. policy ≡ record {
          key = policy_key id version;
          algorithm = algorithm;
          target = target;
          variables = variables;
          rules = [];
          duties = no_expressions;
        }) }
    {
        let key = DocumentKey {
            kind: DocumentKind::Policy,
            id,
            version,
        };
        Ok(Policy {
            key: Shared::new(alloc, key)?,
            algorithm,
            target,
            variables,
            rules: Items::new(alloc),
            duties: DutyExpressions::none(alloc),
        })
    }

    /// Checks the rule's condition, obligations and advice, in this order, and puts it after the rules
    /// so far. If one has a fault, nothing changes.
    #[tactic(auto, using(crate::proofs::CheckingLemmas::one_more_rule))]
    pub fn add_rule(&mut self, alloc: Global, rule: Rule<Expr>) -> Result<(), OrMemory<CheckError>>
        ensures value { Gives (result_map_both (λ _. self.new) (λ e. e) result) (rule_added self.old rule) }
        ensures err { OnErr result (self.new ≡ self.old) }
    {
        let rule = check_rule(alloc, rule, &self.variables)?;
        self.rules.push(rule)?;
        Ok(())
    }

    /// Checks the obligations and the advice, in this order, and gives them to the policy in place of
    /// those that it has. If one has a fault, nothing changes.
    pub fn set_duties(
        &mut self,
        alloc: Global,
        duties: &DutyExpressions<Expr>,
    ) -> Result<(), OrMemory<CheckError>>
        ensures value { Gives (result_map_both (λ _. self.new) (λ e. e) result)
            (duties_replaced self.old duties.now) }
        ensures err { OnErr result (self.new ≡ self.old) }
    {
        self.duties = check_duties(alloc, duties, &self.variables)?;
        Ok(())
    }

    /// What tells it from others: its kind, its id and its version.
    pub fn key(&self) -> &Shared<DocumentKey>
        ensures { result.now ≡ self.now.key }
    {
        &self.key
    }

    /// How the rules' decisions are combined.
    pub fn algorithm(&self) -> Alg
        ensures { result ≡ self.now.algorithm }
    {
        self.algorithm
    }

    /// To what the policy applies.
    pub fn target(&self) -> &Target
        ensures { result.now ≡ self.now.target }
    {
        &self.target
    }

    /// The variables that the rules, obligations and advice may name.
    pub fn variables(&self) -> &Variables
        ensures { result.now ≡ self.now.variables }
    {
        &self.variables
    }

    /// The rules, in order.
    pub fn rules(&self) -> &[Rule<Typed>]
        ensures value { result.now ≡ self.now.rules }
        ensures typed { AreTypedRules (kinds self.now.variables) result.now }
    {
        self.rules.as_slice()
    }

    /// The obligations and the advice.
    pub fn duties(&self) -> &DutyExpressions<Typed>
        ensures value { result.now ≡ self.now.duties }
        ensures typed { AreTypedDuties (kinds self.now.variables) result.now }
    {
        &self.duties
    }
}
