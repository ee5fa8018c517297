//! The designators that stand in a tree: no others are asked for, and whether one of them names the clock.
ghost use Rattle.std.specs.Prelude.{◌≡◌, IsTrue, map, flat_map};
ghost use Rattle.xa_expr.specs.Timeless.{is_timeless};
ghost use Rattle.xa_policy.specs.Designators.{DecisionsRestOnDesignators, IsSteady};
ghost use Rattle.xa_policy.specs.Designators.{designators_of_assignment, designators_of_condition};
ghost use Rattle.xa_policy.specs.Designators.{designators_of_duties, designators_of_duty};
ghost use Rattle.xa_policy.specs.Designators.{designators_of_linked, designators_of_policy};
ghost use Rattle.xa_policy.specs.Designators.{designators_of_rule, designators_of_set};

use crate::duty::{AttributeAssignmentExpression, DutyExpression, DutyExpressions};
use crate::linked::Linked;
use crate::policy::Policy;
use crate::policy_set::PolicySet;
use crate::rule::Rule;
use xa_expr::{HasDesignators, Typed, all_timeless};

impl HasDesignators for AttributeAssignmentExpression<Typed> {
    ghost designators_in = { designators_of_assignment };

    fn is_timeless(&self) -> bool {
        self.expression.is_timeless()
    }
}

impl HasDesignators for DutyExpression<Typed> {
    ghost designators_in = { designators_of_duty };

    fn is_timeless(&self) -> bool {
        all_timeless(self.assignments.as_slice())
    }
}

impl HasDesignators for DutyExpressions<Typed> {
    ghost designators_in = { designators_of_duties };

    #[tactic(auto, using(xa_expr::proofs::TimelessLemmas::timeless_both))]
    fn is_timeless(&self) -> bool {
        all_timeless(self.obligations.as_slice()) && all_timeless(self.advice.as_slice())
    }
}

impl HasDesignators for Rule<Typed> {
    ghost designators_in = { designators_of_rule };

    #[tactic(auto, using(xa_expr::proofs::TimelessLemmas::timeless_both))]
    fn is_timeless(&self) -> bool {
        self.target.is_timeless()
            && condition_is_timeless(&self.condition)
            && self.duties.is_timeless()
    }
}

impl HasDesignators for Policy {
    ghost designators_in = { designators_of_policy };

    #[tactic(auto, using(xa_expr::proofs::TimelessLemmas::timeless_both))]
    fn is_timeless(&self) -> bool {
        self.target().is_timeless()
            && all_timeless(self.variables().definitions())
            && all_timeless(self.rules())
            && self.duties().is_timeless()
    }
}

impl HasDesignators for PolicySet {
    ghost designators_in = { designators_of_set };

    #[tactic(auto, using(xa_expr::proofs::TimelessLemmas::timeless_both))]
    fn is_timeless(&self) -> bool {
        self.target().is_timeless() && self.duties().is_timeless()
    }
}

/// Whether no designator of the condition names the clock.
fn condition_is_timeless(condition: &Option<Typed>) -> bool
    ensures { result ≡ is_timeless (designators_of_condition condition.now) }
{
    match condition {
        Some(condition) => condition.is_timeless(),
        None => true,
    }
}

/// Whether no designator of the tree names the clock.
#[cycle(timeless)]
#[tactic(auto, using(xa_expr::proofs::TimelessLemmas::timeless_both))]
fn tree_is_timeless(linked: &Linked) -> bool
    ensures { result ≡ is_timeless (designators_of_linked linked.now) }
{
    match linked {
        Linked::Unresolved => true,
        Linked::Policy(policy) => policy.get().is_timeless(),
        Linked::PolicySet(set, children) => {
            set.get().is_timeless() && trees_are_timeless(children.get().as_slice())
        }
    }
}

/// Whether no designator of the trees names the clock.
#[cycle(timeless)]
fn trees_are_timeless(trees: &[Linked]) -> bool
    ensures { result ≡ is_timeless (flat_map (λ ds. ds) (map designators_of_linked trees.now)) }
{
    for tree in trees {
        if !tree_is_timeless(tree) {
            return false;
        }
    }
    true
}

/// Whether no designator of the tree names an attribute that the clock gives (XACML 3.0, core, appendix
/// B.7), used or not: then the tree decides the same at every moment.
pub fn timeless(linked: &Linked) -> bool
    ensures value { result ≡ is_timeless (designators_of_linked linked.now) }
    ensures steady { IsTrue result → IsSteady linked.now }
{
    tree_is_timeless(linked)
}

/// Law: two contexts that give each designator of a tree the same values get the same decision of it,
/// with the same status, obligations and advice.
pub fn decisions_rest_on_designators()
    ensures { DecisionsRestOnDesignators }
{}
