//! Targets: to what a policy or a rule applies. Each part that is looked at is counted, whether or not
//! it has matches.
ghost use Rattle.std.specs.Prelude.{◌≡◌, [], Ok, IfOk};
ghost use Rattle.xa_expr.specs.declared.matching.Matching.TheVariants as matching;
ghost use Rattle.xa_expr.specs.Target.{all_of_value, any_of_value, target_value};
ghost use Rattle.xa_expr.specs.TargetMisfits.{TargetFits};

use crate::context::Context;
use crate::match_::Match;
use crate::matching::Matching;
use crate::work::LOOK;
use std::alloc::{AllocError, Global};
use xa_value::Items;

/// Matches that must all be true (core, section 5.8).
#[derive(Debug, Drop)]
pub struct AllOf {
    /// The matches, in order.
    pub matches: Items<Match>,
}

/// Conjunctions of which one must match (core, section 5.7).
#[derive(Debug, Drop)]
pub struct AnyOf {
    /// The alternatives, in order.
    pub all_of: Items<AllOf>,
}

/// A target (core, section 5.6): to what a policy or a rule applies. An empty one matches everything.
#[derive(Debug, Drop)]
pub struct Target {
    /// The conditions, in order; without one it matches everything.
    pub any_of: Items<AnyOf>,
}

impl AllOf {
    /// Whether all matches are true. The first that is not settles it.
    #[tactic(auto, using(crate::proofs::TargetLemmas::all_match_joined, crate::proofs::TargetLemmas::all_match_single))]
    fn matching<C: Context>(&self, alloc: Global, context: &C) -> Result<Matching, AllocError>
        ensures { IfOk result (λ m. m ≡ all_of_value (C.values_of context.now) self.now) }
    {
        context.spend(LOOK)?;
        let mut so_far = Matching::Match;
        for child in self.matches.as_slice() {
            so_far = so_far.and(child.matching(alloc, context)?);
            if so_far == Matching::NoMatch {
                return Ok(Matching::NoMatch);
            }
        }
        Ok(so_far)
    }
}

impl AnyOf {
    /// Whether one of the conjunctions matches. The first that does settles it.
    #[tactic(auto, using(crate::proofs::TargetLemmas::some_match_joined, crate::proofs::TargetLemmas::some_match_single))]
    fn matching<C: Context>(&self, alloc: Global, context: &C) -> Result<Matching, AllocError>
        ensures { IfOk result (λ m. m ≡ any_of_value (C.values_of context.now) self.now) }
    {
        context.spend(LOOK)?;
        let mut so_far = Matching::NoMatch;
        for child in self.all_of.as_slice() {
            so_far = so_far.or(child.matching(alloc, context)?);
            if so_far == Matching::Match {
                return Ok(Matching::Match);
            }
        }
        Ok(so_far)
    }
}

impl Target {
    /// Whether every part of the target matches (core, section 7.7). The first that does not settles it.
    /// An empty target matches, whatever memory there is. Clause `fits`: no wrong type is met, in any
    /// part of the target.
    #[tactic(auto, using(crate::proofs::TargetLemmas::all_match_joined, crate::proofs::TargetLemmas::all_match_single))]
    pub fn matching<C: Context>(&self, alloc: Global, context: &C) -> Result<Matching, AllocError>
        ensures value { IfOk result (λ m. m ≡ target_value (C.values_of context.now) self.now) }
        ensures empty { self.now.any_of ≡ [] → result ≡ Ok matching.Match }
        ensures fits { TargetFits (C.values_of context.now) self.now }
    {
        context.keeps_types();
        let mut so_far = Matching::Match;
        for child in self.any_of.as_slice() {
            so_far = so_far.and(child.matching(alloc, context)?);
            if so_far == Matching::NoMatch {
                return Ok(Matching::NoMatch);
            }
        }
        Ok(so_far)
    }
}
