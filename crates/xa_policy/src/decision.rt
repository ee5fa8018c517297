//! Effects and decisions.
ghost use Rattle.std.specs.Prelude.{◌≡◌, not};
ghost use Rattle.xa_policy.specs.Combining.{is, is_indeterminate};
ghost use Rattle.xa_policy.specs.declared.decision.Decision.TheVariants.{NotApplicable};
ghost use Rattle.xa_policy.specs.Duties.{effect_of, same_effect};
ghost use Rattle.xa_policy.specs.Mirror.{mirrored};
ghost use Rattle.xa_policy.specs.Effect.{decision_with, decision_left_open};

/// What a rule gives if it applies (XACML 3.0, core, section 5.22).
#[derive(Clone, Copy, Debug, PartialEq, Eq)]
pub enum Effect {
    /// It permits.
    Permit,
    /// It denies.
    Deny,
}

/// A decision, with the three kinds of Indeterminate (XACML 3.0, core, section 7.10).
#[derive(Clone, Copy, Debug, PartialEq, Eq)]
pub enum Decision {
    /// Permit.
    Permit,
    /// Deny.
    Deny,
    /// Nothing in the policy applies.
    NotApplicable,
    /// Indeterminate{P}: could have been Permit, and not Deny.
    IndeterminatePermit,
    /// Indeterminate{D}: could have been Deny, and not Permit.
    IndeterminateDeny,
    /// Indeterminate{DP}: could have been Permit or Deny.
    IndeterminateDenyPermit,
}

impl Effect {
    /// The decision with this effect.
    pub(crate) fn decision(self) -> Decision
        ensures { result ≡ decision_with self }
    {
        match self {
            Effect::Permit => Decision::Permit,
            Effect::Deny => Decision::Deny,
        }
    }

    /// Whether two effects are one. For the proof: the clause is by `same_effect`, as the definitions are.
    pub(crate) fn is(self, effect: Effect) -> bool
        ensures { result ≡ same_effect effect self }
    {
        effect == self
    }

    /// The effect left open: {P} of Permit, {D} of Deny.
    pub(crate) fn left_open(self) -> Decision
        ensures { result ≡ decision_left_open self }
    {
        match self {
            Effect::Permit => Decision::IndeterminatePermit,
            Effect::Deny => Decision::IndeterminateDeny,
        }
    }
}

impl Decision {
    /// Whether the decision is that with this effect.
    pub(crate) fn has_effect(self, effect: Effect) -> bool
        ensures { result ≡ is (decision_with effect) self }
    {
        effect.decision() == self
    }

    /// The effect, if it is a Permit or a Deny.
    pub(crate) fn effect(self) -> Option<Effect>
        ensures { result ≡ effect_of self }
    {
        match self {
            Decision::Permit => Some(Effect::Permit),
            Decision::Deny => Some(Effect::Deny),
            _ => None,
        }
    }

    /// Whether the decision is not NotApplicable.
    pub(crate) fn is_applicable(self) -> bool
        ensures { result ≡ not (is NotApplicable self) }
    {
        !matches!(self, Decision::NotApplicable)
    }

    /// Whether the decision is one of the three kinds of Indeterminate.
    pub(crate) fn is_indeterminate(self) -> bool
        ensures { result ≡ is_indeterminate self }
    {
        matches!(
            self,
            Decision::IndeterminatePermit
                | Decision::IndeterminateDeny
                | Decision::IndeterminateDenyPermit
        )
    }

    /// The decision with Permit and Deny exchanged.
    pub(crate) fn mirror_of(self) -> Decision
        ensures { result ≡ mirrored self }
    {
        match self {
            Decision::Permit => Decision::Deny,
            Decision::Deny => Decision::Permit,
            Decision::NotApplicable => Decision::NotApplicable,
            Decision::IndeterminatePermit => Decision::IndeterminateDeny,
            Decision::IndeterminateDeny => Decision::IndeterminatePermit,
            Decision::IndeterminateDenyPermit => Decision::IndeterminateDenyPermit,
        }
    }
}
