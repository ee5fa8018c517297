//! Laws between combining algorithms.
ghost use Rattle.std.specs.Prelude.{◌≡◌};
ghost use Rattle.xa_policy.specs.Combining.{combined_decision};
ghost use Rattle.xa_policy.specs.Mirror.{Mirrors};

use crate::combining::{Alg, Child};

impl Alg {
    /// Law: permit-overrides is deny-overrides with Permit and Deny exchanged.
    #[tactic(auto, using(crate::proofs::MirrorLemmas::permit_overrides_law))]
    pub fn permit_overrides_mirrors_deny_overrides(children: &[Child])
        ensures { Mirrors Alg.PermitOverrides Alg.DenyOverrides children.now }
    {
        // For the proof: the clause, which holds of any children.
        let _ = children.len();
    }

    /// Law: permit-unless-deny is deny-unless-permit with Permit and Deny exchanged.
    #[tactic(auto, using(crate::proofs::MirrorLemmas::permit_unless_deny_law))]
    pub fn permit_unless_deny_mirrors_deny_unless_permit(children: &[Child])
        ensures { Mirrors Alg.PermitUnlessDeny Alg.DenyUnlessPermit children.now }
    {
        // For the proof: the clause, which holds of any children.
        let _ = children.len();
    }

    /// Law: the ordered forms are the unordered ones, since children are always taken in their order.
    pub fn ordered_forms_are_the_unordered(children: &[Child])
        ensures deny { combined_decision Alg.OrderedDenyOverrides children.now
            ≡ combined_decision Alg.DenyOverrides children.now }
        ensures permit { combined_decision Alg.OrderedPermitOverrides children.now
            ≡ combined_decision Alg.PermitOverrides children.now }
    {
        // For the proof: the clause, which holds of any children.
        let _ = children.len();
    }
}
