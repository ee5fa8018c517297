//! A policy or a policy set with all that it refers to.
use crate::policy::Policy;
use crate::policy_set::PolicySet;
use xa_value::{Boxed, Items, Shared};

/// A policy, or a policy set with its children, in which each reference is replaced by what it refers to
/// (XACML 3.0, core, sections 5.10 and 5.11). Policies, and policy sets without their children, are
/// shared by all trees that hold them. The list of children stands in a box, so that a leaf takes little
/// room.
#[derive(Debug, Drop)]
pub enum Linked {
    /// A reference that leads to nothing, or back to what holds it.
    Unresolved,
    /// A policy.
    Policy(Shared<Policy>),
    /// A policy set, with its children in order.
    PolicySet(Shared<PolicySet>, Boxed<Items<Linked>>),
}
