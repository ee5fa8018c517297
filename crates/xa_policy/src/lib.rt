//! Policies, and what they decide (XACML 3.0, core, sections 7.9 to 7.15 and 7.18, appendix C), and
//! their versions (5.10 to 5.13).
//!
//! `policy` and `policy_set` hold rules (`rule`), obligations and advice (`duty`), whose expressions
//! `checking` has checked. `linked` is the tree of them, in which each `reference` is replaced by what it
//! refers to; `designators` tells which attributes it asks for. `version` and `pattern` are read and written.
//!
//! `evaluation` works out what a tree decides. `combination` takes the verdicts (`verdict`) of children one
//! after another, `fulfilment` adds obligations and advice, and `identifiers` the keys (`document_key`) that
//! are named; the whole is `evaluated`. `combining` has the algorithms alone, on `decision`, and `mirror`
//! their laws.
#![tactic(auto)]

mod checking;
mod combination;
mod combining;
mod decision;
mod designators;
mod document_key;
mod duty;
mod evaluated;
mod evaluation;
mod fulfilment;
mod identifiers;
mod linked;
mod mirror;
mod pattern;
mod policy;
mod policy_set;
mod reference;
mod rule;
mod verdict;
mod version;
mod version_error;

pub use combining::{Alg, Child, combine};
pub use decision::{Decision, Effect};
pub use designators::{decisions_rest_on_designators, timeless};
pub use document_key::DocumentKey;
pub use duty::{
    AttributeAssignment, AttributeAssignmentExpression, Duties, Duty, DutyExpression,
    DutyExpressions,
};
pub use evaluated::Evaluated;
pub use evaluation::evaluate;
pub use linked::Linked;
pub use pattern::{Pattern, PatternPart};
pub use policy::Policy;
pub use policy_set::PolicySet;
pub use reference::{DocumentKind, Reference};
pub use rule::Rule;
pub use verdict::Verdict;
pub use version::Version;
pub use version_error::VersionError;
