//! A document as it is written: its shape is right, and its types are not looked at yet.
ghost use Rattle.std.specs.Prelude.{◌≡◌, [], IfOk};
ghost use Rattle.xa_notation.specs.Shape.{document_of_policy, document_of_set, tree_of_set};

use std::alloc::{AllocError, Global};
use xa_expr::{Designator, Expr};
use xa_policy::{Alg, DocumentKey, DutyExpressions, Effect, Reference};
use xa_value::{Items, Text, Value};

/// A match: its function by name, its literal and its designator.
#[derive(Debug, Drop)]
pub(crate) struct WrittenMatch {
    pub(crate) function: Text,
    pub(crate) literal: Value,
    pub(crate) designator: Designator,
}

/// Matches that must all be true.
#[derive(Debug, Drop)]
pub(crate) struct WrittenAllOf {
    pub(crate) matches: Items<WrittenMatch>,
}

/// Alternatives of which one must match.
#[derive(Debug, Drop)]
pub(crate) struct WrittenAnyOf {
    pub(crate) all_of: Items<WrittenAllOf>,
}

/// A target.
#[derive(Debug, Drop)]
pub(crate) struct WrittenTarget {
    pub(crate) any_of: Items<WrittenAnyOf>,
}

/// The definition of a variable.
#[derive(Debug, Drop)]
pub(crate) struct WrittenVariable {
    pub(crate) name: Text,
    pub(crate) expression: Expr,
}

/// A rule.
#[derive(Debug, Drop)]
pub(crate) struct WrittenRule {
    pub(crate) effect: Effect,
    pub(crate) target: WrittenTarget,
    pub(crate) condition: Option<Expr>,
    pub(crate) duties: DutyExpressions<Expr>,
}

/// A policy.
#[derive(Debug, Drop)]
pub(crate) struct WrittenPolicy {
    pub(crate) key: DocumentKey,
    pub(crate) algorithm: Alg,
    pub(crate) target: WrittenTarget,
    pub(crate) variables: Items<WrittenVariable>,
    pub(crate) rules: Items<WrittenRule>,
    pub(crate) duties: DutyExpressions<Expr>,
}

/// A policy set without its children.
#[derive(Debug, Drop)]
pub(crate) struct WrittenSet {
    pub(crate) key: DocumentKey,
    pub(crate) algorithm: Alg,
    pub(crate) target: WrittenTarget,
    pub(crate) duties: DutyExpressions<Expr>,
}

/// A policy, a policy set with its children, or a reference.
#[derive(Debug, Drop)]
pub(crate) enum WrittenTree {
    /// A policy.
    Policy(WrittenPolicy),
    /// A policy set, with its children in order.
    PolicySet(WrittenSet, Items<WrittenTree>),
    /// A reference.
    Reference(Reference),
}

/// A policy set with its children.
#[derive(Debug, Drop)]
pub(crate) struct WrittenSetWithChildren {
    pub(crate) set: WrittenSet,
    pub(crate) children: Items<WrittenTree>,
}

/// A whole document.
#[derive(Debug, Drop)]
pub(crate) struct WrittenDocument {
    /// The key of the tree's policy or policy set, once more.
    pub(crate) key: DocumentKey,
    /// A policy, or a policy set with its children.
    pub(crate) tree: WrittenTree,
}

impl WrittenPolicy {
    /// The policy as a whole document.
    pub(crate) fn into_document(self) -> Result<WrittenDocument, AllocError>
        ensures { IfOk result (λ d. d ≡ document_of_policy self) }
    {
        let key = self.key.clone()?;
        Ok(WrittenDocument {
            key,
            tree: WrittenTree::Policy(self),
        })
    }
}

impl WrittenSetWithChildren {
    /// The policy set as a part of a document.
    pub(crate) fn into_tree(self) -> WrittenTree
        ensures { result ≡ tree_of_set self }
    {
        let WrittenSetWithChildren { set, children } = self;
        WrittenTree::PolicySet(set, children)
    }

    /// The policy set as a whole document.
    pub(crate) fn into_document(self) -> Result<WrittenDocument, AllocError>
        ensures { IfOk result (λ d. d ≡ document_of_set self) }
    {
        let key = self.set.key.clone()?;
        Ok(WrittenDocument {
            key,
            tree: self.into_tree(),
        })
    }
}

impl WrittenTarget {
    /// The empty target.
    pub(crate) fn empty(alloc: Global) -> WrittenTarget
        ensures { result ≡ record { any_of = [] } }
    {
        WrittenTarget {
            any_of: Items::new(alloc),
        }
    }
}
