//! Keys of documents.
ghost use Rattle.std.specs.Cmp.{partial_order_from_own_ties};
ghost use Rattle.std.specs.Cmp.Rules.{comparing};
ghost use Rattle.std.specs.Ordering.{as_partial_cmp};
ghost use Rattle.std.proofs.Common.{rules};

use crate::reference::DocumentKind;
use crate::version::Version;
use std::cmp::Ordering;
use xa_value::Text;

/// What tells a document from all others of its domain: its kind, its id and its version (XACML 3.0,
/// core, sections 5.1, 5.12 and 5.14). Keys are in the order of their kinds, policies first, then of the
/// bytes of their ids, then of the numbers of their versions.
#[derive(Clone, Debug, Drop, PartialEq, Eq)]
pub struct DocumentKey {
    /// Whether it is a policy or a policy set.
    pub kind: DocumentKind,
    /// Its id.
    pub id: Text,
    /// Its version.
    pub version: Version,
}

impl Ord for DocumentKey {
    ghost use Rattle.xa_policy.specs.DocumentKey.{compare_keys};

    ghost cmp = { compare_keys };

    ghost total = { Prim.search (comparing, rules) };

    ghost matches_partial_cmp = { Prim.search (comparing, rules) };

    ghost matches_eq = { Prim.search (comparing, rules) };

    fn cmp(&self, other: &DocumentKey) -> Ordering {
        self.kind
            .place()
            .cmp(&other.kind.place())
            .then_with(|| self.id.cmp(&other.id))
            .then_with(|| self.version.cmp(&other.version))
    }
}

impl PartialOrd for DocumentKey {
    ghost use Rattle.xa_policy.specs.DocumentKey.{compare_keys};

    ghost partial_cmp = { as_partial_cmp compare_keys };

    ghost laws = { partial_order_from_own_ties
        (Prim.search (comparing, rules) depth 9) (Prim.search (comparing, rules) depth 9) };

    fn partial_cmp(&self, other: &DocumentKey) -> Option<Ordering> {
        Some(self.cmp(other))
    }
}
