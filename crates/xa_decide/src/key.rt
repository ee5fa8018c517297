//! The keys of an index: a number and texts, and their order.
ghost use Rattle.std.specs.Cmp.{partial_order_from_own_ties};
ghost use Rattle.std.specs.Cmp.Rules.{comparing};
ghost use Rattle.std.specs.Ordering.{as_partial_cmp};
ghost use Rattle.std.proofs.Common.{rules};

use std::cmp::Ordering;
use std::marker::Model;

/// What is looked up in an index: a number, and the texts of an attribute or a row, each empty if the
/// index doesn't go by it.
#[derive(Debug, Drop)]
pub(crate) struct Key<'a> {
    /// A data type's number, moved past those of all types if an issuer is a part of the key.
    pub(crate) number: usize,
    /// The category's URI.
    pub(crate) category: &'a str,
    /// The row's entity.
    pub(crate) entity: &'a str,
    /// The attribute's id.
    pub(crate) id: &'a str,
    /// The issuer.
    pub(crate) issuer: &'a str,
}

impl<'a> Model for Key<'a> {
    ghost use Rattle.xa_decide.specs.indexing.Index.{Sought};

    ghost Value = { Sought };

    ghost view = { λ k. record {
      number = k.number;
      category = k.category.now;
      entity = k.entity.now;
      id = k.id.now;
      issuer = k.issuer.now;
    } };
}

impl<'a> PartialEq for Key<'a> {
    ghost use Rattle.xa_decide.specs.indexing.Index.{equal_keys};

    ghost eq = { equal_keys };

    ghost laws = { Prim.search (comparing, rules) };

    fn eq(&self, other: &Key<'a>) -> bool {
        self.number == other.number
            && self.category == other.category
            && self.entity == other.entity
            && self.id == other.id
            && self.issuer == other.issuer
    }
}

impl<'a> Eq for Key<'a> {
    ghost laws = { Prim.search (comparing, rules) };
}

impl<'a> Ord for Key<'a> {
    ghost use Rattle.xa_decide.specs.indexing.Index.{compare_keys};

    ghost cmp = { compare_keys };

    ghost total = { Prim.search (comparing, rules) depth 7 };

    ghost matches_partial_cmp = { Prim.search (comparing, rules) };

    ghost matches_eq = { Prim.search (comparing, rules) };

    fn cmp(&self, other: &Key<'a>) -> Ordering {
        self.number
            .cmp(&other.number)
            .then_with(|| self.category.cmp(other.category))
            .then_with(|| self.entity.cmp(other.entity))
            .then_with(|| self.id.cmp(other.id))
            .then_with(|| self.issuer.cmp(other.issuer))
    }
}

impl<'a> PartialOrd for Key<'a> {
    ghost use Rattle.xa_decide.specs.indexing.Index.{compare_keys};

    ghost partial_cmp = { as_partial_cmp compare_keys };

    ghost laws = { partial_order_from_own_ties
        (Prim.search (comparing, rules) depth 11) (Prim.search (comparing, rules) depth 11) };

    fn partial_cmp(&self, other: &Key<'a>) -> Option<Ordering> {
        Some(self.cmp(other))
    }
}
