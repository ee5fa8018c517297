//! Keys by which the values of one type are ordered, and equal.
ghost use Rattle.std.specs.Prelude.{◌≡◌};
ghost use Rattle.std.specs.Cmp.{partial_order_from_own_ties};
ghost use Rattle.std.specs.Ordering.{as_partial_cmp};
ghost use Rattle.std.specs.Cmp.Rules.{comparing};
ghost use Rattle.std.proofs.Common.{rules};

use std::cmp::Ordering;
use std::marker::Model;

/// The key by which the values of one type are ordered, and equal: a number, and then bytes (XACML 3.0,
/// core, appendix A.3).
#[derive(Debug, Drop)]
pub struct SortKey<'a> {
    number: i128,
    bytes: &'a [u8],
}

impl<'a> Model for SortKey<'a> {
    ghost use Rattle.xa_value.specs.Order.{NumberAndBytes};

    ghost Value = { NumberAndBytes };

    ghost view = { λ k. record { number = k.number; bytes = k.bytes.now } };
}

impl<'a> SortKey<'a> {
    ghost use Rattle.xa_value.specs.Order.{number_and_bytes};

    /// The key of the number and the bytes.
    pub(crate) fn new(number: i128, bytes: &'a [u8]) -> SortKey<'a>
        ensures { result ≡ number_and_bytes number bytes.now }
    {
        SortKey { number, bytes }
    }
}

impl<'a> PartialEq for SortKey<'a> {
    ghost use Rattle.xa_value.specs.Order.{equal_keys};

    ghost eq = { equal_keys };

    ghost laws = { Prim.search (comparing, rules) };

    fn eq(&self, other: &SortKey<'a>) -> bool {
        self.number == other.number && self.bytes == other.bytes
    }
}

impl<'a> Eq for SortKey<'a> {
    ghost laws = { Prim.search (comparing, rules) };
}

impl<'a> Ord for SortKey<'a> {
    ghost use Rattle.xa_value.specs.Order.{compare_keys};

    ghost cmp = { compare_keys };

    ghost total = { Prim.search (comparing, rules) };

    ghost matches_partial_cmp = { Prim.search (comparing, rules) };

    ghost matches_eq = { Prim.search (comparing, rules) };

    fn cmp(&self, other: &SortKey<'a>) -> Ordering {
        self.number
            .cmp(&other.number)
            .then(self.bytes.cmp(other.bytes))
    }
}

impl<'a> PartialOrd for SortKey<'a> {
    ghost use Rattle.xa_value.specs.Order.{compare_keys};

    ghost partial_cmp = { as_partial_cmp compare_keys };

    ghost laws = { partial_order_from_own_ties
        (Prim.search (comparing, rules)) (Prim.search (comparing, rules)) };

    fn partial_cmp(&self, other: &SortKey<'a>) -> Option<Ordering> {
        Some(self.cmp(other))
    }
}
