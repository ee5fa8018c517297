//! What a look for a value among those of a bag comes to.
ghost use Rattle.std.specs.Prelude.{◌≡◌, [], ◌∷◌};
ghost use Rattle.xa_expr.specs.Looked.{joined, looked, match_by};

use crate::fault::Fault;
use crate::matching::Matching;
use xa_bag::{Bag, Members, is_in};
use xa_value::Value;

/// What a look for a value among those of a bag comes to. A match by an equality goes by it (core, section
/// 7.6). Looks at parts of the bag, one after another, are joined by `and`.
#[derive(Clone, Copy, Debug, PartialEq, Eq)]
pub enum Looked {
    /// There are no values.
    Nothing,
    /// Some value is the one that is sought.
    Found,
    /// There are values, and none is the one that is sought.
    NotFound,
}

impl Looked {
    /// A look at the values of the bag.
    pub fn in_bag(sought: &Value, bag: &Bag) -> Looked
        ensures { result ≡ looked sought.now bag.now.values }
    {
        if bag.is_empty() {
            Looked::Nothing
        } else if is_in(sought, bag) {
            Looked::Found
        } else {
            Looked::NotFound
        }
    }

    /// A look at the values of a bag that are made ready to be searched.
    pub fn among(sought: &Value, members: &Members<'_>) -> Looked
        ensures { result ≡ looked sought.now members.now.values }
    {
        if members.is_empty() {
            Looked::Nothing
        } else if members.contains(sought) {
            Looked::Found
        } else {
            Looked::NotFound
        }
    }

    /// A look at one value.
    pub fn at_value(sought: &Value, value: &Value) -> Looked
        ensures { result ≡ looked sought.now (value.now ∷ []) }
    {
        if sought.same(value) {
            Looked::Found
        } else {
            Looked::NotFound
        }
    }

    /// This look at some values, joined with the next one at those after them.
    pub fn and(self, next: Looked) -> Looked
        ensures { result ≡ joined self next }
    {
        match (self, next) {
            (Looked::Nothing, _) => next,
            (Looked::NotFound, Looked::Found) => next,
            _ => self,
        }
    }

    /// What a match by an equality comes to by this look for its literal. If a value must be present, none
    /// at all is a fault.
    pub(crate) fn matching(self, must_be_present: bool) -> Matching
        ensures { result ≡ match_by must_be_present self }
    {
        match self {
            Looked::Nothing if must_be_present => Matching::Indeterminate(Fault::MissingAttribute),
            Looked::Found => Matching::Match,
            _ => Matching::NoMatch,
        }
    }
}
