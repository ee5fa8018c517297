//! What targets and their parts come to.
ghost use Rattle.std.specs.Prelude.{◌≡◌, [], ◌∷◌};
ghost use Rattle.xa_expr.specs.Target.{all_match, some_match};

use crate::fault::Fault;

/// What a target or a part of it comes to (core, sections 7.6 and 7.7). Of a single match the standard
/// calls the first two True and False.
#[derive(Clone, Copy, Debug, PartialEq, Eq)]
pub enum Matching {
    /// It matches.
    Match,
    /// It does not match.
    NoMatch,
    /// A fault left it open: the first one.
    Indeterminate(Fault),
}

impl Matching {
    /// Whether both match.
    pub(crate) fn and(self, next: Matching) -> Matching
        ensures { result ≡ all_match (self ∷ next ∷ []) }
    {
        match (self, next) {
            (Matching::Match, _) => next,
            (_, Matching::NoMatch) => Matching::NoMatch,
            _ => self,
        }
    }

    /// Whether one of the two matches.
    pub(crate) fn or(self, next: Matching) -> Matching
        ensures { result ≡ some_match (self ∷ next ∷ []) }
    {
        match (self, next) {
            (Matching::NoMatch, _) => next,
            (_, Matching::Match) => Matching::Match,
            _ => self,
        }
    }
}
