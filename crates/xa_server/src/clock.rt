//! What tells the present moment.
ghost use Rattle.std.specs.Prelude.{ℤ, [], ◌∷◌, List, Option, None};
ghost use Rattle.xa_server.specs.Transfers.{Grows};

use xa_value::Moment;

/// A clock. Nothing is promised of its moments: it may stand, and may go back.
pub trait Clock {
    /// What it has told, each time that it was asked, if that is known: a moment, or none.
    ghost told: { Self → Option (List (Option ℤ)) } = { λ _. None };

    /// The present moment; none if it can't be told.
    fn now(&mut self) -> Option<Moment>
        ensures { Grows (told self.old) (told self.new) (result ∷ []) };
}
