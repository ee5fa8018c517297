//! Calls that only clauses read: what a clock has told, or what else has been done.
ghost use Rattle.std.specs.Prelude.{◌≡◌, ◌++◌, ◌∷◌, [], ℕ, List};
ghost use Rattle.std.specs.Borrow.{ftrue};
ghost use Rattle.std.specs.Coded.{coded_list};

mod calls;

pub use calls::{PeerCall, ReadCall, WriteCall};
use std::marker::{Model, PhantomData};

/// How calls are read off two values and bytes.
pub trait Notes<X, Y, Call> {
    /// The calls.
    ghost calls: { X → Y → List ℕ → List Call };
}

/// The first value itself is the call.
struct Itself;

impl<Call> Notes<Call, (), Call> for Itself {
    ghost calls = { λ call _ _. call ∷ [] };
}

/// Calls that were made, one after another. It takes no bytes, and its functions do nothing when they run:
/// what it holds only clauses say.
#[derive(Drop)]
pub struct Noted<Call> {
    /// What a call is.
    marker: PhantomData<Call>,
    pub ghost calls: { List Call } by { coded_list Call.code },
}

impl<Call> Model for Noted<Call> {
    ghost also_owns = { λ _. ftrue };
}

impl<Call> Noted<Call> {
    /// None was made.
    pub fn new() -> Noted<Call>
        ensures { result.calls ≡ [] }
    {
        Noted {
            marker: PhantomData,
        }
    }

    /// These, and behind them those that are read off the values and the bytes.
    fn with<X, Y, M: Notes<X, Y, Call>>(
        &self,
        _first: &X,
        _second: &Y,
        _bytes: &[u8],
    ) -> Noted<Call>
        ensures { result.calls ≡ self.now.calls ++ M.calls _first.now _second.now _bytes.now }
    {
        Noted {
            marker: PhantomData,
        }
    }

    /// Notes those that are read off the values and the bytes.
    pub fn note_by<X, Y, M: Notes<X, Y, Call>>(&mut self, first: &X, second: &Y, bytes: &[u8])
        ensures { self.new.calls ≡ self.old.calls ++ M.calls first.now second.now bytes.now }
    {
        *self = self.with::<X, Y, M>(first, second, bytes);
    }

    /// Notes a call.
    pub fn note(&mut self, call: &Call)
        ensures { self.new.calls ≡ self.old.calls ++ call.now ∷ [] }
    {
        self.note_by::<Call, (), Itself>(call, &(), &[]);
    }
}
