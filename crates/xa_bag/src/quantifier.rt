//! Any or all: of how many items a question must be True.
ghost use Rattle.std.specs.Prelude.{◌≡◌};
ghost use Rattle.xa_bag.specs.Quantifier.{settling};

/// Whether a question must be True of one item or of all.
#[derive(Clone, Copy, Debug, PartialEq, Eq)]
pub enum Quantifier {
    /// Of at least one.
    Any,
    /// Of all.
    All,
}

impl Quantifier {
    /// The answer that settles it, whatever the others are: True for any, and False for all. If no
    /// answer is that one, the result is the other.
    pub fn settling(self) -> bool
        ensures { result ≡ settling self }
    {
        match self {
            Quantifier::Any => true,
            Quantifier::All => false,
        }
    }
}
