//! Whether arguments are of the kinds that a function takes.
ghost use Rattle.std.specs.Prelude.{◌≡◌, ◌↔◌, ◌∷◌, [], map, IsTrue};
ghost use Rattle.xa_func.specs.Signature.{kind_of, of_each, Every, Fits, AcceptsKinds, TakesKinds};
ghost use Rattle.xa_func.specs.declared.signature.Kind.{Kind};

use crate::func_id::FuncId;
use crate::signature::{Kind, Parameters, Signature};
use xa_value::Value;

/// What has a kind: a value, or the kind of an expression itself.
pub trait HasKind {
    ghost kind_of: { Self → Kind };

    /// The kind that a function's signature is compared with.
    fn kind(&self) -> Kind
        ensures { result ≡ kind_of self.now };
}

impl HasKind for Kind {
    ghost kind_of = { λ kind. kind };

    fn kind(&self) -> Kind {
        *self
    }
}

impl HasKind for Value {
    ghost kind_of = { kind_of };

    fn kind(&self) -> Kind {
        Kind::Value(self.data_type())
    }
}

/// What an argument counts as when a function's signature is asked.
pub(crate) trait Counting {
    ghost counts_as: { Kind → Kind };

    /// The kind as which an argument of the kind counts.
    fn counts_as(kind: Kind) -> Kind
        ensures { result ≡ counts_as kind };
}

/// Each argument counts as what it is.
pub(crate) struct Whole;

impl Counting for Whole {
    ghost counts_as = { λ kind. kind };

    fn counts_as(kind: Kind) -> Kind {
        kind
    }
}

/// Each argument counts as one of its values.
pub(crate) struct OneOfEach;

impl Counting for OneOfEach {
    ghost counts_as = { of_each };

    fn counts_as(kind: Kind) -> Kind {
        kind.of_each()
    }
}

impl Parameters {
    /// Whether the arguments are of the kinds.
    fn accept<T: HasKind, W: Counting>(self, arguments: &[T]) -> bool
        ensures { IsTrue result ↔ Fits self (map (λ a. W.counts_as (T.kind_of a)) arguments.now) }
    {
        match self {
            Parameters::One(kind) => just_one::<T, W>(kind, arguments),
            Parameters::Two(first, second) => just_two::<T, W>(first, second, arguments),
            Parameters::Three(first, second, third) => just_three::<T, W>(
                first, second, third, arguments,
            ),
            Parameters::AtLeast(least, kind) => at_least::<T, W>(least, kind, arguments),
            Parameters::OneAndMore(first, more) => one_and_more::<T, W>(first, more, arguments),
        }
    }
}

impl Signature {
    /// Whether a function of the signature takes the arguments.
    pub fn accepts<T: HasKind>(self, arguments: &[T]) -> bool
        ensures { IsTrue result ↔ AcceptsKinds self (map T.kind_of arguments.now) }
    {
        self.accepts_as::<T, Whole>(arguments)
    }

    /// Whether a function of the signature takes what the arguments count as.
    fn accepts_as<T: HasKind, W: Counting>(self, arguments: &[T]) -> bool
        ensures { IsTrue result ↔ AcceptsKinds self (map (λ a. W.counts_as (T.kind_of a)) arguments.now) }
    {
        match self {
            Signature::FirstOrder(parameters, _) => parameters.accept::<T, W>(arguments),
            Signature::HigherOrder(_) => false,
        }
    }
}

impl FuncId {
    /// Whether the function is one of values, and takes the arguments.
    pub fn takes<T: HasKind>(self, arguments: &[T]) -> bool
        ensures { IsTrue result ↔ TakesKinds self (map T.kind_of arguments.now) }
    {
        self.is_scalar() && self.signature().accepts(arguments)
    }

    /// Whether the function is one of values, and takes one of the values of each argument.
    pub fn takes_each<T: HasKind>(self, arguments: &[T]) -> bool
        ensures { IsTrue result ↔ TakesKinds self (map (λ a. of_each (T.kind_of a)) arguments.now) }
    {
        self.is_scalar() && self.signature().accepts_as::<T, OneOfEach>(arguments)
    }
}

/// Whether the argument is of the kind.
fn is_of<T: HasKind, W: Counting>(argument: &T, kind: Kind) -> bool
    ensures { IsTrue result ↔ (W.counts_as (T.kind_of argument.now) ≡ kind) }
{
    W::counts_as(argument.kind()) == kind
}

/// Whether every argument is of the kind.
fn every<T: HasKind, W: Counting>(kind: Kind, arguments: &[T]) -> bool
    ensures { IsTrue result ↔ Every kind (map (λ a. W.counts_as (T.kind_of a)) arguments.now) }
{
    for argument in arguments {
        if !is_of::<T, W>(argument, kind) {
            return false;
        }
    }
    true
}

/// Whether the arguments are one of the first kind, and then any number of the second.
fn one_and_more<T: HasKind, W: Counting>(first: Kind, more: Kind, arguments: &[T]) -> bool
    ensures { IsTrue result
        ↔ Fits (Parameters.OneAndMore first more) (map (λ a. W.counts_as (T.kind_of a)) arguments.now) }
{
    let [argument, others @ ..] = arguments else {
        return false;
    };
    is_of::<T, W>(argument, first) && every::<T, W>(more, others)
}

/// Whether there is one argument of the kind.
fn just_one<T: HasKind, W: Counting>(kind: Kind, arguments: &[T]) -> bool
    ensures { IsTrue result ↔ (map (λ a. W.counts_as (T.kind_of a)) arguments.now ≡ kind ∷ []) }
{
    let [argument] = arguments else {
        return false;
    };
    is_of::<T, W>(argument, kind)
}

/// Whether there are two arguments of the kinds.
fn just_two<T: HasKind, W: Counting>(first: Kind, second: Kind, arguments: &[T]) -> bool
    ensures { IsTrue result ↔ (map (λ a. W.counts_as (T.kind_of a)) arguments.now ≡ first ∷ second ∷ []) }
{
    let [left, right] = arguments else {
        return false;
    };
    is_of::<T, W>(left, first) && is_of::<T, W>(right, second)
}

/// Whether there are three arguments of the kinds.
fn just_three<T: HasKind, W: Counting>(
    first: Kind,
    second: Kind,
    third: Kind,
    arguments: &[T],
) -> bool
    ensures { IsTrue result
        ↔ (map (λ a. W.counts_as (T.kind_of a)) arguments.now ≡ first ∷ second ∷ third ∷ []) }
{
    let [left, middle, right] = arguments else {
        return false;
    };
    is_of::<T, W>(left, first) && is_of::<T, W>(middle, second) && is_of::<T, W>(right, third)
}

/// Whether there are this many arguments of the kind, or more.
fn at_least<T: HasKind, W: Counting>(least: usize, kind: Kind, arguments: &[T]) -> bool
    ensures { IsTrue result
        ↔ Fits (Parameters.AtLeast least kind) (map (λ a. W.counts_as (T.kind_of a)) arguments.now) }
{
    least <= arguments.len() && every::<T, W>(kind, arguments)
}
