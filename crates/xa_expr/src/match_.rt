//! Matches of a literal against the values of an attribute.
ghost use Rattle.std.specs.Prelude.{◌≡◌, ◌∷◌, [], IsTrue};
ghost use Rattle.xa_expr.specs.MatchTypes.{argument_kinds, may_ask};
ghost use Rattle.xa_expr.specs.Typed.{accepted};

use crate::answering::answer_for;
use crate::check_error::CheckError;
use crate::context::Context;
use crate::designator::Designator;
use crate::looked::Looked;
use crate::matching::Matching;
use crate::rates::units_of_calls;
use crate::scope::attribute;
use crate::work::{STEP, units_of, units_of_values};
use std::alloc::{AllocError, Global};
use xa_bag::push_copy;
use xa_func::{FuncId, HasKind, Kind, Signature};
use xa_value::{DataType, Value, memory_apart};

/// A match (core, section 5.9): whether the function is true of the literal and some value of the
/// designator's bag. The function takes two such values and gives a boolean.
#[derive(Debug, Drop)]
pub struct Match {
    /// The function that is asked.
    function: FuncId,
    /// Its first argument.
    literal: Value,
    /// The designator whose values are its second argument, one after another.
    designator: Designator,
    pub ghost right: { IsTrue (may_ask function (argument_kinds literal designator.data_type)) },
}

impl Match {
    ghost use Rattle.std.specs.Prelude.{◌++◌, map, Some, IfOk};
    ghost use Rattle.xa_value.specs.Order.{type_of};
    ghost use Rattle.xa_bag.specs.Bag.{OfType};
    ghost use Rattle.xa_expr.specs.Looked.{looked, match_by};
    ghost use Rattle.xa_expr.specs.Match.{matched, matched_by};
    ghost use Rattle.xa_expr.specs.Target.{answer, match_value, some_match};

    /// The match of the function of that name (core, sections 5.9 and 7.6). The literal is the
    /// function's first argument, each value of the bag its second. The fault is UnknownFunction if no
    /// function has the name, and WrongType of one that doesn't take the two, or gives no boolean.
    pub fn new(function: &str, literal: Value, designator: Designator) -> Result<Match, CheckError>
        ensures { result ≡ matched function.now literal designator }
    {
        match FuncId::from_uri(function) {
            Some(function) => Match::of(function, literal, designator),
            None => Err(CheckError::UnknownFunction),
        }
    }

    /// The match of the function.
    #[tactic(auto, using(crate::proofs::MatchLemmas::none_made))]
    fn of(function: FuncId, literal: Value, designator: Designator) -> Result<Match, CheckError>
        ensures { result ≡ matched_by (Some function) literal designator }
    {
        if !may_ask(function, &literal, designator.data_type) {
            return Err(CheckError::WrongType);
        }
        Ok(Match {
            function,
            literal,
            designator,
        })
    }

    /// The designator whose bag is looked at.
    pub(crate) fn designator(&self) -> &Designator
        ensures { result.now ≡ self.now.designator }
    {
        &self.designator
    }

    /// The value of the match (core, section 7.6). Equality looks at the values where they are; every
    /// other function is called with a copy of each.
    #[tactic(auto, using(crate::proofs::MatchLemmas::found_answers))]
    pub(crate) fn matching<C: Context>(
        &self,
        alloc: Global,
        context: &C,
    ) -> Result<Matching, AllocError>
        ensures { IfOk result (λ m. m ≡ match_value (C.values_of context.now) self.now) }
    {
        match self.function {
            FuncId::Equal(_) => self.matching_by_look(alloc, context),
            _ => self.matching_by_calls(alloc, context),
        }
    }

    /// The value of the match by a look for its literal. It takes two steps, as asking for the bag and
    /// looking at it do, and one if a value is missing.
    fn matching_by_look<C: Context>(
        &self,
        alloc: Global,
        context: &C,
    ) -> Result<Matching, AllocError>
        ensures { IfOk result (λ m. m ≡ match_by self.now.designator.must_be_present
            (looked self.now.literal (C.values_of context.now self.now.designator))) }
    {
        context.spend(STEP)?;
        let found = context.look_for(alloc, &self.designator, &self.literal)?;
        if found != Looked::Nothing || !self.designator.must_be_present {
            context.spend(STEP)?;
        }
        Ok(found.matching(self.designator.must_be_present))
    }

    /// The value of the match by calls: whether the function is true of one of the values of the bag.
    fn matching_by_calls<C: Context>(
        &self,
        alloc: Global,
        context: &C,
    ) -> Result<Matching, AllocError>
        ensures { IfOk result (λ m. m ≡ match_value (C.values_of context.now) self.now) }
    {
        match memory_apart(attribute(alloc, context, &self.designator))? {
            Ok(bag) => self.some_match_counted(alloc, context, bag.values()),
            Err(fault) => Ok(Matching::Indeterminate(fault)),
        }
    }

    /// Whether the function is true of one of the values. The units of calls for all of them are taken
    /// before.
    fn some_match_counted<C: Context>(
        &self,
        alloc: Global,
        context: &C,
        values: &[Value],
    ) -> Result<Matching, AllocError>
        requires { OfType self.now.designator.data_type values.now }
        ensures { IfOk result (λ m. m ≡ some_match (map (answer self.now) values.now)) }
    {
        context.spend(STEP.saturating_add(self.units_of_asking(values)))?;
        self.some_match(alloc, values)
    }

    /// The units of a call for a copy of each of the values, beside one of the literal.
    fn units_of_asking(&self, values: &[Value]) -> u64 {
        let count = values.len() as u64;
        let literal = units_of(&self.literal);
        let arguments = literal
            .saturating_mul(count)
            .saturating_add(units_of_values(values));
        STEP.saturating_mul(count.saturating_add(1))
            .saturating_add(literal)
            .saturating_add(units_of_calls(self.function, count, arguments))
    }

    /// Whether the function is true of one of the values. The first of which it is true settles it.
    #[tactic(auto, using(crate::proofs::TargetLemmas::some_match_joined, crate::proofs::TargetLemmas::some_match_single))]
    fn some_match(&self, alloc: Global, values: &[Value]) -> Result<Matching, AllocError>
        requires { OfType self.now.designator.data_type values.now }
        ensures { IfOk result (λ m. m ≡ some_match (map (answer self.now) values.now)) }
    {
        let mut arguments = Vec::new(alloc);
        push_copy(&mut arguments, &self.literal)?;
        let mut so_far = Matching::NoMatch;
        for value in values {
            so_far = so_far.or(self.answer(alloc, &mut arguments, value)?);
            if so_far == Matching::Match {
                return Ok(Matching::Match);
            }
        }
        Ok(so_far)
    }

    /// What the function says of the literal, the only argument so far, and the value.
    fn answer(
        &self,
        alloc: Global,
        arguments: &mut Vec<Value>,
        value: &Value,
    ) -> Result<Matching, AllocError>
        requires literal { arguments.old.items ≡ self.now.literal ∷ [] }
        requires of_type { type_of value.now ≡ self.now.designator.data_type }
        ensures value { IfOk result (λ m. m ≡ answer self.now value.now) }
        ensures kept { IfOk result (λ _. arguments.new.items ≡ arguments.old.items) }
    {
        push_copy(arguments, value)?;
        let answer = answer_for(alloc, self.function, arguments.as_slice())?;
        arguments.pop();
        Ok(answer)
    }
}

/// Whether a function of the signature takes arguments of these two kinds. For the proof: the clause is by
/// `accepted`, as the definitions are.
fn takes_both(signature: Signature, first: Kind, second: Kind) -> bool
    ensures { result ≡ accepted signature (first ∷ second ∷ []) }
{
    signature.accepts(&[first, second])
}

/// Whether the function may stand in a match: it is a function of values that takes the literal and a
/// value of the type, and gives a boolean.
fn may_ask(function: FuncId, literal: &Value, data_type: DataType) -> bool
    ensures { result ≡ may_ask function (argument_kinds literal.now data_type) }
{
    let signature = function.signature();
    function.is_scalar()
        && takes_both(signature, literal.kind(), Kind::Value(data_type))
        && signature.result_type().is_same(DataType::Boolean)
}
