//! Choices of a value for each argument, one after another, the last argument fastest. A choice is held as
//! the values chosen, and for each the place behind it among the values of its argument. So it takes no
//! native stack, however many arguments there are.
ghost use Rattle.std.specs.Prelude.{◌≡◌, ◌<◌, List, [], ◌∷◌, ◌++◌, length, IfOk};
ghost use Rattle.xa_value.specs.declared.value.Value.{Value};
ghost use Rattle.xa_bag.specs.HigherOrder.{choices};
ghost use Rattle.xa_bag.specs.Choosing.{left, no_choices, AreChosen, Finds, Chooses};

use crate::value_or_bag::ValueOrBag;
use std::alloc::AllocError;
use xa_value::Value;

/// Puts a copy of the value at the end.
pub fn push_copy(values: &mut Vec<Value>, value: &Value) -> Result<(), AllocError>
    ensures { IfOk result (λ _. values.new.items ≡ values.old.items ++ value.now ∷ []) }
{
    values.push(value.clone()?)?;
    Ok(())
}

/// Takes the last value away.
fn drop_last(values: &mut Vec<Value>)
    ensures { (kept : List Value) (v : Value) → values.old.items ≡ kept ++ v ∷ [] → values.new.items ≡ kept }
{
    values.pop();
}

/// Chooses the next argument's value at the place; false if it has none there.
fn choose(
    arguments: &[ValueOrBag],
    place: usize,
    chosen: &mut Vec<Value>,
    places: &mut Vec<usize>,
) -> Result<bool, AllocError>
    requires begun { AreChosen chosen.old.items places.old.items arguments.now }
    requires further { length chosen.old.items < length arguments.now }
    ensures { IfOk result (λ found. Chooses place arguments.now chosen.old.items places.old.items
        found chosen.new.items places.new.items) }
{
    let depth = chosen.len();
    let argument = &arguments[depth];
    let Some(value) = argument.values().get(place) else {
        return Ok(false);
    };
    push_copy(chosen, value)?;
    places.push(place + 1)?;
    Ok(true)
}

/// Chooses the first value of each further argument; false if one has no value, so that there is no choice.
pub(crate) fn choose_firsts(
    arguments: &[ValueOrBag],
    chosen: &mut Vec<Value>,
    places: &mut Vec<usize>,
) -> Result<bool, AllocError>
    requires { AreChosen chosen.old.items places.old.items arguments.now }
    ensures { IfOk result (λ found. Finds (left choices chosen.old.items places.old.items arguments.now)
        found chosen.new.items places.new.items arguments.now) }
{
    while chosen.len() < arguments.len() {
        let found = choose(arguments, 0, chosen, places)?;
        if !found {
            return Ok(false);
        }
    }
    Ok(true)
}

/// Goes on to the next choice; false if there is none.
pub(crate) fn choose_next(
    arguments: &[ValueOrBag],
    chosen: &mut Vec<Value>,
    places: &mut Vec<usize>,
) -> Result<bool, AllocError>
    requires { AreChosen chosen.old.items places.old.items arguments.now }
    ensures { IfOk result (λ found. Finds (left no_choices chosen.old.items places.old.items arguments.now)
        found chosen.new.items places.new.items arguments.now) }
{
    while let Some(place) = places.pop() {
        drop_last(chosen);
        let found = choose(arguments, place, chosen, places)?;
        if found {
            return choose_firsts(arguments, chosen, places);
        }
    }
    Ok(false)
}
