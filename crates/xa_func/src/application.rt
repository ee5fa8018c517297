//! What each function of values gives: from the function to what computes it.
//!
//! Each function here is an arm of `FuncId::apply`, or an arm of one, with the clauses of `apply` for that
//! arm alone: the prover takes the arms one at a time, and then the match by what they answer.
ghost use Rattle.std.specs.Prelude.{◌≡◌, false, map, IfOk};
ghost use Rattle.xa_value.specs.Gives.{Gives, answered};
ghost use Rattle.xa_value.specs.Reading.{grows as reading_grows};
ghost use Rattle.xa_func.specs.Table.{printed_type};
ghost use Rattle.xa_func.specs.Signature.{AcceptsKinds, IsResult, TakesKinds, kind_of, signature_of};
ghost use Rattle.xa_func.specs.Application.{applied, grows};
ghost use Rattle.xa_func.specs.declared.func_id.FuncId.TheVariants as function_id;
ghost use Rattle.xa_func.specs.declared.func_id.Logic.TheVariants as logic;
ghost use Rattle.xa_func.specs.declared.func_id.Moved.TheVariants as moved_by;
ghost use Rattle.xa_func.specs.declared.func_id.TextFunction.TheVariants as text_function;

use crate::arguments::{
    boolean_of, date_of, date_time_of, day_time_of, integer_of, one, string_of, text_of, three,
    time_of, two, year_month_of,
};
use crate::arithmetic::{absolute, arithmetic};
use crate::comparison::is_as_asked;
use crate::conversion::value_of;
use crate::dates::{
    date_after_months, date_time_after_months, date_time_after_nanos, directed_months,
    directed_nanos, time_in_range,
};
use crate::fault::FuncFault;
use crate::func_id::{
    Arithmetic, Comparison, Direction, FuncId, Logic, Moved, OrderedType, PrintedType,
    TextFunction, TextPart, TextType,
};
use crate::logic::{all_true, any_true, n_of};
use crate::text::{concatenation, has_part, substring};
use std::alloc::Global;
use xa_value::{DataType, OrMemory, Value};

impl FuncId {
    /// What the function of values gives, of arguments that it takes (XACML 3.0, core, appendix
    /// A.3), or its fault: ZeroDivisor and Overflow of arithmetic, BadText of a string that is read
    /// as another type, Position of substring and n-of, and CalendarRange of a day that is moved
    /// out of the years 1 to 9999. Clause `exact`: only what makes a text may want memory.
    pub fn apply(self, alloc: Global, arguments: &[Value]) -> Result<Value, OrMemory<FuncFault>>
        requires { TakesKinds self (map kind_of arguments.now) }
        ensures value { Gives result (applied self arguments.now) }
        ensures exact { grows self ≡ false → result ≡ answered (applied self arguments.now) }
        ensures typed { IfOk result (IsResult (signature_of self)) }
    {
        match self {
            FuncId::Equal(data_type) => Ok(equal(data_type, arguments)?),
            FuncId::Compare(comparison, ordered) => Ok(compare(comparison, ordered, arguments)?),
            FuncId::Arithmetic(function) => Ok(calculate(function, arguments)?),
            FuncId::IntegerAbs => Ok(integer_abs(arguments)?),
            FuncId::Logic(function) => Ok(logical(function, arguments)?),
            FuncId::Text(function) => give_text(alloc, function, arguments),
            FuncId::Part(place, text_type) => Ok(is_part(place, text_type, arguments)?),
            FuncId::StringFrom(printed) => string_from(alloc, printed, arguments),
            FuncId::FromString(printed) => from_string(alloc, printed, arguments),
            FuncId::Move(moved, direction) => Ok(move_by(moved, direction, arguments)?),
            FuncId::TimeInRange => Ok(is_in_range(arguments)?),
            FuncId::Bag(..) | FuncId::HigherOrder(_) => unreachable!(),
        }
    }
}

/// Whether two values of the type are equal. The type is of the contract alone.
fn equal(data_type: DataType, arguments: &[Value]) -> Result<Value, FuncFault>
    requires { AcceptsKinds (signature_of (function_id.Equal data_type)) (map kind_of arguments.now) }
    ensures value { result ≡ applied (function_id.Equal data_type) arguments.now }
    ensures typed { IfOk result (IsResult (signature_of (function_id.Equal data_type))) }
{
    let (left, right) = two(arguments);
    Ok(Value::Boolean(left.same(right)))
}

/// Whether two values of the type compare as asked. The type is of the contract alone.
fn compare(
    comparison: Comparison,
    ordered: OrderedType,
    arguments: &[Value],
) -> Result<Value, FuncFault>
    requires { AcceptsKinds (signature_of (function_id.Compare comparison ordered))
        (map kind_of arguments.now) }
    ensures value { result ≡ applied (function_id.Compare comparison ordered) arguments.now }
    ensures typed { IfOk result (IsResult (signature_of (function_id.Compare comparison ordered))) }
{
    let (left, right) = two(arguments);
    Ok(Value::Boolean(is_as_asked(comparison, left, right)))
}

/// A function of integers, from left to right.
fn calculate(function: Arithmetic, arguments: &[Value]) -> Result<Value, FuncFault>
    requires { AcceptsKinds (signature_of (function_id.Arithmetic function)) (map kind_of arguments.now) }
    ensures value { result ≡ applied (function_id.Arithmetic function) arguments.now }
    ensures typed { IfOk result (IsResult (signature_of (function_id.Arithmetic function))) }
{
    Ok(Value::Integer(arithmetic(function, arguments)?))
}

/// The absolute value of an integer.
fn integer_abs(arguments: &[Value]) -> Result<Value, FuncFault>
    requires { AcceptsKinds (signature_of function_id.IntegerAbs) (map kind_of arguments.now) }
    ensures value { result ≡ applied function_id.IntegerAbs arguments.now }
    ensures typed { IfOk result (IsResult (signature_of function_id.IntegerAbs)) }
{
    Ok(Value::Integer(absolute(integer_of(one(arguments)))?))
}

/// The text of a value. The type that is printed is of the contract alone.
fn string_from(
    alloc: Global,
    printed: PrintedType,
    arguments: &[Value],
) -> Result<Value, OrMemory<FuncFault>>
    requires { AcceptsKinds (signature_of (function_id.StringFrom printed)) (map kind_of arguments.now) }
    ensures value { Gives result (applied (function_id.StringFrom printed) arguments.now) }
    ensures typed { IfOk result (IsResult (signature_of (function_id.StringFrom printed))) }
{
    Ok(Value::String(one(arguments).to_text(alloc)?))
}

/// The value of a text.
fn from_string(
    alloc: Global,
    printed: PrintedType,
    arguments: &[Value],
) -> Result<Value, OrMemory<FuncFault>>
    requires { AcceptsKinds (signature_of (function_id.FromString printed)) (map kind_of arguments.now) }
    ensures value { Gives result (applied (function_id.FromString printed) arguments.now) }
    ensures exact { reading_grows (printed_type printed) ≡ false
        → result ≡ answered (applied (function_id.FromString printed) arguments.now) }
    ensures typed { IfOk result (IsResult (signature_of (function_id.FromString printed))) }
{
    value_of(
        alloc,
        printed.data_type(),
        string_of(one(arguments)).as_str(),
    )
}

/// Whether at least this many of the booleans are true.
fn n_true(arguments: &[Value]) -> Result<Value, FuncFault>
    requires { AcceptsKinds (signature_of (function_id.Logic logic.NOf)) (map kind_of arguments.now) }
    ensures value { result ≡ applied (function_id.Logic logic.NOf) arguments.now }
    ensures typed { IfOk result (IsResult (signature_of (function_id.Logic logic.NOf))) }
{
    let [wanted, booleans @ ..] = arguments else {
        unreachable!();
    };
    Ok(Value::Boolean(n_of(integer_of(wanted), booleans)?))
}

/// Whether one of the booleans, or each of them, or at least this many of them are true; or the negation
/// of one.
fn logical(function: Logic, arguments: &[Value]) -> Result<Value, FuncFault>
    requires { AcceptsKinds (signature_of (function_id.Logic function)) (map kind_of arguments.now) }
    ensures value { result ≡ applied (function_id.Logic function) arguments.now }
    ensures typed { IfOk result (IsResult (signature_of (function_id.Logic function))) }
{
    match function {
        Logic::Or => Ok(Value::Boolean(any_true(arguments))),
        Logic::And => Ok(Value::Boolean(all_true(arguments))),
        Logic::NOf => n_true(arguments),
        Logic::Not => Ok(Value::Boolean(!boolean_of(one(arguments)))),
    }
}

/// The text without white space at its ends.
fn normalize_space(alloc: Global, arguments: &[Value]) -> Result<Value, OrMemory<FuncFault>>
    requires { AcceptsKinds (signature_of (function_id.Text text_function.NormalizeSpace))
        (map kind_of arguments.now) }
    ensures value { Gives result (applied (function_id.Text text_function.NormalizeSpace) arguments.now) }
    ensures typed { IfOk result (IsResult (signature_of (function_id.Text text_function.NormalizeSpace))) }
{
    Ok(Value::String(string_of(one(arguments)).trimmed(alloc)?))
}

/// The characters of a text from one place up to another.
fn string_substring(alloc: Global, arguments: &[Value]) -> Result<Value, OrMemory<FuncFault>>
    requires { AcceptsKinds (signature_of (function_id.Text text_function.Substring))
        (map kind_of arguments.now) }
    ensures value { Gives result (applied (function_id.Text text_function.Substring) arguments.now) }
    ensures typed { IfOk result (IsResult (signature_of (function_id.Text text_function.Substring))) }
{
    let (text, begin, end) = three(arguments);
    Ok(Value::String(substring(
        alloc,
        string_of(text).as_str(),
        integer_of(begin),
        integer_of(end),
    )?))
}

/// A text, made of the arguments.
fn give_text(
    alloc: Global,
    function: TextFunction,
    arguments: &[Value],
) -> Result<Value, OrMemory<FuncFault>>
    requires { AcceptsKinds (signature_of (function_id.Text function)) (map kind_of arguments.now) }
    ensures value { Gives result (applied (function_id.Text function) arguments.now) }
    ensures typed { IfOk result (IsResult (signature_of (function_id.Text function))) }
{
    match function {
        TextFunction::NormalizeSpace => normalize_space(alloc, arguments),
        TextFunction::Concatenate => Ok(Value::String(concatenation(alloc, arguments)?)),
        TextFunction::Substring => string_substring(alloc, arguments),
    }
}

/// Whether the first text stands in the second.
fn is_part(place: TextPart, text_type: TextType, arguments: &[Value]) -> Result<Value, FuncFault>
    requires { AcceptsKinds (signature_of (function_id.Part place text_type)) (map kind_of arguments.now) }
    ensures value { result ≡ applied (function_id.Part place text_type) arguments.now }
    ensures typed { IfOk result (IsResult (signature_of (function_id.Part place text_type))) }
{
    let (part, text) = two(arguments);
    Ok(Value::Boolean(has_part(place, text_of(text).as_bytes(), text_of(part).as_bytes())))
}

/// A day and time, moved by days, hours, minutes and seconds.
fn date_time_by_day_time(direction: Direction, arguments: &[Value]) -> Result<Value, FuncFault>
    requires { AcceptsKinds (signature_of (function_id.Move moved_by.DateTimeByDayTime direction))
        (map kind_of arguments.now) }
    ensures value { result ≡ applied (function_id.Move moved_by.DateTimeByDayTime direction) arguments.now }
    ensures typed { IfOk result
        (IsResult (signature_of (function_id.Move moved_by.DateTimeByDayTime direction))) }
{
    let (date_time, duration) = two(arguments);
    let nanos = directed_nanos(direction, day_time_of(duration));
    Ok(Value::DateTime(date_time_after_nanos(date_time_of(date_time), nanos)?))
}

/// A day and time, moved by years and months.
fn date_time_by_year_month(direction: Direction, arguments: &[Value]) -> Result<Value, FuncFault>
    requires { AcceptsKinds (signature_of (function_id.Move moved_by.DateTimeByYearMonth direction))
        (map kind_of arguments.now) }
    ensures value { result ≡ applied (function_id.Move moved_by.DateTimeByYearMonth direction) arguments.now }
    ensures typed { IfOk result
        (IsResult (signature_of (function_id.Move moved_by.DateTimeByYearMonth direction))) }
{
    let (date_time, duration) = two(arguments);
    let months = directed_months(direction, year_month_of(duration));
    Ok(Value::DateTime(date_time_after_months(date_time_of(date_time), months)?))
}

/// A day, moved by years and months.
fn date_by_year_month(direction: Direction, arguments: &[Value]) -> Result<Value, FuncFault>
    requires { AcceptsKinds (signature_of (function_id.Move moved_by.DateByYearMonth direction))
        (map kind_of arguments.now) }
    ensures value { result ≡ applied (function_id.Move moved_by.DateByYearMonth direction) arguments.now }
    ensures typed { IfOk result
        (IsResult (signature_of (function_id.Move moved_by.DateByYearMonth direction))) }
{
    let (date, duration) = two(arguments);
    let months = directed_months(direction, year_month_of(duration));
    Ok(Value::Date(date_after_months(date_of(date), months)?))
}

/// A date, or a date with a time, moved by a duration.
fn move_by(moved: Moved, direction: Direction, arguments: &[Value]) -> Result<Value, FuncFault>
    requires { AcceptsKinds (signature_of (function_id.Move moved direction)) (map kind_of arguments.now) }
    ensures value { result ≡ applied (function_id.Move moved direction) arguments.now }
    ensures typed { IfOk result (IsResult (signature_of (function_id.Move moved direction))) }
{
    match moved {
        Moved::DateTimeByDayTime => date_time_by_day_time(direction, arguments),
        Moved::DateTimeByYearMonth => date_time_by_year_month(direction, arguments),
        Moved::DateByYearMonth => date_by_year_month(direction, arguments),
    }
}

/// Whether a time lies in a range of times.
fn is_in_range(arguments: &[Value]) -> Result<Value, FuncFault>
    requires { AcceptsKinds (signature_of function_id.TimeInRange) (map kind_of arguments.now) }
    ensures value { result ≡ applied function_id.TimeInRange arguments.now }
    ensures typed { IfOk result (IsResult (signature_of function_id.TimeInRange)) }
{
    let (time, start, end) = three(arguments);
    Ok(Value::Boolean(time_in_range(time_of(time), time_of(start), time_of(end))))
}
