//! The arguments of a function, each as what its type holds.
ghost use Rattle.std.specs.Prelude.{◌≡◌, ◌⊎◌, ◌∷◌, [], length};
ghost use Rattle.xa_value.specs.Order.{type_of};
ghost use Rattle.xa_value.specs.declared.data_type.DataType.TheVariants as data_type;
ghost use Rattle.xa_value.specs.declared.value.Value.TheVariants as value_of;
ghost use Rattle.xa_func.specs.Arguments.{texts};

use xa_value::{Date, DateTime, DayTimeDuration, Text, Time, Value, YearMonthDuration};

/// The integer of a value of that type.
pub(crate) fn integer_of(value: &Value) -> i64
    requires { type_of value.now ≡ data_type.Integer }
    ensures { value.now ≡ value_of.Integer result }
{
    match value {
        Value::Integer(integer) => *integer,
        _ => unreachable!(),
    }
}

/// The boolean of a value of that type.
pub(crate) fn boolean_of(value: &Value) -> bool
    requires { type_of value.now ≡ data_type.Boolean }
    ensures { value.now ≡ value_of.Boolean result }
{
    match value {
        Value::Boolean(boolean) => *boolean,
        _ => unreachable!(),
    }
}

/// The text of a string.
pub(crate) fn string_of(value: &Value) -> &Text
    requires { type_of value.now ≡ data_type.String }
    ensures { value.now ≡ value_of.String result.now }
{
    match value {
        Value::String(text) => text,
        _ => unreachable!(),
    }
}

/// The day of a date.
pub(crate) fn date_of(value: &Value) -> Date
    requires { type_of value.now ≡ data_type.Date }
    ensures { value.now ≡ value_of.Date result }
{
    match value {
        Value::Date(date) => *date,
        _ => unreachable!(),
    }
}

/// The time of a time of day.
pub(crate) fn time_of(value: &Value) -> Time
    requires { type_of value.now ≡ data_type.Time }
    ensures { value.now ≡ value_of.Time result }
{
    match value {
        Value::Time(time) => *time,
        _ => unreachable!(),
    }
}

/// The day and time of a value of that type.
pub(crate) fn date_time_of(value: &Value) -> DateTime
    requires { type_of value.now ≡ data_type.DateTime }
    ensures { value.now ≡ value_of.DateTime result }
{
    match value {
        Value::DateTime(date_time) => *date_time,
        _ => unreachable!(),
    }
}

/// The duration in days, hours, minutes and seconds.
pub(crate) fn day_time_of(value: &Value) -> DayTimeDuration
    requires { type_of value.now ≡ data_type.DayTimeDuration }
    ensures { value.now ≡ value_of.DayTimeDuration result }
{
    match value {
        Value::DayTimeDuration(duration) => *duration,
        _ => unreachable!(),
    }
}

/// The duration in years and months.
pub(crate) fn year_month_of(value: &Value) -> YearMonthDuration
    requires { type_of value.now ≡ data_type.YearMonthDuration }
    ensures { value.now ≡ value_of.YearMonthDuration result }
{
    match value {
        Value::YearMonthDuration(duration) => *duration,
        _ => unreachable!(),
    }
}

/// The text of a string or a URI.
pub(crate) fn text_of(value: &Value) -> &str
    requires { (type_of value.now ≡ data_type.String) ⊎ (type_of value.now ≡ data_type.AnyUri) }
    ensures { texts (value.now ∷ []) ≡ result.now ∷ [] }
{
    match value {
        Value::String(text) | Value::AnyUri(text) => text.as_str(),
        _ => unreachable!(),
    }
}

/// The only argument.
pub(crate) fn one(arguments: &[Value]) -> &Value
    requires { length arguments.now ≡ 1 }
    ensures { arguments.now ≡ result.now ∷ [] }
{
    &arguments[0]
}

/// The two arguments.
pub(crate) fn two(arguments: &[Value]) -> (&Value, &Value)
    requires { length arguments.now ≡ 2 }
    ensures { arguments.now ≡ result.0.now ∷ result.1.now ∷ [] }
{
    (&arguments[0], &arguments[1])
}

/// The three arguments.
pub(crate) fn three(arguments: &[Value]) -> (&Value, &Value, &Value)
    requires { length arguments.now ≡ 3 }
    ensures { arguments.now ≡ result.0.now ∷ result.1.now ∷ result.2.now ∷ [] }
{
    (&arguments[0], &arguments[1], &arguments[2])
}
