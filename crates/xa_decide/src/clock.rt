//! The attributes that the clock gives.
ghost use Rattle.std.specs.Prelude.{◌≡◌, IfSome};
ghost use Rattle.xa_value.specs.Order.{type_of};
ghost use Rattle.xa_decide.specs.Context.{clock_value, clock_value_in, moment_as};

use xa_expr::{Designator, is_clock_id};
use xa_value::{Category, DataType, Moment, Value};

/// The time, the date or both, as the type asks for them.
fn moment_as(moment: Moment, data_type: DataType) -> Option<Value>
    ensures value { result ≡ moment_as moment data_type }
    ensures of_type { IfSome result (λ v. type_of v ≡ data_type) }
{
    match data_type {
        DataType::Time => Some(Value::Time(moment.time())),
        DataType::Date => Some(Value::Date(moment.date())),
        DataType::DateTime => Some(Value::DateTime(moment.date_time())),
        _ => None,
    }
}

/// The value that the clock gives to an attribute of the environment.
fn clock_value(moment: Moment, id: &str, data_type: DataType) -> Option<Value>
    ensures value { result ≡ clock_value moment id.now data_type }
    ensures of_type { IfSome result (λ v. type_of v ≡ data_type) }
{
    if is_clock_id(data_type, id) {
        moment_as(moment, data_type)
    } else {
        None
    }
}

/// The value that the clock gives to the designator's attribute (XACML 3.0, core, section 7.3.6), which
/// has no issuer.
pub(crate) fn clock_value_in(moment: Moment, designator: &Designator) -> Option<Value>
    ensures value { result ≡ clock_value_in moment designator.now }
    ensures of_type { IfSome result (λ v. type_of v ≡ designator.now.data_type) }
{
    if designator.issuer.is_none() && designator.category.as_str() == Category::Environment.uri() {
        clock_value(
            moment,
            designator.attribute_id.as_str(),
            designator.data_type,
        )
    } else {
        None
    }
}
