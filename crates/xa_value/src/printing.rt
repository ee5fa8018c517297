//! The text of a value.
ghost use Rattle.std.specs.Prelude.{◌≡◌, ◌++◌, false, IfOk, OnOk, string_bytes};
ghost use Rattle.xa_value.specs.Order.{type_of};
ghost use Rattle.xa_value.specs.Printing.{printed};
ghost use Rattle.xa_value.specs.Reading.{grows};

use crate::binary::{base64_text, hex_text};
use crate::calendar::{push_date, push_date_time};
use crate::duration_printing::{push_day_time, push_year_month};
use crate::number::{push_boolean, push_integer};
use crate::text::Text;
use crate::time::push_time;
use crate::value::Value;
use std::alloc::{AllocError, Global};

impl Value {
    /// The text of the value, which reads as the value again.
    pub fn to_text(&self, alloc: Global) -> Result<Text, AllocError>
        ensures { IfOk result (λ t. t ≡ printed self.now) }
    {
        match self {
            Value::String(text) => text.clone(),
            Value::AnyUri(text) => text.clone(),
            Value::HexBinary(bytes) => hex_text(alloc, bytes.as_slice()),
            Value::Base64Binary(bytes) => base64_text(alloc, bytes.as_slice()),
            _ => {
                let mut text = String::new(alloc);
                push_value(&mut text, self)?;
                Ok(Text::from_string(text))
            }
        }
    }
}

/// Writes the value, which holds neither text nor bytes.
fn push_value(text: &mut String, value: &Value) -> Result<(), AllocError>
    requires { grows (type_of value.now) ≡ false }
    ensures { OnOk result (string_bytes text.new ≡ string_bytes text.old ++ printed value.now) }
{
    match value {
        Value::Boolean(boolean) => push_boolean(text, *boolean),
        Value::Integer(integer) => push_integer(text, *integer),
        Value::Date(date) => push_date(text, *date),
        Value::Time(time) => push_time(text, *time),
        Value::DateTime(date_time) => push_date_time(text, *date_time),
        Value::DayTimeDuration(duration) => push_day_time(text, *duration),
        Value::YearMonthDuration(duration) => push_year_month(text, *duration),
        Value::String(_) | Value::AnyUri(_) | Value::HexBinary(_) | Value::Base64Binary(_) => {
            unreachable!()
        }
    }
}
