//! The value that a text stands for.
ghost use Rattle.std.specs.Prelude.{◌≡◌, false, IfOk};
ghost use Rattle.xa_value.specs.Gives.{Gives, answered};
ghost use Rattle.xa_value.specs.Order.{type_of};
ghost use Rattle.xa_value.specs.Reading.{IsReading, grows, read};

use crate::binary::{read_base64, read_hex};
use crate::calendar::{read_date, read_date_time};
use crate::data_type::DataType;
use crate::duration::{read_day_time, read_year_month};
use crate::lexical::trimmed_text;
use crate::number::{read_boolean, read_integer};
use crate::or_memory::OrMemory;
use crate::read_error::ReadError;
use crate::text::Text;
use crate::time::read_time;
use crate::value::Value;
use std::alloc::Global;

impl Value {
    /// The value that the text stands for under the type. White space around it does not count,
    /// except in a string; in base64 no white space counts. NotThisType of a text that hasn't the
    /// shape of the type, and OutOfRange of one that has, with a part outside its range (XACML 3.0,
    /// core, appendix A.2; XML Schema, part 2).
    pub fn read(
        alloc: Global,
        data_type: DataType,
        text: &str,
    ) -> Result<Value, OrMemory<ReadError>>
        ensures value { Gives result (read data_type text.now) }
        ensures grammar { IsReading data_type text.now (read data_type text.now) }
        ensures data_type { IfOk result (λ v. type_of v ≡ data_type) }
        ensures exact { grows data_type ≡ false → result ≡ answered (read data_type text.now) }
    {
        read_by_type(alloc, data_type, text)
    }
}

/// The value of the text by the reader of its type. Apart from `read`, so that its law on grammars is
/// shown once, and not for each type.
fn read_by_type(
    alloc: Global,
    data_type: DataType,
    text: &str,
) -> Result<Value, OrMemory<ReadError>>
    ensures value { Gives result (read data_type text.now) }
    ensures data_type { IfOk result (λ v. type_of v ≡ data_type) }
    ensures exact { grows data_type ≡ false → result ≡ answered (read data_type text.now) }
{
    let trimmed = trimmed_text(text);
    let bytes = trimmed.as_bytes();
    match data_type {
        DataType::String => Ok(Value::String(Text::new(alloc, text)?)),
        DataType::Boolean => Ok(Value::Boolean(read_boolean(bytes)?)),
        DataType::Integer => Ok(Value::Integer(read_integer(bytes)?)),
        DataType::Date => Ok(Value::Date(read_date(bytes)?)),
        DataType::Time => Ok(Value::Time(read_time(bytes)?)),
        DataType::DateTime => Ok(Value::DateTime(read_date_time(bytes)?)),
        DataType::DayTimeDuration => Ok(Value::DayTimeDuration(read_day_time(bytes)?)),
        DataType::YearMonthDuration => Ok(Value::YearMonthDuration(read_year_month(bytes)?)),
        DataType::AnyUri => Ok(Value::AnyUri(Text::new(alloc, trimmed)?)),
        DataType::HexBinary => Ok(Value::HexBinary(read_hex(alloc, bytes)?)),
        DataType::Base64Binary => Ok(Value::Base64Binary(read_base64(alloc, bytes)?)),
    }
}
