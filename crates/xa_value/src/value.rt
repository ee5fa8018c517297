//! Values of the data types.
ghost use Rattle.std.specs.Prelude.{◌≡◌};
ghost use Rattle.xa_value.specs.Order.{type_of};

use crate::bytes::Bytes;
use crate::calendar::{Date, DateTime};
use crate::data_type::DataType;
use crate::duration::{DayTimeDuration, YearMonthDuration};
use crate::text::Text;
use crate::time::Time;

/// A value of one of the data types (XACML 3.0, core, appendix A.2).
#[derive(Clone, Debug, Drop, PartialEq, Eq)]
pub enum Value {
    /// Any text.
    String(Text),
    /// True or false.
    Boolean(bool),
    /// A whole number.
    Integer(i64),
    /// A day, with or without a zone.
    Date(Date),
    /// A time of day, with or without a zone.
    Time(Time),
    /// A day and a time of day, with or without a zone.
    DateTime(DateTime),
    /// A duration in days, hours, minutes and seconds.
    DayTimeDuration(DayTimeDuration),
    /// A duration in years and months.
    YearMonthDuration(YearMonthDuration),
    /// A URI.
    AnyUri(Text),
    /// Bytes, written as hexadecimal digits.
    HexBinary(Bytes),
    /// Bytes, written in base64.
    Base64Binary(Bytes),
}

impl Value {
    /// The value's type.
    pub fn data_type(&self) -> DataType
        ensures { result ≡ type_of self.now }
    {
        match self {
            Value::String(_) => DataType::String,
            Value::Boolean(_) => DataType::Boolean,
            Value::Integer(_) => DataType::Integer,
            Value::Date(_) => DataType::Date,
            Value::Time(_) => DataType::Time,
            Value::DateTime(_) => DataType::DateTime,
            Value::DayTimeDuration(_) => DataType::DayTimeDuration,
            Value::YearMonthDuration(_) => DataType::YearMonthDuration,
            Value::AnyUri(_) => DataType::AnyUri,
            Value::HexBinary(_) => DataType::HexBinary,
            Value::Base64Binary(_) => DataType::Base64Binary,
        }
    }
}
