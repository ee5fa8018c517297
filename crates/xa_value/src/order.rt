//! Equality and order of values.
ghost use Rattle.std.specs.Prelude.{◌≡◌};
ghost use Rattle.std.specs.Cmp.{IsEquivalence};
ghost use Rattle.xa_value.specs.Order.{number_of, bytes_of, key_of};
ghost use Rattle.xa_value.specs.Order.{same, is_ordered, order, IsOrder, KeysTellApart};

use crate::data_type::DataType;
use crate::instant::instant;
use crate::sort_key::SortKey;
use crate::value::Value;
use std::cmp::Ordering;

impl Value {
    /// The number by which the value compares.
    #[tactic(auto, unfolding(crate::specs::Order::number_of))]
    fn ordering_number(&self) -> i128
        ensures { result ≡ number_of self.now }
    {
        match self {
            Value::Boolean(value) => i128::from(*value),
            Value::Integer(value) => i128::from(*value),
            Value::Date(date) => instant(date.civil().to_unix_epoch_day(), 0, date.zone()),
            Value::Time(time) => instant(0, time.nanos(), time.zone()),
            Value::DateTime(date_time) => instant(
                date_time.civil().to_unix_epoch_day(),
                date_time.nanos(),
                date_time.zone(),
            ),
            Value::DayTimeDuration(duration) => duration.nanos(),
            Value::YearMonthDuration(duration) => i128::from(duration.months()),
            Value::String(_) | Value::AnyUri(_) | Value::HexBinary(_) | Value::Base64Binary(_) => 0,
        }
    }

    /// The bytes by which the value compares.
    #[tactic(auto, unfolding(crate::specs::Order::bytes_of))]
    fn ordering_bytes(&self) -> &[u8]
        ensures { result.now ≡ bytes_of self.now }
    {
        match self {
            Value::String(text) | Value::AnyUri(text) => text.as_bytes(),
            Value::HexBinary(bytes) | Value::Base64Binary(bytes) => bytes.as_slice(),
            _ => &[],
        }
    }

    /// The key by which the values of its type are ordered, and equal.
    pub fn sort_key(&self) -> SortKey<'_>
        ensures value { result ≡ key_of self.now }
        ensures law { KeysTellApart }
    {
        SortKey::new(self.ordering_number(), self.ordering_bytes())
    }

    /// Whether the values are equal: of one type, and of the same instant, number or bytes (XACML
    /// 3.0, core, appendix A.3.1; XML Schema, part 2, section 3.2.7.4).
    #[tactic(auto, unfolding(crate::specs::Order::same, crate::specs::Order::number_of, crate::specs::Order::bytes_of))]
    pub fn same(&self, other: &Value) -> bool
        ensures value { result ≡ same self.now other.now }
        ensures law { IsEquivalence same }
    {
        match (self, other) {
            // Most values that are compared are texts.
            (Value::String(text), Value::String(other)) => text.as_bytes() == other.as_bytes(),
            _ => self.has_same_key(other),
        }
    }

    /// Whether the values are of one type and have one key. Not by `sort_key`: if the numbers differ, the
    /// bytes aren't asked for.
    #[tactic(auto, unfolding(crate::specs::Order::same))]
    fn has_same_key(&self, other: &Value) -> bool
        ensures { result ≡ same self.now other.now }
    {
        self.data_type().is_same(other.data_type())
            && self.ordering_number() == other.ordering_number()
            && self.ordering_bytes() == other.ordering_bytes()
    }

    /// The order of two values of one type, if it is integer, string, time, date or dateTime
    /// (XACML 3.0, core, appendix A.3.6 and A.3.8; XML Schema, part 2, section 3.2.7.4); none of
    /// any others.
    #[tactic(auto, unfolding(crate::specs::Order::order))]
    pub fn order(&self, other: &Value) -> Option<Ordering>
        ensures value { result ≡ order self.now other.now }
        ensures law { IsOrder }
    {
        if self.data_type().is_same(other.data_type()) && is_ordered(self.data_type()) {
            Some(self.sort_key().cmp(&other.sort_key()))
        } else {
            None
        }
    }
}

/// Whether values of the type have an order.
fn is_ordered(data_type: DataType) -> bool
    ensures { result ≡ is_ordered data_type }
{
    matches!(
        data_type,
        DataType::String | DataType::Integer | DataType::Date | DataType::Time | DataType::DateTime
    )
}
