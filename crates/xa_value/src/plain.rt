//! Values as plain members: the texts, booleans and whole numbers of a notation that knows no other types.
ghost use Rattle.std.specs.Prelude.{◌≡◌, false, IfOk, Ok};
ghost use Rattle.xa_value.specs.Gives.{Gives, answered};
ghost use Rattle.xa_value.specs.Order.{type_of};
ghost use Rattle.xa_value.specs.Plain.{type_of_plain, from_boolean, from_integer};
ghost use Rattle.xa_value.specs.Plain.{from_plain, plain_grows, to_plain, is_text, PlainBack};

use crate::data_type::DataType;
use crate::or_memory::OrMemory;
use crate::read_error::ReadError;
use crate::text::{Text, TextRef};
use crate::value::Value;
use std::alloc::{AllocError, Global};

/// A plain member, with its text as a `T`.
#[derive(Debug, Drop, PartialEq, Eq)]
pub enum Plain<T> {
    /// A text.
    Text(T),
    /// True or false.
    Boolean(bool),
    /// A whole number, which may lie outside 64 bits.
    Integer(i128),
}

impl<T> Plain<T> {
    /// The type of the member if none is named.
    pub fn data_type(&self) -> DataType
        ensures { result ≡ type_of_plain self.now }
    {
        match self {
            Plain::Text(_) => DataType::String,
            Plain::Boolean(_) => DataType::Boolean,
            Plain::Integer(_) => DataType::Integer,
        }
    }
}

impl Value {
    /// The value of the member under the type: a text is read by the type, a boolean fits boolean
    /// alone, and a whole number integer. NotThisType if it doesn't fit. OutOfRange of a
    /// whole number that needs more than 64 bits, and of a text that is read as out of range.
    pub fn from_plain(
        alloc: Global,
        data_type: DataType,
        plain: &Plain<TextRef<'_>>,
    ) -> Result<Value, OrMemory<ReadError>>
        ensures value { Gives result (from_plain data_type plain.now) }
        ensures exact { plain_grows data_type plain.now ≡ false
            → result ≡ answered (from_plain data_type plain.now) }
    {
        match plain {
            Plain::Text(text) => Value::read(alloc, data_type, text.as_str()),
            Plain::Boolean(value) => Ok(from_boolean(data_type, *value)?),
            Plain::Integer(value) => Ok(from_integer(data_type, *value)?),
        }
    }

    /// The value as a plain member: a boolean and an integer as they are, any other value as its text.
    pub fn to_plain(&self, alloc: Global) -> Result<Plain<Text>, AllocError>
        ensures value { IfOk result (λ plain. plain ≡ to_plain self.now) }
        ensures exact { is_text (type_of self.now) ≡ false → result ≡ Ok (to_plain self.now) }
    {
        match self {
            Value::Boolean(value) => Ok(Plain::Boolean(*value)),
            Value::Integer(value) => Ok(Plain::Integer(i128::from(*value))),
            _ => Ok(Plain::Text(self.to_text(alloc)?)),
        }
    }

    /// Law: the value that a text stands for is the value of the plain member as which it is written.
    pub fn reads_back_from_plain(data_type: DataType, text: &str)
        ensures { PlainBack data_type text.now }
    {
        // Nothing is done: the clause is for the prover, and holds of any type and text.
        let _ = (data_type, text.len());
    }
}

/// The boolean as a value of the type.
fn from_boolean(data_type: DataType, value: bool) -> Result<Value, ReadError>
    ensures { result ≡ from_boolean data_type value }
{
    match data_type {
        DataType::Boolean => Ok(Value::Boolean(value)),
        _ => Err(ReadError::NotThisType),
    }
}

/// The whole number as a value, if it fits 64 bits.
fn integer(value: i128) -> Result<Value, ReadError>
    ensures { result ≡ from_integer DataType.Integer value }
{
    let value = i64::try_from(value).map_err(|_| ReadError::OutOfRange)?;
    Ok(Value::Integer(value))
}

/// The whole number as a value of the type.
fn from_integer(data_type: DataType, value: i128) -> Result<Value, ReadError>
    ensures { result ≡ from_integer data_type value }
{
    match data_type {
        DataType::Integer => integer(value),
        _ => Err(ReadError::NotThisType),
    }
}
