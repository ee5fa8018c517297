//! How values and members are written as JSON.
ghost use Rattle.std.specs.Prelude.{◌∷◌, [], map};
ghost use Rattle.json.specs.Token.{key, string};
ghost use Rattle.serde_json.specs.Data.{Data};
ghost use Rattle.xa_profile.specs.Member.{name_of};
ghost use Rattle.xa_profile.specs.Response.{listing, type_data, value_data, values_data};
ghost use Rattle.xa_profile.specs.writing.Tokens.{Appends, tokens, member_tokens};
ghost use Rattle.xa_profile.specs.writing.Tokens.{text_if_any_tokens, items_if_any_tokens};

use crate::member::Member;
use json::Writer;
use std::alloc::{AllocError, Global};
use xa_value::{DataType, Text, Value};

/// What is written as JSON (RFC 8259), token by token, with no tree of JSON before.
pub trait ToJson {
    /// The JSON that it is.
    ghost written: { Self → Data };

    /// Writes the JSON as the next value. Without memory the writer may hold a part of it.
    fn write(&self, alloc: Global, out: &mut Writer) -> Result<(), AllocError>
        ensures { Appends result out.old out.new (tokens (written self.now)) };
}

impl ToJson for Value {
    ghost written = { λ v. value_data v };

    #[tactic(auto, using(crate::proofs::TokenLemmas::integer_text))]
    fn write(&self, alloc: Global, out: &mut Writer) -> Result<(), AllocError> {
        match self {
            Value::Boolean(value) => out.boolean(*value),
            Value::Integer(value) => out.i64(*value),
            Value::String(text) | Value::AnyUri(text) => out.string(text.as_str()),
            _ => out.string(self.to_text(alloc)?.as_str()),
        }
    }
}

/// Writes an array of the items, as the next value. Without memory the writer may hold a part of it.
pub fn write_items<T: ToJson>(
    alloc: Global,
    out: &mut Writer,
    items: &[T],
) -> Result<(), AllocError>
    ensures { Appends result out.old out.new (tokens (listing (map T.written items.now))) }
{
    out.begin_array()?;
    for item in items {
        item.write(alloc, out)?;
    }
    out.end_array()
}

/// Writes an array as a member; nothing if it is empty.
#[tactic(auto, using(crate::proofs::TokenLemmas::no_items, crate::proofs::TokenLemmas::some_items))]
pub(crate) fn write_items_if_any<T: ToJson>(
    alloc: Global,
    out: &mut Writer,
    name: Member,
    items: &[T],
) -> Result<(), AllocError>
    ensures { Appends result out.old out.new (items_if_any_tokens name (map T.written items.now)) }
{
    if items.is_empty() {
        return Ok(());
    }
    out.key(name.name())?;
    write_items(alloc, out, items)
}

/// Writes a text as a member.
pub(crate) fn write_text(out: &mut Writer, name: Member, text: &str) -> Result<(), AllocError>
    ensures { Appends result out.old out.new (key (name_of name) ∷ string text.now ∷ []) }
{
    out.key(name.name())?;
    out.string(text)
}

/// Writes a text as a member; nothing if there is none.
pub(crate) fn write_text_if_any(
    out: &mut Writer,
    name: Member,
    text: &Option<Text>,
) -> Result<(), AllocError>
    ensures { Appends result out.old out.new (text_if_any_tokens name text.now) }
{
    match text {
        Some(text) => write_text(out, name, text.as_str()),
        None => Ok(()),
    }
}

/// Writes the member DataType, by the type's whole URI.
#[tactic(auto, unfolding(crate::specs::Response::type_data))]
pub(crate) fn write_data_type(out: &mut Writer, data_type: DataType) -> Result<(), AllocError>
    ensures { Appends result out.old out.new (member_tokens Member.DataType (type_data data_type)) }
{
    write_text(out, Member::DataType, data_type.uri())
}

/// Writes the values of an attribute: one by itself, several or none as an array.
#[tactic(auto, using(crate::proofs::TokenLemmas::not_one_value))]
pub(crate) fn write_values(
    alloc: Global,
    out: &mut Writer,
    values: &[Value],
) -> Result<(), AllocError>
    ensures { Appends result out.old out.new (tokens (values_data values.now)) }
{
    match values {
        [value] => value.write(alloc, out),
        _ => write_items(alloc, out, values),
    }
}
