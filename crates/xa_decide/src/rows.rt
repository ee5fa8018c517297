//! The rows of a source of attributes, read from a body and written as one.
ghost use Rattle.std.specs.Prelude.{◌≡◌, ◌∷◌, [], IfOk};
ghost use Rattle.json.specs.Token.{key, string};
ghost use Rattle.serde_json.specs.View.{view};
ghost use Rattle.xa_value.specs.Gives.{Gives};
ghost use Rattle.xa_notation.specs.Tables.{name_of};
ghost use Rattle.xa_profile.specs.Response.{type_data};
ghost use Rattle.xa_profile.specs.writing.Tokens.{Appends, tokens};
ghost use Rattle.xa_decide.specs.Rows.{row, row_data, rows, rows_body, rows_data, rows_of};
ghost use Rattle.xa_decide.specs.writing.Tokens.{text_if_any_tokens};

use crate::source_row::SourceRow;
use json::Writer;
use serde_json::Value as Json;
use std::alloc::{AllocError, Global};
use xa_notation::reading::{
    Object, Reader, category, check_members, data_type, each, items, json as json_of, literal,
    member_at, needed_member, optional_text, text_copy,
};
use xa_notation::{Member, NotationError};
use xa_profile::{ToJson, write_items};
use xa_value::{DataType, Items, OrMemory, Text};

/// Reads a row.
#[derive(Drop)]
struct RowReader;

impl Reader for RowReader {
    type Output = SourceRow;

    ghost reads = { λ _ d. row d };

    #[tactic(auto, unfolding(crate::specs::Rows::row))]
    fn read(&self, alloc: Global, value: &Json) -> Result<SourceRow, OrMemory<NotationError>> {
        check_members(value, Object::SourceRow)?;
        let category = category(alloc, needed_member(value, Member::Category)?)?;
        let entity = text_copy(alloc, needed_member(value, Member::Entity)?)?;
        let attribute_id = text_copy(alloc, needed_member(value, Member::AttributeId)?)?;
        let data_type = data_type(needed_member(value, Member::DataType)?)?;
        let literal = literal(alloc, data_type, needed_member(value, Member::Value)?)?;
        let issuer = optional_text(alloc, member_at(value, Member::Issuer))?;
        Ok(SourceRow {
            category,
            entity,
            attribute_id,
            value: literal,
            issuer,
        })
    }
}

impl ToJson for SourceRow {
    ghost written = { λ r. row_data r };

    #[tactic(auto, unfolding(crate::specs::Rows::row_data), using(crate::proofs::RowLemmas::text_if_any_first))]
    fn write(&self, alloc: Global, out: &mut Writer) -> Result<(), AllocError> {
        out.begin_object()?;
        write_text(out, Member::AttributeId, self.attribute_id.as_str())?;
        write_text(out, Member::Category, self.category.as_str())?;
        write_data_type(out, self.value.data_type())?;
        write_text(out, Member::Entity, self.entity.as_str())?;
        write_text_if_any(out, Member::Issuer, &self.issuer)?;
        out.key(Member::Value.name())?;
        self.value.write(alloc, out)?;
        out.end_object()
    }
}

/// The rows, of an object with this member.
#[tactic(auto, unfolding(crate::specs::Rows::rows))]
fn rows(alloc: Global, value: &Json) -> Result<Items<SourceRow>, OrMemory<NotationError>>
    ensures { Gives result (rows (view value.now)) }
{
    check_members(value, Object::Source)?;
    each(
        alloc,
        &RowReader,
        items(needed_member(value, Member::Row)?)?,
    )
}

/// The rows that a body sets, `{"Row":[..]}`, each
/// `{"Category","Entity","AttributeId","DataType","Value","Issuer"}`: the category by its shorthand or any
/// text, the data type by its URI or its name alone, the value as in a literal (XACML 3.0, core, section
/// 5.31). The issuer may be left out. Or the body's first fault: NotJson; then of the whole, and then of
/// each row in order, UnknownMember, MissingMember in table order, and BadValue in table order. A body
/// that is no object is a BadValue. Any number of rows is read.
#[tactic(auto, unfolding(crate::specs::Rows::rows_of))]
pub fn read_rows(alloc: Global, body: &[u8]) -> Result<Items<SourceRow>, OrMemory<NotationError>>
    ensures { Gives result (rows_of body.now) }
{
    let value = json_of(alloc, body)?;
    rows(alloc, &value)
}

/// Writes a text as a member. This and the two below are those of `xa_profile` again, whose members have
/// other names.
fn write_text(out: &mut Writer, name: Member, text: &str) -> Result<(), AllocError>
    ensures { Appends result out.old out.new (key (name_of name) ∷ string text.now ∷ []) }
{
    out.key(name.name())?;
    out.string(text)
}

/// Writes the member DataType, by the type's whole URI.
#[tactic(auto, unfolding(xa_profile::specs::Response::type_data))]
fn write_data_type(out: &mut Writer, data_type: DataType) -> Result<(), AllocError>
    ensures { Appends result out.old out.new (key (name_of Member.DataType) ∷ tokens (type_data data_type)) }
{
    write_text(out, Member::DataType, data_type.uri())
}

/// Writes a text as a member; nothing if there is none.
fn write_text_if_any(out: &mut Writer, name: Member, text: &Option<Text>) -> Result<(), AllocError>
    ensures { Appends result out.old out.new (text_if_any_tokens name text.now) }
{
    match text {
        Some(text) => write_text(out, name, text.as_str()),
        None => Ok(()),
    }
}

/// Writes all rows.
#[tactic(auto, unfolding(crate::specs::Rows::rows_data))]
fn write_all(alloc: Global, out: &mut Writer, rows: &[SourceRow]) -> Result<(), AllocError>
    ensures { Appends result out.old out.new (tokens (rows_data rows.now)) }
{
    out.begin_object()?;
    out.key(Member::Row.name())?;
    write_items(alloc, out, rows)?;
    out.end_object()
}

/// The body that lists the rows in order, as [`read_rows`] reads it: JSON with no space, members in the
/// order of their names' bytes, a value as responses have it.
#[tactic(auto, unfolding(crate::specs::Rows::rows_body), using(xa_profile::proofs::TokenLemmas::text_of_tokens))]
pub fn write_rows(alloc: Global, rows: &[SourceRow]) -> Result<Vec<u8>, AllocError>
    ensures { IfOk result (λ body. body.items ≡ rows_body rows.now) }
{
    let mut out = Writer::new(Vec::new(alloc));
    write_all(alloc, &mut out, rows)?;
    Ok(out.into_inner())
}
