//! Functions of texts.
ghost use Rattle.std.specs.Prelude.{◌≡◌, map, chars, encode_utf8_all, IfOk};
ghost use Rattle.std.specs.List.{concat};
ghost use Rattle.xa_value.specs.declared.data_type.DataType.TheVariants as data_type;
ghost use Rattle.xa_func.specs.declared.signature.Kind.TheVariants as kind;
ghost use Rattle.xa_value.specs.Gives.{Gives};
ghost use Rattle.xa_func.specs.Signature.{kind_of, Every};
ghost use Rattle.xa_func.specs.Arguments.{texts};
ghost use Rattle.xa_func.specs.Text.{contains, has_part, end_of, is_range, substring};

use crate::arguments::string_of;
use crate::fault::FuncFault;
use crate::func_id::TextPart;
use memchr::memmem;
use std::alloc::{AllocError, Global};
use xa_value::{OrMemory, Text, Value};

/// Whether the part stands anywhere in the text: a search whose work grows by the length of both.
fn contains(text: &[u8], part: &[u8]) -> bool
    ensures { result ≡ contains text.now part.now }
{
    memmem::find(text, part).is_some()
}

/// Whether the part stands in the text.
pub(crate) fn has_part(place: TextPart, text: &[u8], part: &[u8]) -> bool
    ensures { result ≡ has_part place text.now part.now }
{
    match place {
        TextPart::StartsWith => text.starts_with(part),
        TextPart::EndsWith => text.ends_with(part),
        TextPart::Contains => contains(text, part),
    }
}

impl TextPart {
    /// Law: a part stands in a text by characters exactly where it does by bytes. It does nothing when it
    /// runs.
    #[tactic(auto, using(crate::proofs::CharacterLemmas::by_characters))]
    pub fn is_by_characters(self, text: &str, part: &str)
        ensures { has_part self text.now part.now ≡ has_part self (chars text.now) (chars part.now) }
    {}
}

/// The texts, one after another.
pub(crate) fn concatenation(alloc: Global, arguments: &[Value]) -> Result<Text, AllocError>
    requires { Every (kind.Value data_type.String) (map kind_of arguments.now) }
    ensures { IfOk result (λ text. text ≡ concat (texts arguments.now)) }
{
    let mut text = String::new(alloc);
    for argument in arguments {
        text.push_str(string_of(argument).as_str())?;
    }
    Ok(Text::from_string(text))
}

/// The characters of the text.
#[tactic(auto, using(std::proofs::lemmas::Str::chars_from_encodes))]
fn characters(alloc: Global, text: &str) -> Result<Vec<char>, AllocError>
    ensures { IfOk result (λ v. v.items ≡ chars text.now) }
{
    text.chars().collect(alloc)
}

/// The text of the characters.
fn text_of_characters(alloc: Global, characters: &[char]) -> Result<Text, AllocError>
    ensures { IfOk result (λ t. t ≡ encode_utf8_all characters.now) }
{
    let mut text = String::new(alloc);
    for character in characters {
        text.push(*character)?;
    }
    Ok(Text::from_string(text))
}

/// The end of a substring; -1 stands for the end of the text.
fn end_of(end: i64, count: usize) -> i128
    ensures { result ≡ end_of end count }
{
    if end == -1 {
        count as i128
    } else {
        i128::from(end)
    }
}

/// Whether both places are among the characters, or at their end, and the begin is not after the end.
fn is_range(begin: i64, end: i128, count: usize) -> bool
    ensures { result ≡ is_range begin end count }
{
    0 <= begin && i128::from(begin) <= end && end <= count as i128
}

/// The characters from one place up to another (XACML 3.0, core, appendix A.3.9).
#[tactic(auto, unfolding(crate::specs::Text::substring))]
pub(crate) fn substring(
    alloc: Global,
    text: &str,
    begin: i64,
    end: i64,
) -> Result<Text, OrMemory<FuncFault>>
    ensures { Gives result (substring text.now begin end) }
{
    let all = characters(alloc, text)?;
    let last = end_of(end, all.len());
    if !is_range(begin, last, all.len()) {
        return Err(FuncFault::Position.into());
    }
    let part = &all[begin as usize..last as usize];
    Ok(text_of_characters(alloc, part)?)
}
