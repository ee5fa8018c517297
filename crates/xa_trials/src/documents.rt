//! Rows of policy documents: what a text is read as.
use crate::answer::Answer;
use crate::field::only_bytes;
use crate::no_answer::NoAnswer;
use xa_notation::Parsed;
use xa_policy::DocumentKind;

/// Adds the document's kind, its id and its version.
fn push_document(answer: &mut Answer, parsed: &Parsed) -> Result<(), NoAnswer> {
    match parsed.kind() {
        DocumentKind::Policy => answer.push_word("policy"),
        DocumentKind::PolicySet => answer.push_word("set"),
    }
    answer.push_field("", parsed.id().as_bytes());
    let version = parsed.version().to_text(answer.alloc())?;
    answer.push_word(version.as_str());
    Ok(())
}

/// What the text is read as: its kind, its id and its version.
pub fn document(answer: &mut Answer, fields: &[&str]) -> Result<(), NoAnswer> {
    let text = only_bytes(answer.alloc(), fields)?;
    let read = Parsed::read(answer.alloc(), &text);
    match answer.success(read) {
        Some(parsed) => push_document(answer, &parsed),
        None => Ok(()),
    }
}
