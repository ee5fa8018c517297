//! Rows of references: for which document a reference stands. References and keys of documents as fields.
ghost use Rattle.std.specs.Prelude.{IfOk};
ghost use Rattle.xa_records.specs.DomainState.{IsDocumentOf};

use crate::answer::Answer;
use crate::field::{bytes_of, first_field_and_rest};
use crate::no_answer::NoAnswer;
use std::alloc::Global;
use xa_link::{Active, resolve};
use xa_notation::{Parsed, read_root};
use xa_policy::{DocumentKey, DocumentKind, Reference, Version};
use xa_value::{Items, Text};

/// The root that the body of the field sets, if any.
pub fn root_of(alloc: Global, field: &str) -> Result<Option<Reference>, NoAnswer> {
    read_root(alloc, &bytes_of(alloc, field)?)
        .ok()
        .ok_or(NoAnswer::Malformed)
}

/// The reference to which the body of the field sets the root.
pub fn reference_of(alloc: Global, field: &str) -> Result<Reference, NoAnswer> {
    root_of(alloc, field)?.ok_or(NoAnswer::Malformed)
}

/// The key of the document that the text is.
pub fn key_of(alloc: Global, text: &[u8]) -> Result<DocumentKey, NoAnswer>
    ensures { IfOk result (λ key. IsDocumentOf key text.now) }
{
    match Parsed::read(alloc, text) {
        Ok(parsed) => Ok(parsed.key()?),
        Err(_) => Err(NoAnswer::Malformed),
    }
}

/// The key of the document of the field.
pub fn key_in(alloc: Global, field: &str) -> Result<DocumentKey, NoAnswer> {
    key_of(alloc, &bytes_of(alloc, field)?)
}

/// The active document of the field.
pub fn active_of(alloc: Global, field: &str) -> Result<Active, NoAnswer> {
    let text = bytes_of(alloc, field)?;
    let DocumentKey { kind, id, version } = key_of(alloc, &text)?;
    let text = Items::from_vec(text);
    Ok(Active {
        kind,
        id,
        version,
        text,
    })
}

/// The active documents of these texts.
pub fn documents_of(alloc: Global, texts: &[&str]) -> Result<Vec<Active>, NoAnswer> {
    let mut documents = Vec::new(alloc);
    for text in texts {
        documents.push(active_of(alloc, text)?)?;
    }
    Ok(documents)
}

/// The place of the document for which the reference stands.
pub fn resolution(answer: &mut Answer, fields: &[&str]) -> Result<(), NoAnswer> {
    let (reference, texts) = first_field_and_rest(fields)?;
    let reference = reference_of(answer.alloc(), reference)?;
    let documents = documents_of(answer.alloc(), texts)?;
    answer.push_shown_or_none(resolve(&documents, &reference));
    Ok(())
}

/// Adds a field of the word and KIND|ID|.
fn push_kind(answer: &mut Answer, word: &str, kind: DocumentKind, id: &Text) {
    answer.push_word(word);
    match kind {
        DocumentKind::Policy => answer.append_bytes(b"policy|"),
        DocumentKind::PolicySet => answer.append_bytes(b"set|"),
    }
    answer.append_bytes(id.as_bytes());
    answer.append_bytes(b"|");
}

/// Adds |VERSION to the last field; a version that the reference doesn't say is empty.
fn push_version(answer: &mut Answer, version: &Option<Version>) -> Result<(), NoAnswer> {
    answer.append_bytes(b"|");
    if let Some(version) = version {
        answer.append_bytes(version.to_text(answer.alloc())?.as_bytes());
    }
    Ok(())
}

/// Adds a field of the word and KIND|ID|PATTERN|EARLIEST|LATEST. What the reference doesn't say is empty.
pub fn push_reference(
    answer: &mut Answer,
    word: &str,
    reference: &Reference,
) -> Result<(), NoAnswer> {
    push_kind(answer, word, reference.kind, &reference.id);
    if let Some(pattern) = &reference.version {
        answer.append_bytes(pattern.to_text(answer.alloc())?.as_bytes());
    }
    push_version(answer, &reference.earliest)?;
    push_version(answer, &reference.latest)
}

/// Adds a field of the word and KIND|ID|VERSION.
pub fn push_key(answer: &mut Answer, word: &str, key: &DocumentKey) -> Result<(), NoAnswer> {
    push_kind(answer, word, key.kind, &key.id);
    answer.append_bytes(key.version.to_text(answer.alloc())?.as_bytes());
    Ok(())
}
