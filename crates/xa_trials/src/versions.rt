//! Rows of versions and of patterns of versions: what a text is read as.
use crate::answer::Answer;
use crate::field::only_text;
use crate::no_answer::NoAnswer;
use xa_policy::{Pattern, Version};

/// The version that the text is read as.
pub fn version(answer: &mut Answer, fields: &[&str]) -> Result<(), NoAnswer> {
    let text = only_text(answer.alloc(), fields)?;
    match Version::read(text.as_str()) {
        Ok(version) => answer.push_word(version.to_text(answer.alloc())?.as_str()),
        Err(error) => answer.push_shown("!", &error),
    }
    Ok(())
}

/// The pattern that the text is read as.
pub fn pattern(answer: &mut Answer, fields: &[&str]) -> Result<(), NoAnswer> {
    let text = only_text(answer.alloc(), fields)?;
    match Pattern::read(text.as_str()) {
        Ok(pattern) => answer.push_word(pattern.to_text(answer.alloc())?.as_str()),
        Err(error) => answer.push_shown("!", &error),
    }
    Ok(())
}
