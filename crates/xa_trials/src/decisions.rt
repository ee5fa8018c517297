//! Rows of decisions: the response to a request, by active documents, a root and a source of attributes,
//! at a moment, and perhaps under limits.
use crate::answer::Answer;
use crate::bodies::rows_of;
use crate::clock::moment_of;
use crate::field::{bytes_of, number_of, word_and_text};
use crate::no_answer::NoAnswer;
use crate::references::{active_of, root_of};
use std::alloc::Global;
use xa_decide::{Limits, RequestBody, SourceRow, View, respond};
use xa_link::Active;
use xa_policy::Reference;
use xa_shelf::{Shelf, TextReader};
use xa_value::{Items, Moment};

/// What decides on a row's request, and when.
#[derive(Drop)]
struct Case {
    /// The active documents.
    active: Items<Active>,
    /// The root, if one is set.
    root: Option<Reference>,
    /// The rows of the source of attributes.
    source: Items<SourceRow>,
    /// The moment of the decision.
    moment: Moment,
    /// What it may cost.
    limits: Limits,
}

impl Case {
    /// Takes in what the field describes.
    fn take(&mut self, alloc: Global, field: &str) -> Result<(), NoAnswer> {
        let (word, text) = word_and_text(field);
        match word {
            "active" => self.active.push(active_of(alloc, text)?)?,
            "root" => self.root = root_of(alloc, text)?,
            "source" => self.source = rows_of(alloc, text)?,
            "moment" => self.moment = moment_of(text)?,
            "work" => self.limits.work = Some(number_of(text)?),
            "reply" => self.limits.reply = Some(number_of(text)?),
            _ => return Err(NoAnswer::Malformed),
        }
        Ok(())
    }
}

/// The case of the fields, at moment 0 if none says another.
fn case_of(alloc: Global, fields: &[&str]) -> Result<Case, NoAnswer> {
    let moment = moment_of("0")?;
    let mut case = Case {
        active: Items::new(alloc),
        root: None,
        source: Items::new(alloc),
        moment,
        limits: Limits::none(),
    };
    for field in fields {
        case.take(alloc, field)?;
    }
    Ok(case)
}

/// What decides in the case.
fn view_of(alloc: Global, case: Case) -> Result<View, NoAnswer> {
    let mut shelf = Shelf::new(alloc)?;
    let Case {
        active,
        root,
        source,
        ..
    } = case;
    let mut reader = TextReader::new(&mut shelf, None);
    let view = View::new(alloc, &mut reader, active.as_slice(), &root, source)?;
    Ok(view)
}

/// Adds the body of the response to the request whose body the field has, or the limit that it is over.
fn push_response_within(
    answer: &mut Answer,
    view: &View,
    field: &str,
    moment: Moment,
    limits: Limits,
) -> Result<(), NoAnswer> {
    let alloc = answer.alloc();
    let bytes = bytes_of(alloc, field)?;
    let body = RequestBody::read(alloc, &bytes)?;
    match answer.success(respond(alloc, view, &body, moment, limits)) {
        Some(Some(response)) => answer.push_field("", response.body.as_slice()),
        Some(None) => answer.push_word("!NotJson"),
        None => {}
    }
    Ok(())
}

/// Adds the body of the response to the request whose body the field has.
fn push_response(
    answer: &mut Answer,
    view: &View,
    field: &str,
    moment: Moment,
) -> Result<(), NoAnswer> {
    let body = bytes_of(answer.alloc(), field)?;
    match xa_decide::answer(answer.alloc(), view, &body, moment)? {
        Some(response) => answer.push_field("", &response),
        None => answer.push_word("!NotJson"),
    }
    Ok(())
}

/// The body of the response to the last field, the body of a request.
pub fn decision(answer: &mut Answer, fields: &[&str]) -> Result<(), NoAnswer> {
    let [fields @ .., body] = fields else {
        return Err(NoAnswer::FieldCount);
    };
    let alloc = answer.alloc();
    let case = case_of(alloc, fields)?;
    let (moment, limits) = (case.moment, case.limits);
    let view = view_of(alloc, case)?;
    if limits.work.is_none() && limits.reply.is_none() {
        return push_response(answer, &view, body, moment);
    }
    push_response_within(answer, &view, body, moment, limits)
}
