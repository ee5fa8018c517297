//! Rows of combining: what the public call `combine` makes of decisions and targets that are given.
use crate::answer::Answer;
use crate::field::first_field_and_rest;
use crate::no_answer::NoAnswer;
use xa_expr::{Fault, Matching};
use xa_policy::{Alg, Child, Decision, combine};

/// The decision of that name.
fn decision_named(name: &str) -> Result<Decision, NoAnswer> {
    match name {
        "Permit" => Ok(Decision::Permit),
        "Deny" => Ok(Decision::Deny),
        "NotApplicable" => Ok(Decision::NotApplicable),
        "{P}" => Ok(Decision::IndeterminatePermit),
        "{D}" => Ok(Decision::IndeterminateDeny),
        "{DP}" => Ok(Decision::IndeterminateDenyPermit),
        _ => Err(NoAnswer::Malformed),
    }
}

/// The algorithm of that name, as it stands at the end of its URI.
fn algorithm_named(name: &str) -> Result<Alg, NoAnswer> {
    match name {
        "deny-overrides" => Ok(Alg::DenyOverrides),
        "permit-overrides" => Ok(Alg::PermitOverrides),
        "ordered-deny-overrides" => Ok(Alg::OrderedDenyOverrides),
        "ordered-permit-overrides" => Ok(Alg::OrderedPermitOverrides),
        "deny-unless-permit" => Ok(Alg::DenyUnlessPermit),
        "permit-unless-deny" => Ok(Alg::PermitUnlessDeny),
        "first-applicable" => Ok(Alg::FirstApplicable),
        "only-one-applicable" => Ok(Alg::OnlyOneApplicable),
        _ => Err(NoAnswer::Malformed),
    }
}

/// What a target of that name comes to.
fn target_named(name: &str) -> Result<Matching, NoAnswer> {
    match name {
        "Match" => Ok(Matching::Match),
        "NoMatch" => Ok(Matching::NoMatch),
        "Indeterminate" => Ok(Matching::Indeterminate(Fault::ProcessingError)),
        _ => Err(NoAnswer::Malformed),
    }
}

/// The child of a field: DECISION, or DECISION/TARGET if its target isn't Match.
fn child_of(field: &str) -> Result<Child, NoAnswer> {
    let (decision, target) = field.split_once('/').unwrap_or((field, "Match"));
    Ok(Child {
        decision: decision_named(decision)?,
        target: target_named(target)?,
    })
}

/// What the algorithm makes of the children.
pub fn combination(answer: &mut Answer, fields: &[&str]) -> Result<(), NoAnswer> {
    let (algorithm, fields) = first_field_and_rest(fields)?;
    let algorithm = algorithm_named(algorithm)?;
    let mut children = Vec::new(answer.alloc());
    for field in fields {
        children.push(child_of(field)?)?;
    }
    answer.push_shown("", &combine(algorithm, &children));
    Ok(())
}
