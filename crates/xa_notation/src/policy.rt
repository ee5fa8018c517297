//! Policies.
ghost use Rattle.std.specs.Prelude.{◌≡◌};
ghost use Rattle.serde_json.specs.View.{view};
ghost use Rattle.xa_value.specs.Gives.{Gives};
ghost use Rattle.xa_notation.specs.Shape.{written_policy};

use crate::duties::written_duties;
use crate::json::{check_members, each, items_if_any, member_at, needed_member};
use crate::member::Member;
use crate::notation_error::NotationError;
use crate::plain_members::{check_description, id, rule_algorithm, version};
use crate::rule::RuleReader;
use crate::tables::Object;
use crate::target::written_target;
use crate::variables::written_variables;
use crate::written::WrittenPolicy;
use serde_json::Value as Json;
use std::alloc::Global;
use xa_policy::{DocumentKey, DocumentKind};
use xa_value::OrMemory;

/// A policy (XACML 3.0, core, section 5.14).
#[tactic(auto, unfolding(crate::specs::Shape::written_policy))]
pub(crate) fn written_policy(
    alloc: Global,
    value: &Json,
) -> Result<WrittenPolicy, OrMemory<NotationError>>
    ensures { Gives result (written_policy (view value.now)) }
{
    check_members(value, Object::Policy)?;
    let id = id(alloc, needed_member(value, Member::PolicyId)?)?;
    let version = version(needed_member(value, Member::Version)?)?;
    let algorithm = rule_algorithm(needed_member(value, Member::RuleCombiningAlgId)?)?;
    check_description(member_at(value, Member::Description))?;
    let target = written_target(alloc, member_at(value, Member::Target))?;
    let variables = items_if_any(member_at(value, Member::VariableDefinition))?;
    let variables = written_variables(alloc, variables)?;
    let rules = items_if_any(member_at(value, Member::Rule))?;
    let rules = each(alloc, &RuleReader, rules)?;
    let duties = written_duties(alloc, value)?;
    Ok(WrittenPolicy {
        key: DocumentKey {
            kind: DocumentKind::Policy,
            id,
            version,
        },
        algorithm,
        target,
        variables,
        rules,
        duties,
    })
}
