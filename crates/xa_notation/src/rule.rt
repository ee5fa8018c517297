//! Rules.
ghost use Rattle.xa_notation.specs.Shape.{written_rule};

use crate::duties::written_duties;
use crate::expression::optional_expression;
use crate::json::{Reader, check_members, member_at, needed_member, text};
use crate::member::Member;
use crate::notation_error::NotationError;
use crate::plain_members::{check_description, effect};
use crate::tables::Object;
use crate::target::written_target;
use crate::written::WrittenRule;
use serde_json::Value as Json;
use std::alloc::Global;
use xa_value::OrMemory;

/// Reads a rule (XACML 3.0, core, section 5.21).
#[derive(Drop)]
pub(crate) struct RuleReader;

impl Reader for RuleReader {
    type Output = WrittenRule;

    ghost reads = { λ _ d. written_rule d };

    #[tactic(auto, unfolding(crate::specs::Shape::written_rule))]
    fn read(&self, alloc: Global, value: &Json) -> Result<WrittenRule, OrMemory<NotationError>> {
        check_members(value, Object::Rule)?;
        text(needed_member(value, Member::RuleId)?)?;
        let effect = effect(needed_member(value, Member::Effect)?)?;
        check_description(member_at(value, Member::Description))?;
        let target = written_target(alloc, member_at(value, Member::Target))?;
        let condition = optional_expression(alloc, member_at(value, Member::Condition))?;
        let duties = written_duties(alloc, value)?;
        Ok(WrittenRule {
            effect,
            target,
            condition,
            duties,
        })
    }
}
