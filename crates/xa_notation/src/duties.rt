//! Obligations and advice.
ghost use Rattle.std.specs.Prelude.{◌≡◌};
ghost use Rattle.serde_json.specs.View.{view};
ghost use Rattle.xa_value.specs.Gives.{Gives};
ghost use Rattle.xa_notation.specs.Shape.{written_assignment, written_assignments};
ghost use Rattle.xa_notation.specs.Shape.{written_duties, written_duty};

use crate::expression::expression;
use crate::json::{
    Reader, check_members, each, items_if_any, member_at, needed_member, optional_text, text_copy,
};
use crate::member::Member;
use crate::notation_error::NotationError;
use crate::plain_members::{effect, optional_category};
use crate::tables::Object;
use serde_json::Value as Json;
use std::alloc::Global;
use xa_expr::Expr;
use xa_policy::{AttributeAssignmentExpression, DutyExpression, DutyExpressions};
use xa_value::{Items, OrMemory};

/// Reads an attribute that an obligation or a piece of advice carries (XACML 3.0, core, section 5.41).
#[derive(Drop)]
struct AssignmentReader;

impl Reader for AssignmentReader {
    type Output = AttributeAssignmentExpression<Expr>;

    ghost reads = { λ _ d. written_assignment d };

    #[tactic(auto, unfolding(crate::specs::Shape::written_assignment))]
    fn read(
        &self,
        alloc: Global,
        value: &Json,
    ) -> Result<AttributeAssignmentExpression<Expr>, OrMemory<NotationError>> {
        check_members(value, Object::AttributeAssignmentExpression)?;
        let attribute_id = text_copy(alloc, needed_member(value, Member::AttributeId)?)?;
        let category = optional_category(alloc, member_at(value, Member::Category))?;
        let issuer = optional_text(alloc, member_at(value, Member::Issuer))?;
        let expression = expression(alloc, needed_member(value, Member::Expression)?)?;
        Ok(AttributeAssignmentExpression {
            attribute_id,
            category,
            issuer,
            expression,
        })
    }
}

/// Reads an obligation or a piece of advice (core, sections 5.39 and 5.40).
#[derive(Drop)]
struct DutyReader {
    /// Which of the two it is.
    object: Object,
    /// The member that holds its id.
    id: Member,
    /// The member that holds its effect.
    effect: Member,
}

impl Reader for DutyReader {
    type Output = DutyExpression<Expr>;

    ghost reads = { λ r d. written_duty r.object r.id r.effect d };

    #[tactic(auto, unfolding(crate::specs::Shape::written_duty))]
    fn read(
        &self,
        alloc: Global,
        value: &Json,
    ) -> Result<DutyExpression<Expr>, OrMemory<NotationError>> {
        check_members(value, self.object)?;
        let id = text_copy(alloc, needed_member(value, self.id)?)?;
        let effect = effect(needed_member(value, self.effect)?)?;
        let assignments = written_assignments(alloc, value)?;
        Ok(DutyExpression {
            id,
            effect,
            assignments,
        })
    }
}

/// The reader of obligations.
const OBLIGATIONS: DutyReader = DutyReader {
    object: Object::ObligationExpression,
    id: Member::ObligationId,
    effect: Member::FulfillOn,
};

/// The reader of advice.
const ADVICE: DutyReader = DutyReader {
    object: Object::AdviceExpression,
    id: Member::AdviceId,
    effect: Member::AppliesTo,
};

/// The attributes that an obligation or a piece of advice carries.
fn written_assignments(
    alloc: Global,
    value: &Json,
) -> Result<Items<AttributeAssignmentExpression<Expr>>, OrMemory<NotationError>>
    ensures { Gives result (written_assignments (view value.now)) }
{
    let values = items_if_any(member_at(value, Member::AttributeAssignmentExpression))?;
    each(alloc, &AssignmentReader, values)
}

/// The obligations and the advice of a rule, a policy or a policy set (core, sections 5.37 and 5.38).
#[tactic(auto, unfolding(crate::specs::Shape::written_duties))]
pub(crate) fn written_duties(
    alloc: Global,
    value: &Json,
) -> Result<DutyExpressions<Expr>, OrMemory<NotationError>>
    ensures { Gives result (written_duties (view value.now)) }
{
    let obligations = items_if_any(member_at(value, Member::ObligationExpressions))?;
    let obligations = each(alloc, &OBLIGATIONS, obligations)?;
    let advice = items_if_any(member_at(value, Member::AdviceExpressions))?;
    let advice = each(alloc, &ADVICE, advice)?;
    Ok(DutyExpressions {
        obligations,
        advice,
    })
}
