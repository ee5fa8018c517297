//! Expressions.
ghost use Rattle.std.specs.Prelude.{◌≡◌, option_map};
ghost use Rattle.serde_json.specs.View.{items_view, view};
ghost use Rattle.xa_value.specs.Gives.{Gives};
ghost use Rattle.xa_notation.specs.Json.{each, optional};
ghost use Rattle.xa_notation.specs.Shape.{apply, expression, expression_named, expression_of};
ghost use Rattle.xa_notation.specs.Shape.{expression_within, function, variable_reference};

use crate::attribute::{attribute_value, designator};
use crate::json::{
    check_members, chosen_member, items_if_any, member_at, needed_member, text_copy,
};
use crate::member::Member;
use crate::notation_error::NotationError;
use crate::plain_members::check_description;
use crate::tables::{Choice, Object};
use serde_json::Value as Json;
use std::alloc::Global;
use xa_expr::Expr;
use xa_value::{Items, OrMemory};

/// As many expressions as JSON lets stand inside one another, and more.
const MAX_DEPTH: usize = 128;

/// A function as an argument (XACML 3.0, core, section 5.28).
#[tactic(auto, unfolding(crate::specs::Shape::function))]
fn function(alloc: Global, value: &Json) -> Result<Expr, OrMemory<NotationError>>
    ensures { Gives result (function (view value.now)) }
{
    check_members(value, Object::Function)?;
    let name = text_copy(alloc, needed_member(value, Member::FunctionId)?)?;
    Ok(Expr::Function(name))
}

/// A variable (core, section 5.24).
#[tactic(auto, unfolding(crate::specs::Shape::variable_reference))]
fn variable_reference(alloc: Global, value: &Json) -> Result<Expr, OrMemory<NotationError>>
    ensures { Gives result (variable_reference (view value.now)) }
{
    check_members(value, Object::VariableReference)?;
    let name = text_copy(alloc, needed_member(value, Member::VariableId)?)?;
    Ok(Expr::Variable(name))
}

/// Expressions in which at most `depth` stand inside one another.
#[cycle(expressions)]
fn expressions(
    alloc: Global,
    values: &[Json],
    depth: usize,
) -> Result<Items<Expr>, OrMemory<NotationError>>
    ensures { Gives result (each (expression_within depth) (items_view values.now)) }
{
    let mut expressions = Items::new(alloc);
    for value in values {
        expressions.push(expression_within(alloc, value, depth)?)?;
    }
    Ok(expressions)
}

/// A function of arguments (core, section 5.27), in which at most `depth` expressions stand inside one
/// another.
#[cycle(expressions)]
#[tactic(auto, unfolding(crate::specs::Shape::apply))]
fn apply(alloc: Global, value: &Json, depth: usize) -> Result<Expr, OrMemory<NotationError>>
    ensures { Gives result (apply (expression_within depth) (view value.now)) }
{
    check_members(value, Object::Apply)?;
    let function = text_copy(alloc, needed_member(value, Member::FunctionId)?)?;
    check_description(member_at(value, Member::Description))?;
    let values = items_if_any(member_at(value, Member::Expression))?;
    let arguments = expressions(alloc, values, depth)?;
    Ok(Expr::Apply(function, arguments))
}

/// The expression that stands under the member's name.
#[cycle(expressions)]
fn expression_named(
    alloc: Global,
    name: Member,
    value: &Json,
    depth: usize,
) -> Result<Expr, OrMemory<NotationError>>
    ensures { Gives result (expression_named (expression_within depth) name (view value.now)) }
{
    match name {
        Member::AttributeValue => Ok(Expr::Value(attribute_value(alloc, value)?)),
        Member::AttributeDesignator => Ok(Expr::Designator(designator(alloc, value)?)),
        Member::Apply => apply(alloc, value, depth),
        Member::Function => function(alloc, value),
        Member::VariableReference => variable_reference(alloc, value),
        _ => Err(NotationError::UnknownMember.into()),
    }
}

/// An expression in which at most `depth` others stand inside one another.
#[cycle(expressions)]
#[tactic(auto, unfolding(crate::specs::Shape::expression_of))]
fn expression_of(alloc: Global, value: &Json, depth: usize) -> Result<Expr, OrMemory<NotationError>>
    ensures { Gives result (expression_of (expression_within depth) (view value.now)) }
{
    let name = chosen_member(value, Choice::Expression)?;
    expression_named(alloc, name, needed_member(value, name)?, depth)
}

/// An expression in which at most `depth` stand inside one another, itself included. The fault of one that
/// is too deep is NotJson: JSON that nests more than 127 deep was refused as that before.
#[cycle(expressions)]
#[tactic(auto, unfolding(crate::specs::Shape::expression_within))]
fn expression_within(
    alloc: Global,
    value: &Json,
    depth: usize,
) -> Result<Expr, OrMemory<NotationError>>
    ensures { Gives result (expression_within depth (view value.now)) }
{
    if depth == 0 {
        return Err(NotationError::NotJson.into());
    }
    expression_of(alloc, value, depth - 1)
}

/// An expression (core, section 5.25).
pub(crate) fn expression(alloc: Global, value: &Json) -> Result<Expr, OrMemory<NotationError>>
    ensures { Gives result (expression (view value.now)) }
{
    expression_within(alloc, value, MAX_DEPTH)
}

/// An expression that may be left out.
pub(crate) fn optional_expression(
    alloc: Global,
    value: Option<&Json>,
) -> Result<Option<Expr>, OrMemory<NotationError>>
    ensures { Gives result (optional expression (option_map (λ v. view v.now) value.entry)) }
{
    match value {
        Some(value) => Ok(Some(expression(alloc, value)?)),
        None => Ok(None),
    }
}
