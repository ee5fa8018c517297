//! Obligations and advice: as policies state them, and as a decision carries them.
ghost use Rattle.std.specs.Prelude.{◌≡◌, [], ◌++◌, OnOk};
ghost use Rattle.xa_policy.specs.Duties.{and_then, no_duties};

use crate::decision::Effect;
use std::alloc::{AllocError, Global};
use std::marker::Model;
use xa_expr::STEP;
use xa_value::{Items, Text, Value};

/// An attribute that an obligation or a piece of advice carries, as a policy states it (XACML 3.0, core,
/// section 5.41). Its expression, an `E`, is an `Expr` as read and a `Typed` once it is checked.
#[derive(Debug, Drop)]
pub struct AttributeAssignmentExpression<E> {
    /// The attribute's id.
    pub attribute_id: Text,
    /// Its category, if one is named.
    pub category: Option<Text>,
    /// Its issuer, if one is named.
    pub issuer: Option<Text>,
    /// What gives its value, or by a bag its values.
    pub expression: E,
}

/// An obligation or a piece of advice, as a policy states it (core, sections 5.39 and 5.40).
#[derive(Debug, Drop)]
pub struct DutyExpression<E> {
    /// Its id.
    pub id: Text,
    /// The decision that it belongs to: FulfillOn of an obligation, AppliesTo of advice.
    pub effect: Effect,
    /// The attributes that it carries, in order.
    pub assignments: Items<AttributeAssignmentExpression<E>>,
}

/// The obligations and the advice of a rule, a policy or a policy set (core, sections 5.37 and 5.38).
#[derive(Debug, Drop)]
pub struct DutyExpressions<E> {
    /// The obligations, in order.
    pub obligations: Items<DutyExpression<E>>,
    /// The advice, in order.
    pub advice: Items<DutyExpression<E>>,
}

impl<E> DutyExpressions<E> {
    /// No obligations and no advice. Nothing is allocated.
    pub fn none(alloc: Global) -> DutyExpressions<E>
        ensures { result ≡ record { obligations = []; advice = [] } }
    {
        DutyExpressions {
            obligations: Items::new(alloc),
            advice: Items::new(alloc),
        }
    }
}

/// An attribute that an obligation or a piece of advice carries (core, section 5.36).
#[derive(Debug, Drop)]
pub struct AttributeAssignment {
    /// The attribute's id.
    pub attribute_id: Text,
    /// Its category, if one is named.
    pub category: Option<Text>,
    /// Its issuer, if one is named.
    pub issuer: Option<Text>,
    /// Its value.
    pub value: Value,
}

/// An obligation or a piece of advice that comes with a decision (core, sections 5.34 and 5.35).
#[derive(Debug, Drop)]
pub struct Duty {
    /// Its id.
    pub id: Text,
    /// The attributes that it carries, in order.
    pub assignments: Items<AttributeAssignment>,
}

/// The obligations and the advice that come with a decision (core, sections 5.32 and 5.33).
#[derive(Debug, Drop)]
pub struct Duties {
    /// The obligations, in order.
    obligations: Vec<Duty>,
    /// The advice, in order.
    advice: Vec<Duty>,
}

impl Model for Duties {
    ghost use Rattle.std.specs.Coded.{codes};
    ghost use Rattle.xa_policy.specs.Duties.{DutyLists};

    ghost Value = { DutyLists };

    ghost view = { λ d. record { obligations = d.obligations.items; advice = d.advice.items } };
}

impl Duties {
    /// No obligations and no advice. Nothing is allocated.
    pub(crate) fn new(alloc: Global) -> Duties
        ensures { result ≡ no_duties }
    {
        Duties {
            obligations: Vec::new(alloc),
            advice: Vec::new(alloc),
        }
    }

    /// These obligations and this advice.
    pub(crate) fn of(obligations: Vec<Duty>, advice: Vec<Duty>) -> Duties
        ensures { result ≡ record { obligations = obligations.items; advice = advice.items } }
    {
        Duties {
            obligations,
            advice,
        }
    }

    /// The obligations, in order.
    pub fn obligations(&self) -> &[Duty]
        ensures { result.now ≡ self.now.obligations }
    {
        self.obligations.as_slice()
    }

    /// The advice, in order.
    pub fn advice(&self) -> &[Duty]
        ensures { result.now ≡ self.now.advice }
    {
        self.advice.as_slice()
    }

    /// The units of moving them up to what holds their rule, policy or set: a step for each.
    pub(crate) fn units_of_moving(&self) -> u64 {
        let count = (self.obligations.len() as u64).saturating_add(self.advice.len() as u64);
        STEP.saturating_mul(count)
    }

    /// Puts the obligations and the advice of another after these.
    pub(crate) fn append(&mut self, other: Duties) -> Result<(), AllocError>
        ensures { OnOk result (self.new ≡ and_then self.old other) }
    {
        let Duties {
            obligations,
            advice,
        } = other;
        put_behind(&mut self.obligations, obligations)?;
        put_behind(&mut self.advice, advice)
    }
}

/// Puts the others after those that there are. If there are none yet, the others are taken as they are:
/// what is carried up through nested sets isn't moved once more at each of them.
fn put_behind(duties: &mut Vec<Duty>, mut others: Vec<Duty>) -> Result<(), AllocError>
    ensures { OnOk result (duties.new.items ≡ duties.old.items ++ others.items) }
{
    if duties.is_empty() {
        *duties = others;
        return Ok(());
    }
    duties.append(&mut others)
}
