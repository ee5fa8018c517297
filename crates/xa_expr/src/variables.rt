//! The variables of a policy, by their definitions.
ghost use Rattle.std.specs.Prelude.{◌≡◌, false, [], ◌∷◌, ◌++◌, IfOk, IsTrue, OnOk, OnErr};
ghost use Rattle.xa_value.specs.Gives.{Gives};
ghost use Rattle.xa_expr.specs.Defining.{defined, may_be_defined};
ghost use Rattle.xa_expr.specs.Typed.{IsTyped};
ghost use Rattle.xa_expr.specs.Typing.{variable_named};
ghost use Rattle.xa_expr.specs.Variables.{AreTyped, kinds, is_defined};

use crate::check_error::CheckError;
use crate::checking::check;
use crate::expr::Expr;
use crate::typed::Typed;
use std::alloc::{AllocError, Global};
use std::collections::BTreeMap;
use std::marker::Model;
use xa_func::HasKind;
use xa_value::{OrMemory, Text};

/// A variable's definition (core, section 5.23): its name, and the expression for which it stands.
#[derive(Debug, Drop)]
pub struct Definition {
    /// The VariableId, by which expressions refer to it.
    pub name: Text,
    /// The expression, whose variables are defined before.
    pub expression: Typed,
}

/// The variables of a policy (core, section 5.23): definitions in order, each of which may name those
/// before it.
#[derive(Debug, Drop)]
pub struct Variables {
    /// The definitions, in order.
    definitions: Vec<Definition>,
    /// The place of each among them, by its name.
    places: BTreeMap<Text, usize>,
}

impl Model for Variables {
    ghost use Rattle.std.specs.Prelude.{◌≡◌, ℕ, List};
    ghost use Rattle.std.specs.BTreeMap.{get};
    ghost use Rattle.std.specs.Cmp.Lexicographic.{slice_cmp};
    ghost use Rattle.std.specs.Coded.{codes};
    ghost use Rattle.std.specs.Ordering.{nat_cmp};
    ghost use Rattle.xa_expr.specs.declared.variables.Definition.{Definition as Defined};
    ghost use Rattle.xa_expr.specs.contracts.typed.Typed as typed;
    ghost use Rattle.xa_expr.specs.Variables.{AreTyped, place_named};

    ghost Value = { List Defined };

    ghost coded = { Prim.hlevel (codes, typed.the_row.coded) };

    ghost view = { λ v. v.definitions.items };

    ghost invariant = { λ v. AreTyped v.definitions.items
        × ((name : List ℕ) → get (slice_cmp nat_cmp) v.places name ≡ place_named v.definitions.items name) };
}

impl Variables {
    /// No variables. Nothing is allocated.
    pub fn new(alloc: Global) -> Variables
        ensures { result ≡ [] }
    {
        Variables {
            definitions: Vec::new(alloc),
            places: BTreeMap::new(alloc),
        }
    }

    /// The definitions, in order.
    pub fn definitions(&self) -> &[Definition]
        ensures value { result.now ≡ self.now }
        ensures typed { AreTyped result.now }
    {
        self.definitions.as_slice()
    }

    /// The variable of the name, with its kind.
    pub(crate) fn reference(&self, name: &Text) -> Result<Typed, CheckError>
        ensures value { result ≡ variable_named self.now name.now }
        ensures typed { IfOk result (IsTyped (kinds self.now)) }
    {
        let Some(place) = self.places.get(name) else {
            return Err(CheckError::UnknownVariable);
        };
        let kind = self.definitions[*place].expression.kind();
        Ok(Typed::Variable(*place, kind))
    }

    /// Checks the expression under the variables so far, and puts its definition after them. If a variable
    /// of the name is there already, the answer is false, whatever the expression. If the expression has a
    /// fault, the error is that of `check`. In both cases nothing changes.
    pub fn define(
        &mut self,
        alloc: Global,
        name: Text,
        expression: &Expr,
    ) -> Result<bool, OrMemory<CheckError>>
        ensures value { Gives result (may_be_defined self.old name expression.now) }
        ensures exact { IsTrue (is_defined self.old name) → result ≡ Ok false }
        ensures ok { OnOk result (self.new ≡ defined self.old name expression.now) }
        ensures err { OnErr result (self.new ≡ self.old) }
    {
        if self.places.contains_key(&name) {
            return Ok(false);
        }
        let expression = check(alloc, expression, self)?;
        self.put(name, expression)?;
        Ok(true)
    }

    /// Puts a definition, whose name no other has, at the end. Without memory nothing changes.
    fn put(&mut self, name: Text, expression: Typed) -> Result<(), AllocError>
        requires other { is_defined self.old name ≡ false }
        requires typed { IsTyped (kinds self.old) expression }
        ensures ok { OnOk result
            (self.new ≡ self.old ++ record { name = name; expression = expression } ∷ []) }
        ensures err { OnErr result (self.new ≡ self.old) }
    {
        let place = self.definitions.len();
        let copy = name.clone()?;
        self.definitions.push(Definition { name, expression })?;
        match self.places.insert(copy, place) {
            Ok(_) => Ok(()),
            Err(_) => {
                self.definitions.pop();
                Err(AllocError)
            }
        }
    }
}
