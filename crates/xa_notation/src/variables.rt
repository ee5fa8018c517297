//! The definitions of variables.
ghost use Rattle.std.specs.Prelude.{◌≡◌, ◌++◌, false, [], ◌∷◌, OnErr, OnOk};
ghost use Rattle.std.specs.Result.{result_map_both};
ghost use Rattle.serde_json.specs.View.{items_view, view};
ghost use Rattle.xa_value.specs.Gives.{Gives};
ghost use Rattle.xa_notation.specs.Shape.{behind_one, free_name, is_taken, written_variables};

use crate::expression::expression;
use crate::json::{check_members, needed_member, text};
use crate::member::Member;
use crate::notation_error::NotationError;
use crate::tables::Object;
use crate::written::WrittenVariable;
use serde_json::Value as Json;
use std::alloc::{AllocError, Global};
use std::collections::BTreeSet;
use std::marker::Model;
use xa_value::{Items, OrMemory, Text};

/// Definitions of variables, of which no two have one name.
#[derive(Debug, Drop)]
struct Definitions {
    /// The definitions, in order.
    variables: Vec<WrittenVariable>,
    /// Their names, in an order by which one is found without a look at each.
    names: BTreeSet<Text>,
}

impl Model for Definitions {
    ghost use Rattle.std.specs.Prelude.{◌≡◌, ℕ, List};
    ghost use Rattle.std.specs.BTreeSet.{contains};
    ghost use Rattle.std.specs.Cmp.Lexicographic.{slice_cmp};
    ghost use Rattle.std.specs.Coded.{codes};
    ghost use Rattle.std.specs.Ordering.{nat_cmp};
    ghost use Rattle.xa_expr.specs.contracts.expr.Expr as expr;
    ghost use Rattle.xa_notation.specs.declared.written.WrittenVariable.{WrittenVariable as Written};
    ghost use Rattle.xa_notation.specs.Shape.{is_taken};

    ghost Value = { List Written };

    ghost coded = { Prim.hlevel (codes, expr.the_row.coded) };

    ghost view = { λ d. d.variables.items };

    ghost invariant = { λ d.
        (name : List ℕ) → contains (slice_cmp nat_cmp) d.names name ≡ is_taken d.variables.items name };
}

impl Definitions {
    /// No definitions. Nothing is allocated.
    fn new(alloc: Global) -> Definitions
        ensures { result ≡ [] }
    {
        Definitions {
            variables: Vec::new(alloc),
            names: BTreeSet::new(alloc),
        }
    }

    /// Whether a variable has the name.
    fn is_taken(&self, name: &Text) -> bool
        ensures { result ≡ is_taken self.now name.now }
    {
        self.names.contains(name)
    }

    /// The name, which no variable has yet.
    fn free_name(&self, alloc: Global, name: &str) -> Result<Text, OrMemory<NotationError>>
        ensures { Gives result (free_name self.now name.now) }
    {
        let name = Text::new(alloc, name)?;
        if self.is_taken(&name) {
            return Err(NotationError::BadValue.into());
        }
        Ok(name)
    }

    /// Puts a definition, whose name no other has, at the end. Without memory nothing changes.
    fn push(&mut self, variable: WrittenVariable) -> Result<(), AllocError>
        requires { is_taken self.old variable.name ≡ false }
        ensures ok { OnOk result (self.new ≡ self.old ++ variable ∷ []) }
        ensures err { OnErr result (self.new ≡ self.old) }
    {
        let name = variable.name.clone()?;
        self.variables.push(variable)?;
        match self.names.insert(name) {
            Ok(_) => Ok(()),
            Err(_) => {
                self.variables.pop();
                Err(AllocError)
            }
        }
    }

    /// Reads a definition and puts it at the end (XACML 3.0, core, section 5.23).
    #[tactic(auto, unfolding(crate::specs::Shape::behind_one))]
    fn read(&mut self, alloc: Global, value: &Json) -> Result<(), OrMemory<NotationError>>
        ensures { Gives (result_map_both (λ _. self.new) (λ e. e) result)
            (behind_one self.old (view value.now)) }
    {
        check_members(value, Object::VariableDefinition)?;
        let name = self.free_name(alloc, text(needed_member(value, Member::VariableId)?)?)?;
        let expression = expression(alloc, needed_member(value, Member::Expression)?)?;
        self.push(WrittenVariable { name, expression })?;
        Ok(())
    }

    /// The definitions, in order.
    fn into_items(self) -> Items<WrittenVariable>
        ensures { result ≡ self }
    {
        let Definitions {
            variables,
            names: _,
        } = self;
        Items::from_vec(variables)
    }
}

/// The definitions of variables, in order.
pub(crate) fn written_variables(
    alloc: Global,
    values: &[Json],
) -> Result<Items<WrittenVariable>, OrMemory<NotationError>>
    ensures { Gives result (written_variables [] (items_view values.now)) }
{
    let mut definitions = Definitions::new(alloc);
    for value in values {
        definitions.read(alloc, value)?;
    }
    Ok(definitions.into_items())
}
