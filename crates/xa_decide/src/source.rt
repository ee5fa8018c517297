//! The source of attributes.
ghost use Rattle.std.specs.Prelude.{◌≡◌, ◌↔◌, true, [], ◌∷◌, ◌++◌, filter};
ghost use Rattle.std.specs.Prelude.{slice_get, IfOk, IsTrue, if◌then◌else◌};
ghost use Rattle.std.specs.List.{filter_map};
ghost use Rattle.xa_value.specs.Order.{type_of};
ghost use Rattle.xa_bag.specs.Bag.{bag_of};
ghost use Rattle.xa_decide.specs.Context.{is_row, source_values};

use crate::attribute::is_issuer;
use crate::bag::push_value;
use crate::budget::Budget;
use crate::keys::{ByIssuedRow, ByRow, issued_row_key};
use crate::order::{item_at, order_of, places_among, units_of_search};
use crate::source_row::SourceRow;
use std::alloc::{AllocError, Global};
use std::marker::Model;
use xa_bag::Bag;
use xa_expr::{Designator, units_of};
use xa_value::Items;

/// The rows of the source, to be found.
#[derive(Debug, Drop)]
pub(crate) struct Source {
    /// The rows.
    rows: Items<SourceRow>,
    /// Their places by their categories, entities, ids and types.
    by_row: Vec<usize>,
    /// Their places by their issuers as well.
    by_issued_row: Vec<usize>,
}

impl Model for Source {
    ghost use Rattle.std.specs.Prelude.{List};
    ghost use Rattle.xa_decide.specs.declared.source_row.SourceRow.{SourceRow as Row};
    ghost use Rattle.xa_decide.specs.indexing.Index.{IsOrder};
    ghost use Rattle.xa_decide.specs.indexing.Keys.{row_key_of, issued_row_key_of};

    ghost Value = { List Row };

    ghost view = { λ s. s.rows };

    ghost invariant = { λ s.
        IsOrder row_key_of s.rows s.by_row.items × IsOrder issued_row_key_of s.rows s.by_issued_row.items };
}

impl Source {
    /// The source of these rows, put in order.
    pub(crate) fn new(alloc: Global, rows: Items<SourceRow>) -> Result<Source, AllocError>
        ensures { IfOk result (λ source. source ≡ rows) }
    {
        let by_row = order_of::<ByRow>(alloc, rows.as_slice())?;
        let by_issued_row = order_of::<ByIssuedRow>(alloc, rows.as_slice())?;
        Ok(Source {
            rows,
            by_row,
            by_issued_row,
        })
    }

    /// Whether there is no row at all.
    pub(crate) fn is_empty(&self) -> bool
        ensures { IsTrue result ↔ (self.now ≡ []) }
    {
        self.rows.is_empty()
    }

    /// The units of a search among the rows.
    pub(crate) fn units_of_search(&self) -> u64 {
        units_of_search(self.rows.len())
    }

    /// The rows.
    pub(crate) fn rows(&self) -> &[SourceRow]
        ensures { result.now ≡ self.now }
    {
        self.rows.as_slice()
    }

    /// Places among which are those of all rows of the entity's attribute that the designator names.
    #[tactic(auto, using(crate::proofs::KeyLemmas::rows_found, crate::proofs::KeyLemmas::issued_rows_found))]
    pub(crate) fn places(&self, entity: &str, designator: &Designator) -> &[usize]
        ensures { filter (is_row entity.now designator.now) (filter_map (slice_get self.now) result.now)
            ≡ filter (is_row entity.now designator.now) self.now }
    {
        let category = designator.category.as_str();
        let id = designator.attribute_id.as_str();
        let data_type = designator.data_type;
        let key = issued_row_key(category, entity, id, data_type, &designator.issuer);
        let rows = self.rows.as_slice();
        match &designator.issuer {
            None => places_among::<ByRow>(rows, self.by_row.as_slice(), &key),
            Some(_) => places_among::<ByIssuedRow>(rows, self.by_issued_row.as_slice(), &key),
        }
    }

    /// The bag of the values that the source has of the entity's attribute.
    #[tactic(auto, unfolding(crate::specs::Context::source_values))]
    pub(crate) fn bag(
        &self,
        alloc: Global,
        budget: &Budget,
        entity: &str,
        designator: &Designator,
    ) -> Result<Bag, AllocError>
        ensures { IfOk result (λ bag.
            bag ≡ bag_of designator.now.data_type (source_values self.now entity.now designator.now)) }
    {
        let places = self.places(entity, designator);
        let rows = self.rows();
        let mut bag = Bag::new(alloc, designator.data_type);
        for place in places {
            if let Some(row) = item_at(rows, *place) {
                push_row(budget, &mut bag, entity, designator, row)?;
            }
        }
        Ok(bag)
    }
}

/// Whether the row is one of the entity's attribute that the designator names, by an issuer that will do.
pub(crate) fn is_row(entity: &str, designator: &Designator, row: &SourceRow) -> bool
    ensures value { result ≡ is_row entity.now designator.now row.now }
    ensures of_type { result ≡ true → type_of row.now.value ≡ designator.now.data_type }
{
    row.category.as_str() == designator.category.as_str()
        && row.entity.as_str() == entity
        && row.attribute_id.as_str() == designator.attribute_id.as_str()
        && row.value.data_type().is_same(designator.data_type)
        && is_issuer(&designator.issuer, &row.issuer)
}

/// Puts the row's value at the end of the bag, if it is a row of the entity's attribute that the
/// designator names. It is paid for before it is copied.
fn push_row(
    budget: &Budget,
    bag: &mut Bag,
    entity: &str,
    designator: &Designator,
    row: &SourceRow,
) -> Result<(), AllocError>
    requires { bag.old.data_type ≡ designator.now.data_type }
    ensures { IfOk result (λ _. bag.new ≡ bag_of designator.now.data_type
        (bag.old.values ++ (if is_row entity.now designator.now row.now then row.now.value ∷ [] else []))) }
{
    if is_row(entity, designator, row) {
        budget.spend(units_of(&row.value))?;
        push_value(bag, &row.value)?;
    }
    Ok(())
}
