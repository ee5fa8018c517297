//! The active documents, among which is found the one that a reference stands for.
ghost use Rattle.std.specs.Prelude.{◌≡◌, IfOk};
ghost use Rattle.xa_link.specs.placing.Order.{IsOrderIfAny};
ghost use Rattle.xa_link.specs.Resolution.{resolve};

use crate::active::Active;
use crate::order::{places_in_order, reordered, resolve_by_order};
use crate::orders::{keep_order, order_in, slot_of};
use crate::resolution::resolve;
use std::alloc::{AllocError, Global};
use std::marker::Model;
use xa_policy::{Pattern, Reference};
use xa_value::Items;

/// For at most this many children of policy sets the documents are looked at one after another, since to
/// put them in order would take longer.
const MAX_UNSORTED_CHILDREN: usize = 24;

/// Active documents, which are put in order when so many references are to be resolved that this pays.
/// Clauses see the documents.
#[derive(Debug, Drop)]
pub(crate) struct Index<'a> {
    active: &'a [Active],
    /// Their places in the order for references without a pattern; none as long as they aren't put in order.
    order: Vec<usize>,
    /// The orders for the shapes of patterns that were met, each in its slot.
    orders: Vec<Items<usize>>,
    /// How many children of policy sets have been met: each may be a reference.
    children: usize,
}

impl<'a> Model for Index<'a> {
    ghost use Rattle.std.specs.Prelude.{List, None};
    ghost use Rattle.xa_link.specs.declared.active.Active.{Active as Document};
    ghost use Rattle.xa_link.specs.placing.Orders.{AreOrders};
    ghost use Rattle.xa_link.specs.placing.Order.{IsOrderIfAny};

    ghost Value = { List Document };

    ghost view = { λ i. i.active.now };

    ghost invariant = { λ i.
        IsOrderIfAny None i.active.now i.order.items × AreOrders i.active.now i.orders.items };
}

impl<'a> Index<'a> {
    /// The documents, in no order yet. Nothing is allocated.
    pub(crate) fn new(alloc: Global, active: &'a [Active]) -> Index<'a>
        ensures { result ≡ active.now }
    {
        Index {
            active,
            order: Vec::new(alloc),
            orders: Vec::new(alloc),
            children: 0,
        }
    }

    /// The documents.
    pub(crate) fn active(&self) -> &'a [Active]
        ensures { result.now ≡ self.now }
    {
        self.active
    }

    /// Makes ready for so many children more. The documents are put in order, once more than
    /// [`MAX_UNSORTED_CHILDREN`] have been met.
    pub(crate) fn expect(&mut self, alloc: Global, children: usize) -> Result<(), AllocError>
        ensures kept { self.new ≡ self.old }
    {
        self.children = self.children.saturating_add(children);
        if self.children > MAX_UNSORTED_CHILDREN && self.order.is_empty() {
            self.order = places_in_order(alloc, self.active)?;
        }
        Ok(())
    }

    /// Puts the documents in the order for patterns of this one's shape too, if they are in order and weren't
    /// put in that one before.
    fn expect_pattern(&mut self, alloc: Global, pattern: &Option<Pattern>) -> Result<(), AllocError>
        ensures kept { self.new ≡ self.old }
    {
        let slot = slot_of(pattern);
        if !self.order.is_empty() && order_in(self.orders.as_slice(), slot).is_empty() {
            let order = reordered(self.active, pattern, self.order.clone()?)?;
            keep_order(alloc, &mut self.orders, slot, Items::from_vec(order))?;
        }
        Ok(())
    }

    /// The place of the document for which the reference stands.
    pub(crate) fn resolve(
        &mut self,
        alloc: Global,
        reference: &Reference,
    ) -> Result<Option<usize>, AllocError>
        ensures value { IfOk result (λ place. place ≡ resolve self.old reference.now) }
        ensures kept { self.new ≡ self.old }
    {
        self.expect_pattern(alloc, &reference.version)?;
        let order = order_in(self.orders.as_slice(), slot_of(&reference.version));
        Ok(resolve_among(self.active, order, reference))
    }
}

/// The place of the document for which the reference stands, by the order for its pattern, if there is one.
fn resolve_among(active: &[Active], order: &[usize], reference: &Reference) -> Option<usize>
    requires { IsOrderIfAny reference.now.version active.now order.now }
    ensures { result ≡ resolve active.now reference.now }
{
    if order.is_empty() {
        return resolve(active, reference);
    }
    resolve_by_order(active, order, reference)
}
