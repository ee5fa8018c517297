//! The orders in which documents are looked for, each kept for all patterns of its shape.
ghost use Rattle.std.specs.Prelude.{◌≡◌, ◌≤◌, ◌<◌, length, IfOk, OnErr};
ghost use Rattle.xa_link.specs.placing.Orders.{HasOrder, SameOrders, order_in, room_of, slot, slot_by};

use std::alloc::{AllocError, Global};
use xa_policy::{Pattern, PatternPart};
use xa_value::Items;

/// The slot of the parts of a pattern, by their shape: where a number stands, where `*`, and whether `+` is
/// the last. Its binary digits are 10, or 11 where `+` is the last, and before that one for each part, 0 for
/// a number: of at most eight parts there are 767 slots.
#[tactic(auto, using(crate::proofs::SlotLemmas::room_small, crate::proofs::SlotLemmas::room_least))]
fn slot_of_parts(parts: &[PatternPart]) -> usize
    requires { length parts.now ≤ 8 }
    ensures value { result ≡ slot parts.now }
    ensures small { result < room_of parts.now }
{
    let [part, more_parts @ ..] = parts else {
        return 2;
    };
    match part {
        PatternPart::Number(_) => 2 * slot_of_parts(more_parts),
        PatternPart::AnyNumber => 2 * slot_of_parts(more_parts) + 1,
        PatternPart::AnyNumbers => 3,
    }
}

/// The slot of the pattern, by its shape; the first one for references without a pattern.
pub(crate) fn slot_of(pattern: &Option<Pattern>) -> usize
    ensures { result ≡ slot_by pattern.now }
{
    match pattern {
        Some(pattern) => slot_of_parts(pattern.parts()),
        None => 0,
    }
}

/// The order in the slot; an empty one, if none is there yet.
pub(crate) fn order_in(orders: &[Items<usize>], slot: usize) -> &[usize]
    ensures { result.now ≡ order_in orders.now slot }
{
    match orders.get(slot) {
        Some(order) => order.as_slice(),
        None => &[],
    }
}

/// Puts empty orders to the end, until the slot is among them.
fn make_room(alloc: Global, orders: &mut Vec<Items<usize>>, slot: usize) -> Result<(), AllocError>
    ensures same { SameOrders orders.old.items orders.new.items }
    ensures room { IfOk result (λ _. slot < length orders.new.items) }
{
    while orders.len() <= slot {
        orders.push(Items::new(alloc))?;
    }
    Ok(())
}

/// Keeps the order in the slot.
pub(crate) fn keep_order(
    alloc: Global,
    orders: &mut Vec<Items<usize>>,
    slot: usize,
    order: Items<usize>,
) -> Result<(), AllocError>
    ensures ok { IfOk result (λ _. HasOrder orders.old.items slot order orders.new.items) }
    ensures err { OnErr result (SameOrders orders.old.items orders.new.items) }
{
    make_room(alloc, orders, slot)?;
    orders[slot] = order;
    Ok(())
}
