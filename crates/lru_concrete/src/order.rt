//! The slots of each set in a row: how a cache begins.

ghost use Rattle.std.specs.Prelude.{◌≡◌, ℕ, ◌+◌, ◌<◌, ◌≤◌, ◌^◌, ◌∷◌, [], Contains, length, IfOk};
ghost use Rattle.std.specs.List.{range_with_len};
ghost use Rattle.link_table.specs.Items.{without};
ghost use Rattle.link_table.specs.Lists.{IsFree, Stands, items_of, with_list};
ghost use Rattle.lru_concrete.specs.Slots.{IsInOrder};

use crate::level::Shape;
use link_table::LinkTable;
use std::alloc::{AllocError, Global};

/// Puts the slots of a set, from the first one on, into its list.
fn fill_set(order: &mut LinkTable, set: u32, first: u32, ways: u32)
    requires list { set < length order.old.lists }
    requires items { first + ways ≤ order.old.items }
    requires limit { first + ways < 2 ^ 32 }
    requires empty { items_of order.old set ≡ [] }
    requires free { (slot : ℕ) → first ≤ slot → IsFree order.old slot }
    ensures { order.new ≡ with_list order.old set (range_with_len first ways) }
{
    for way in 0..ways {
        order.push_back(set, first + way);
    }
}

/// For each set the list of its slots.
pub(crate) fn slots_in_order(alloc: Global, shape: Shape) -> Result<LinkTable, AllocError>
    ensures { IfOk result (IsInOrder shape.sets shape.ways) }
{
    let mut order = LinkTable::new(alloc, shape.slots(), shape.sets)?;
    for set in 0..shape.sets {
        fill_set(&mut order, set, shape.first_slot(set), shape.ways);
    }
    Ok(order)
}

/// Makes a slot the most recent one of its set.
pub(crate) fn renew(order: &mut LinkTable, slot: u32)
    requires slot { slot < order.old.items }
    requires stands { Stands order.old slot }
    ensures { (set : ℕ) → Contains (items_of order.old set) slot →
        order.new ≡ with_list order.old set (slot ∷ without (items_of order.old set) slot) }
{
    order.move_front(slot);
}
