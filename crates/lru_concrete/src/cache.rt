//! A cache and its touch.

ghost use Rattle.std.specs.Prelude.{◌≡◌, [], replicate, IfOk};
ghost use Rattle.lru_concrete.specs.Contents.{IsLawful, holds, touching};

use crate::level::Shape;
use crate::order::{renew, slots_in_order};
use crate::slots::{find, slots_holding};
use link_table::LinkTable;
use std::alloc::{AllocError, Global};
use std::marker::Model;
use wcet_io::List;

/// A cache whose sets drop the block that wasn't touched for longest.
///
/// Each way of a set is a slot. The slots of a set stand in a list, by recency; those without a block stand last.
#[derive(Debug, Drop)]
pub struct Cache {
    shape: Shape,
    /// The slots of each set, the most recent one first.
    order: LinkTable,
    /// The block in each slot.
    slots: Vec<Option<u32>>,
}

impl Model for Cache {
    ghost use Rattle.lru_concrete.specs.Contents.{Content};

    ghost Value = { Content };

    ghost use Rattle.lru_concrete.specs.Slots.{KeepsSets, content_of};

    ghost view = { λ c. content_of c.shape c.order c.slots.items };

    ghost invariant = { λ c. KeepsSets c.shape c.order c.slots.items };
}

impl Cache {
    /// A cache without blocks.
    pub fn empty(alloc: Global, shape: Shape) -> Result<Cache, AllocError>
        ensures { IfOk result (λ cache. cache ≡ record { shape = shape; blocks = replicate shape.sets [] }) }
    {
        Ok(Cache {
            shape,
            order: slots_in_order(alloc, shape)?,
            slots: vec![in alloc; None; shape.slots() as usize]?,
        })
    }

    /// A cache that holds these blocks, a list a set, the most recent one first.
    pub fn holding(alloc: Global, shape: Shape, sets: &[List<u32>]) -> Result<Cache, AllocError>
        requires { IsLawful shape sets.now }
        ensures { IfOk result (λ cache. cache ≡ record { shape = shape; blocks = sets.now }) }
    {
        Ok(Cache {
            shape,
            order: slots_in_order(alloc, shape)?,
            slots: slots_holding(alloc, shape.ways, sets)?,
        })
    }

    /// Puts a block at the front of its set, where the last block goes if the set is full and doesn't hold it, and tells
    /// whether the set held it.
    ///
    /// It looks at each way of the set at most once and moves one slot.
    pub fn touch(&mut self, block: u32) -> bool
        ensures held { result ≡ holds self.old.shape self.old.blocks block }
        ensures blocks { self.new
            ≡ record self.old { blocks = touching self.old.shape self.old.blocks block } }
        ensures lawful { IsLawful self.new.shape self.new.blocks }
    {
        let set = block % self.shape.sets;
        let first = self.shape.first_slot(set);
        if let Some(slot) = find(&self.slots, first, first + self.shape.ways, block) {
            renew(&mut self.order, slot);
            return true;
        }
        let Some(last) = self.order.last(set) else {
            return false;
        };
        self.slots[last as usize] = Some(block);
        renew(&mut self.order, last);
        false
    }
}
