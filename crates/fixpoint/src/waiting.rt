//! The places that wait, the deepest in loops first.

ghost use Rattle.std.specs.Prelude.{◌≡◌, ℕ, ◌+◌, ◌<◌, ◌^◌, All, false, true, length, replicate, slice_set, IfOk, IfSome, IfNone, Option};
ghost use Rattle.fixpoint.specs.Values.{waits};

use link_table::LinkTable;
use std::alloc::{AllocError, Global};
use std::marker::Model;

/// The places that wait, in a list for each depth of loop nesting. Its calls but `new` take no memory.
#[derive(Drop)]
pub struct Waiting {
    lists: LinkTable,
    /// The list of each place.
    depths: Vec<u32>,
    /// Whether each place waits.
    marks: Vec<bool>,
    /// No deeper list has a place.
    deepest: u32,
}

impl Model for Waiting {
    ghost use Rattle.std.specs.Prelude.{List, Bool};

    ghost Value = { List Bool };

    ghost use Rattle.fixpoint.specs.Queues.{IsQueue};

    ghost view = { λ waiting. waiting.marks.items };

    ghost invariant = { λ waiting. IsQueue waiting.lists waiting.depths.items waiting.marks.items waiting.deepest };
}

impl Waiting {
    /// No place waits. The lists have numbers below the given one.
    pub fn new(alloc: Global, depths: Vec<u32>, lists: u32) -> Result<Waiting, AllocError>
        requires few { length depths.items + 1 < 2 ^ 32 }
        requires low { All (λ depth. depth < lists) depths.items }
        requires some { 0 < lists }
        ensures { IfOk result (λ waiting. waiting ≡ replicate (length depths.items) false) }
    {
        let marks = vec![in alloc; false; depths.len()]?;
        Ok(Waiting {
            lists: LinkTable::new(alloc, depths.len() as u32, lists)?,
            depths,
            marks,
            deepest: 0,
        })
    }

    /// Lets a place wait.
    pub fn put(&mut self, place: u32)
        requires { place < length self.old }
        ensures { self.new ≡ slice_set self.old place true }
    {
        if self.marks[place as usize] {
            return;
        }
        let depth = self.depths[place as usize];
        self.lists.push_back(depth, place);
        self.marks[place as usize] = true;
        self.deepest = self.deepest.max(depth);
    }

    /// Takes one of the places that wait, in its time a step for each depth that has none.
    pub fn take(&mut self) -> Option<u32>
        ensures some { IfSome result (λ place. (place < length self.old) × (waits self.old place ≡ true)
            × (self.new ≡ slice_set self.old place false)) }
        ensures none { IfNone result ((self.new ≡ self.old) × ((place : ℕ) → waits self.old place ≡ false)) }
    {
        loop {
            if let Some(place) = self.lists.take_front(self.deepest) {
                self.marks[place as usize] = false;
                return Some(place);
            }
            if self.deepest == 0 {
                return None;
            }
            self.deepest -= 1;
        }
    }
}
