//! The table of links, and its calls.
ghost use Rattle.std.specs.Prelude.{◌≡◌, ◌<◌, ◌+◌, ◌++◌, ◌∷◌, ◌^◌, ℕ, ◌-◌, [], Contains, Option, drop, length, replicate, slice_get, IfOk, IfSome, IfNone};
ghost use Rattle.link_table.specs.Items.{without};
ghost use Rattle.link_table.specs.Lists.{IsFree, Stands, items_of, with_list};

use crate::rings::Rings;
use std::alloc::{AllocError, Global};
use std::marker::Model;

/// Lists of items by number, each item in at most one of them.
///
/// Every call but `new` takes constant time and no memory.
#[derive(Debug, Drop)]
pub struct LinkTable {
    /// The number of items. The end of the list `l` is the node `items + l`.
    items: u32,
    rings: Rings,
    /// The list in which each item stands.
    owners: Vec<Option<u32>>,
}

impl Model for LinkTable {
    ghost use Rattle.link_table.specs.Lists.{Lists};

    ghost Value = { Lists };

    ghost use Rattle.link_table.specs.Tables.{IsLinked, view_of};

    ghost view = { view_of };

    ghost invariant = { IsLinked };
}

impl LinkTable {
    /// Empty lists, numbered from 0, for items that are numbered from 0.
    pub fn new(alloc: Global, items: u32, lists: u32) -> Result<LinkTable, AllocError>
        requires { items + 1 < 2 ^ 32 }
        ensures { IfOk result (λ table. table ≡ record { items = items; lists = replicate lists [] }) }
    {
        Ok(LinkTable {
            items,
            rings: Rings::alone(alloc, items as usize + lists as usize)?,
            owners: vec![in alloc; None; items as usize]?,
        })
    }

    /// Puts an item that stands in no list behind all others of a list.
    pub fn push_back(&mut self, list: u32, item: u32)
        requires list { list < length self.old.lists }
        requires item { item < self.old.items }
        requires free { IsFree self.old item }
        ensures { self.new ≡ with_list self.old list (items_of self.old list ++ item ∷ []) }
    {
        let end = self.items as usize + list as usize;
        let last = self.rings.previous(end);
        self.rings.insert(item as usize, last);
        self.owners[item as usize] = Some(list);
    }

    /// Puts an item that stands in no list before all others of a list.
    pub fn push_front(&mut self, list: u32, item: u32)
        requires list { list < length self.old.lists }
        requires item { item < self.old.items }
        requires free { IsFree self.old item }
        ensures { self.new ≡ with_list self.old list (item ∷ items_of self.old list) }
    {
        let end = self.items as usize + list as usize;
        self.rings.insert(item as usize, end);
        self.owners[item as usize] = Some(list);
    }

    /// The first item of a list.
    fn first(&self, list: u32) -> Option<u32>
        requires { list < length self.now.lists }
        ensures first { result ≡ slice_get (items_of self.now list) 0 }
        ensures within { IfSome result (λ item. item < self.now.items) }
    {
        let first = self.rings.next(self.items as usize + list as usize);
        if first < self.items as usize {
            Some(first as u32)
        } else {
            None
        }
    }

    /// Takes the first item out of a list; none is left where the list is empty.
    pub fn take_front(&mut self, list: u32) -> Option<u32>
        requires { list < length self.old.lists }
        ensures first { result ≡ slice_get (items_of self.old list) 0 }
        ensures rest { self.new ≡ with_list self.old list (drop 1 (items_of self.old list)) }
        ensures free { IfSome result (λ item. IsFree self.new item) }
    {
        let first = self.first(list)?;
        self.unlink(first);
        Some(first)
    }

    /// Takes an item out of its list.
    pub fn unlink(&mut self, item: u32)
        requires item { item < self.old.items }
        requires stands { Stands self.old item }
        ensures rest { (list : ℕ) → Contains (items_of self.old list) item →
            self.new ≡ with_list self.old list (without (items_of self.old list) item) }
        ensures free { IsFree self.new item }
    {
        self.rings.remove(item as usize);
        self.owners[item as usize] = None;
    }

    /// Puts an item before all others of its list.
    pub fn move_front(&mut self, item: u32)
        requires item { item < self.old.items }
        requires stands { Stands self.old item }
        ensures { (list : ℕ) → Contains (items_of self.old list) item →
            self.new ≡ with_list self.old list (item ∷ without (items_of self.old list) item) }
    {
        let Some(list) = self.list_of(item) else {
            return;
        };
        if self.first(list) == Some(item) {
            return;
        }
        self.unlink(item);
        self.push_front(list, item);
    }

    /// The last item of a list.
    pub fn last(&self, list: u32) -> Option<u32>
        requires { list < length self.now.lists }
        ensures { result ≡ slice_get (items_of self.now list) (length (items_of self.now list) - 1) }
    {
        let last = self.rings.previous(self.items as usize + list as usize);
        if last < self.items as usize {
            Some(last as u32)
        } else {
            None
        }
    }

    /// The list in which an item stands.
    pub fn list_of(&self, item: u32) -> Option<u32>
        requires { item < self.now.items }
        ensures stands { IfSome result (λ list. Contains (items_of self.now list) item) }
        ensures only { IfSome result (λ list. (other : ℕ) → Contains (items_of self.now other) item → other ≡ list) }
        ensures free { IfNone result (IsFree self.now item) }
    {
        self.owners[item as usize]
    }
}
