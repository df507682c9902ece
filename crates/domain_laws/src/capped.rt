//! Sets of few numbers, which are full as soon as they would have as many items as their limit.

ghost use Rattle.std.specs.Prelude.{◌≡◌, ◌<◌, ◌^◌, [], Some, IfOk, OnOk, OnErr};
ghost use Rattle.std.specs.Option.{option_map};
ghost use Rattle.domain_laws.specs.Consequences.{joined_widening};
ghost use Rattle.domain_laws.specs.SetLaws.{capped_lattice, capped_ranked};
ghost use Rattle.domain_laws.specs.Sets.{AreFew, Climbs, added, all_added, capped_has, capped_joined, capped_leq, capped_rank, is_in, put, within};

use crate::lattice::{Height, Lattice, Widen};
use std::alloc::{AllocError, Global};
use std::marker::Model;

/// A set of numbers that stays below a limit, or full. Full is above every set.
#[derive(Debug, Drop)]
pub struct Capped {
    /// The number that the number of items stays below.
    limit: u32,
    /// The items, rising; none where the set is full.
    items: Option<Vec<u32>>,
}

impl Model for Capped {
    ghost use Rattle.domain_laws.specs.Sets.{Limited, AreFew};
    ghost use Rattle.std.specs.Option.{option_map};

    ghost Value = { Limited };

    ghost view = { λ set. record { limit = set.limit; items = option_map (λ items. items.items) set.items } };

    ghost invariant = { λ set. AreFew set.limit (option_map (λ items. items.items) set.items) };
}

/// Whether an item is in a set. Each step halves what is left.
fn has_item(items: &[u32], item: u32) -> bool
    requires { Climbs 0 items.now }
    ensures { result ≡ is_in item items.now }
{
    items.binary_search(&item).is_ok()
}

/// Whether each item of the first set is in the second one.
fn is_within(items: &[u32], others: &[u32]) -> bool
    requires { Climbs 0 others.now }
    ensures { result ≡ within items.now others.now }
{
    for item in items {
        if !has_item(others, *item) {
            return false;
        }
    }
    true
}

/// Puts an item into a set. Refused for want of memory, it changes nothing.
fn put_item(items: &mut Vec<u32>, item: u32) -> Result<(), AllocError>
    requires { Climbs 0 items.old.items }
    ensures ok { OnOk result (items.new.items ≡ put item items.old.items) }
    ensures err { OnErr result (items.new.items ≡ items.old.items) }
{
    match items.binary_search(&item) {
        Ok(_) => {}
        Err(place) => items.insert(place, item)?,
    }
    Ok(())
}

impl Capped {
    /// The empty set. It takes no memory.
    pub fn none(alloc: Global, limit: u32) -> Capped
        requires { 0 < limit }
        ensures { result ≡ record { limit = limit; items = Some [] } }
    {
        Capped {
            limit,
            items: Some(Vec::new(alloc)),
        }
    }

    /// Adds an item. A set that would then have as many items as its limit becomes full, and full stays full.
    pub fn add(&mut self, item: u32) -> Result<(), AllocError>
        ensures set { OnOk result (self.new ≡ added item self.old) }
        ensures limit { self.new.limit ≡ self.old.limit }
        ensures few { AreFew self.new.limit self.new.items }
    {
        let Some(mut items) = self.items.take() else {
            return Ok(());
        };
        put_item(&mut items, item)?;
        if items.len() < self.limit as usize {
            self.items = Some(items);
        }
        Ok(())
    }

    /// The items, rising. There are none exactly where the set is full. It takes no memory.
    pub fn items(&self) -> Option<&[u32]>
        ensures { option_map (λ items. items.now) result ≡ self.now.items }
    {
        match &self.items {
            Some(items) => Some(items.as_slice()),
            None => None,
        }
    }
}

impl Lattice for Capped {
    ghost has = { capped_has };

    ghost leq = { capped_leq };

    ghost joined = { capped_joined };

    fn copy(&self) -> Result<Self, AllocError> {
        let items = match &self.items {
            Some(items) => Some(Vec::from_slice(*items.allocator(), items)?),
            None => None,
        };
        Ok(Capped {
            limit: self.limit,
            items,
        })
    }

    fn leq(&self, other: &Self) -> bool {
        match (&self.items, &other.items) {
            (_, None) => true,
            (None, Some(_)) => false,
            (Some(items), Some(others)) => is_within(items, others),
        }
    }

    fn join(&mut self, other: &Self) -> Result<bool, AllocError> {
        if other.leq(self) {
            return Ok(false);
        }
        match &other.items {
            Some(items) => add_all(self, items)?,
            None => self.items = None,
        }
        Ok(true)
    }

    ghost lattice = { capped_lattice };
}

/// Adds each of some items.
fn add_all(set: &mut Capped, items: &[u32]) -> Result<(), AllocError>
    ensures { OnOk result (set.new ≡ all_added items.now set.old) }
{
    for item in items {
        set.add(*item)?;
    }
    Ok(())
}

impl Height for Capped {
    ghost rank = { capped_rank };

    ghost height = { 2 ^ 32 };

    ghost ranked = { capped_ranked };
}

impl Widen for Capped {
    ghost widened = { capped_joined };

    fn widen(&mut self, newer: &Self) -> Result<bool, AllocError> {
        self.join(newer)
    }

    ghost widening = { joined_widening capped_lattice };
}
