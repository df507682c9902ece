//! Sets of addresses, and those of a search: the addresses that were seen, and those that still wait to be looked at.

ghost use Rattle.std.specs.Prelude.{◌≡◌, ◌↔◌, Contains, IfOk, IsTrue, OnOk, map};
ghost use Rattle.unit_graph.specs.Search.{Gains, Sees};

use elf_mips::Mark;
use std::alloc::{AllocError, Global};
use std::collections::BTreeSet;

/// Sees an address, and lets it wait if it wasn't seen before.
pub fn see(address: u32, seen: &mut BTreeSet<u32>, waiting: &mut Vec<u32>) -> Result<(), AllocError>
    ensures { OnOk result (Sees (λ x. address ≡ x) seen.old.keys waiting.old.items seen.new.keys waiting.new.items) }
{
    if seen.insert(address)? {
        waiting.push(address)?;
    }
    Ok(())
}

/// The items of a set, rising.
pub fn items_of(alloc: Global, set: &BTreeSet<u32>) -> Result<Vec<u32>, AllocError>
    ensures { IfOk result (λ items. items.items ≡ set.now.keys) }
{
    set.iter().copied().collect(alloc)
}

/// Whether an address is in a set.
pub fn has(set: &BTreeSet<u32>, address: u32) -> bool
    ensures { IsTrue result ↔ Contains set.now.keys address }
{
    set.contains(&address)
}

/// Sees these addresses, and lets those wait that weren't seen before.
pub fn see_all(
    addresses: &[u32],
    seen: &mut BTreeSet<u32>,
    waiting: &mut Vec<u32>,
) -> Result<(), AllocError>
    ensures { OnOk result (Sees (Contains addresses.now)
        seen.old.keys waiting.old.items seen.new.keys waiting.new.items) }
{
    for address in addresses {
        see(*address, seen, waiting)?;
    }
    Ok(())
}

/// Adds an address to a set.
pub fn add(address: u32, set: &mut BTreeSet<u32>) -> Result<(), AllocError>
    ensures { OnOk result (Gains (λ x. address ≡ x) set.old.keys set.new.keys) }
{
    set.insert(address)?;
    Ok(())
}

/// Adds these addresses to a set.
pub fn add_all(addresses: &[u32], set: &mut BTreeSet<u32>) -> Result<(), AllocError>
    ensures { OnOk result (Gains (Contains addresses.now) set.old.keys set.new.keys) }
{
    for address in addresses {
        add(*address, set)?;
    }
    Ok(())
}

/// Adds the targets of these records to a set.
pub fn add_targets(marks: &[Mark], set: &mut BTreeSet<u32>) -> Result<(), AllocError>
    ensures { OnOk result (Gains (Contains (map (λ mark. mark.x) marks.now)) set.old.keys set.new.keys) }
{
    for mark in marks {
        add(mark.x, set)?;
    }
    Ok(())
}
