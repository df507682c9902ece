//! What a function or a whole program reaches, once it is known which functions can return.

ghost use Rattle.std.specs.Prelude.{◌≡◌, ◌↔◌, ◌+◌, ◌<◌, ◌^◌, [], ℕ, All, Contains, IfOk, IsTrue, OnOk, length};
ghost use Rattle.elf_mips.specs.declared.image.Image.{Image};
ghost use Rattle.unit_graph.specs.Rows.{IsRow, Rise, ShareImage};
ghost use Rattle.unit_graph.specs.Search.{AreLed, Gains, Sees};

use crate::rows::Row;
use crate::search::{add, add_all, has, see, see_all};
use crate::span::row_at;
use std::alloc::{AllocError, Global};
use std::collections::BTreeSet;

/// Whether the units of one function are looked for, or those of all functions that it calls too.
#[derive(Clone, Copy, Debug, PartialEq, Eq)]
pub enum Reach {
    /// The units of one function.
    Function,
    /// Those of all functions that it calls too.
    Program,
}

ghost use Rattle.unit_graph.specs.Flow.{ComesBack, Follows, Leads, LeadsFrom, SomeReturns};

/// Whether one of these functions can return.
fn some_returns(calls: &[u32], returning: &BTreeSet<u32>) -> bool
    ensures { IsTrue result ↔ SomeReturns returning.now.keys calls.now }
{
    for callee in calls {
        if has(returning, *callee) {
            return true;
        }
    }
    false
}

/// Sees the address behind the slot of a unit, where some function that it calls can return.
fn see_behind(
    row: &Row,
    returning: &BTreeSet<u32>,
    seen: &mut BTreeSet<u32>,
    waiting: &mut Vec<u32>,
) -> Result<(), AllocError>
    requires { 0 < length row.now.calls → row.now.address + 8 < 2 ^ 32 }
    ensures { OnOk result (Sees (ComesBack returning.now.keys row.now)
        seen.old.keys waiting.old.items seen.new.keys waiting.new.items) }
{
    if !some_returns(row.calls.as_slice(), returning) {
        return Ok(());
    }
    see(row.address + 8, seen, waiting)?;
    Ok(())
}

/// Sees the onward units of a unit.
fn see_onward(
    row: &Row,
    returning: &BTreeSet<u32>,
    seen: &mut BTreeSet<u32>,
    waiting: &mut Vec<u32>,
) -> Result<(), AllocError>
    requires { 0 < length row.now.calls → row.now.address + 8 < 2 ^ 32 }
    ensures { OnOk result (Sees (Follows returning.now.keys row.now)
        seen.old.keys waiting.old.items seen.new.keys waiting.new.items) }
{
    see_all(row.onward.as_slice(), seen, waiting)?;
    see_behind(row, returning, seen, waiting)?;
    Ok(())
}

/// Adds the address behind the slot of a unit to a set, where some function that it calls can return.
fn add_behind(
    row: &Row,
    returning: &BTreeSet<u32>,
    found: &mut BTreeSet<u32>,
) -> Result<(), AllocError>
    requires { 0 < length row.now.calls → row.now.address + 8 < 2 ^ 32 }
    ensures { OnOk result (Gains (ComesBack returning.now.keys row.now) found.old.keys found.new.keys) }
{
    if !some_returns(row.calls.as_slice(), returning) {
        return Ok(());
    }
    add(row.address + 8, found)?;
    Ok(())
}

/// Adds the onward units of a unit to a set.
pub fn add_onward(
    row: &Row,
    returning: &BTreeSet<u32>,
    found: &mut BTreeSet<u32>,
) -> Result<(), AllocError>
    requires { 0 < length row.now.calls → row.now.address + 8 < 2 ^ 32 }
    ensures { OnOk result (Gains (Follows returning.now.keys row.now) found.old.keys found.new.keys) }
{
    add_all(row.onward.as_slice(), found)?;
    add_behind(row, returning, found)?;
    Ok(())
}

/// Sees the onward units of a unit, and what it calls where the whole program is looked for.
fn see_row(
    row: &Row,
    reach: Reach,
    returning: &BTreeSet<u32>,
    seen: &mut BTreeSet<u32>,
    waiting: &mut Vec<u32>,
) -> Result<(), AllocError>
    requires { 0 < length row.now.calls → row.now.address + 8 < 2 ^ 32 }
    ensures { OnOk result (Sees (LeadsFrom returning.now.keys reach row.now)
        seen.old.keys waiting.old.items seen.new.keys waiting.new.items) }
{
    see_onward(row, returning, seen, waiting)?;
    if reach == Reach::Function {
        return Ok(());
    }
    see_all(row.calls.as_slice(), seen, waiting)?;
    Ok(())
}

/// The same for the unit at an address; none follows where there is no row.
fn see_at(
    rows: &[Row],
    reach: Reach,
    returning: &BTreeSet<u32>,
    address: u32,
    seen: &mut BTreeSet<u32>,
    waiting: &mut Vec<u32>,
) -> Result<(), AllocError>
    requires rising { Rise rows.now }
    requires each { ShareImage rows.now }
    ensures { OnOk result (Sees (Leads rows.now returning.now.keys reach address)
        seen.old.keys waiting.old.items seen.new.keys waiting.new.items) }
{
    let Some(row) = row_at(rows, address) else {
        return Ok(());
    };
    see_row(row, reach, returning, seen, waiting)?;
    Ok(())
}

/// The addresses to which the unit at `start` leads.
///
/// Each is looked at once, with one search of the set for each to which it leads.
pub fn led_from(
    alloc: Global,
    rows: &[Row],
    reach: Reach,
    returning: &BTreeSet<u32>,
    start: u32,
) -> Result<BTreeSet<u32>, AllocError>
    requires rising { Rise rows.now }
    requires each { ShareImage rows.now }
    ensures { IfOk result (λ led. AreLed (Leads rows.now returning.now.keys reach) start led.keys) }
{
    let mut seen = BTreeSet::new(alloc);
    let mut waiting = Vec::new(alloc);
    see(start, &mut seen, &mut waiting)?;
    while let Some(address) = waiting.pop() {
        see_at(rows, reach, returning, address, &mut seen, &mut waiting)?;
    }
    Ok(seen)
}
