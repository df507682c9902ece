//! All units to which a program's code may lead, whether the functions that it calls return or not.

ghost use Rattle.std.specs.Prelude.{◌≡◌, ◌+◌, ◌<◌, ◌^◌, [], All, Contains, IfNone, IfOk, IfSome, OnOk, map};
ghost use Rattle.unit_graph.specs.Rows.{AreRows, HasRow, IsRow, MayLead, MayLeadAt, Rise};
ghost use Rattle.unit_graph.specs.Search.{AreLed, Sees};
ghost use Rattle.code_units.specs.Targets.{AreTargets};

use crate::rows::{Row, row_of};
use crate::search::{items_of, see, see_all};
use elf_mips::{Image, Mark};
use std::alloc::{AllocError, Global};
use std::collections::BTreeSet;
use wcet_io::List;

/// Sees where the unit of a row may go on, and what it calls.
fn see_far(row: &Row, seen: &mut BTreeSet<u32>, waiting: &mut Vec<u32>) -> Result<(), AllocError>
    requires { (row.now.calls ≡ [] → ⊥) → row.now.address + 8 < 2 ^ 32 }
    ensures { OnOk result (Sees (MayLead row.now) seen.old.keys waiting.old.items seen.new.keys waiting.new.items) }
{
    see_all(row.onward.as_slice(), seen, waiting)?;
    see_all(row.calls.as_slice(), seen, waiting)?;
    if row.calls.as_slice().is_empty() {
        return Ok(());
    }
    see(row.address + 8, seen, waiting)?;
    Ok(())
}

/// Sees to which addresses the unit at one may lead.
fn see_from(
    alloc: Global,
    image: &Image,
    targets: &[Mark],
    address: u32,
    seen: &mut BTreeSet<u32>,
    waiting: &mut Vec<u32>,
) -> Result<(), AllocError>
    requires { AreTargets image.now targets.now }
    ensures { OnOk result (Sees (MayLeadAt image.now address)
        seen.old.keys waiting.old.items seen.new.keys waiting.new.items) }
{
    let row = row_of(alloc, image, targets, address)?;
    see_far(&row, seen, waiting)?;
    Ok(())
}

/// The addresses to which an entry may lead.
///
/// Each of them is looked at once, with one search of the set for each to which it may lead.
fn span_of(
    alloc: Global,
    image: &Image,
    targets: &[Mark],
    entry: u32,
) -> Result<BTreeSet<u32>, AllocError>
    requires { AreTargets image.now targets.now }
    ensures { IfOk result (λ span. AreLed (MayLeadAt image.now) entry span.keys) }
{
    let mut seen = BTreeSet::new(alloc);
    let mut waiting = Vec::new(alloc);
    see(entry, &mut seen, &mut waiting)?;
    while let Some(address) = waiting.pop() {
        see_from(alloc, image, targets, address, &mut seen, &mut waiting)?;
    }
    Ok(seen)
}

/// The rows of these addresses.
fn list_rows(
    alloc: Global,
    image: &Image,
    targets: &[Mark],
    addresses: &[u32],
) -> Result<Vec<Row>, AllocError>
    requires { AreTargets image.now targets.now }
    ensures listed { IfOk result (λ rows. map (λ row. row.address) rows.items ≡ addresses.now) }
    ensures each { IfOk result (λ rows. All (IsRow image.now) rows.items) }
{
    let mut rows = Vec::new(alloc);
    for address in addresses {
        rows.push(row_of(alloc, image, targets, *address)?)?;
    }
    Ok(rows)
}

/// The rows of all addresses to which an entry may lead.
pub fn rows_of(
    alloc: Global,
    image: &Image,
    targets: &[Mark],
    entry: u32,
) -> Result<Vec<Row>, AllocError>
    requires { AreTargets image.now targets.now }
    ensures { IfOk result (λ rows. AreRows image.now entry rows.items) }
{
    let span = span_of(alloc, image, targets, entry)?;
    let addresses = items_of(alloc, &span)?;
    list_rows(alloc, image, targets, &addresses)
}

/// The row of an address, by a search among them.
pub fn row_at(rows: &[Row], address: u32) -> Option<&Row>
    requires { Rise rows.now }
    ensures listed { IfSome result (λ row. Contains rows.now row.now) }
    ensures same { IfSome result (λ row. row.now.address ≡ address) }
    ensures none { IfNone result (HasRow rows.now address → ⊥) }
{
    let place = rows.partition_point(|row| row.address < address);
    let Some(row) = rows.get(place) else {
        return None;
    };
    if row.address == address {
        Some(row)
    } else {
        None
    }
}
