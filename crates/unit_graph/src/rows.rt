//! The units of a program by their addresses, with where they go on by themselves and what they call.

ghost use Rattle.std.specs.Prelude.{◌≡◌, IfOk};
ghost use Rattle.net_model.specs.Flow.{called, ways_on};
ghost use Rattle.net_model.specs.Targets.{targets_at, unit_at};
ghost use Rattle.net_model.specs.declared.unit.Content.{Content};
ghost use Rattle.code_units.specs.Sets.{IsSetOf};
ghost use Rattle.code_units.specs.Targets.{AreTargets};
ghost use Rattle.code_units.specs.Ways.{IsPlaced, listed};

use crate::search::{add_targets, items_of};
use code_units::{
    Ways, is_indirect, is_register_call, own_callee, own_ways, stops, targets_at, unit_at,
};
use elf_mips::{Image, Mark};
use net_model::{CodeUnit, Content};
use std::alloc::{AllocError, Global};
use std::collections::BTreeSet;
use wcet_io::List;

/// An address of a program, and what stands there.
#[derive(Debug, Drop)]
pub struct Row {
    pub address: u32,
    pub content: Content,
    /// Where the unit goes on without waiting for a call, rising. A fault goes nowhere.
    pub onward: List<u32>,
    /// The entries of the functions that it calls, rising.
    pub calls: List<u32>,
}

ghost use Rattle.unit_graph.specs.Rows.{IsRow};

/// The addresses of a set, as a list.
fn list_of(alloc: Global, ways: Ways) -> Result<List<u32>, AllocError>
    ensures { IfOk result (λ list. list ≡ listed ways) }
{
    let mut list = List::new(alloc);
    match ways {
        Ways::Nowhere => {}
        Ways::One(address) => list.push(address)?,
        Ways::Two(lesser, greater) => {
            list.push(lesser)?;
            list.push(greater)?;
        }
    }
    Ok(list)
}

/// The targets that are recorded for an address, as a set.
fn recorded(
    alloc: Global,
    image: &Image,
    targets: &[Mark],
    address: u32,
) -> Result<List<u32>, AllocError>
    requires { AreTargets image.now targets.now }
    ensures { IfOk result (IsSetOf (targets_at image.now address)) }
{
    let mut found = BTreeSet::new(alloc);
    add_targets(targets_at(targets, address), &mut found)?;
    let items = items_of(alloc, &found)?;
    Ok(List::from_vec(items))
}

/// Where the unit at an address goes on without waiting for a call, as a set.
fn onward_list(
    alloc: Global,
    image: &Image,
    targets: &[Mark],
    unit: &CodeUnit,
    address: u32,
) -> Result<List<u32>, AllocError>
    requires targets { AreTargets image.now targets.now }
    requires placed { IsPlaced unit.now address }
    ensures { IfOk result (IsSetOf (ways_on image.now unit.now address)) }
{
    if stops(unit) {
        return Ok(List::new(alloc));
    }
    if is_indirect(&unit.instr) {
        return recorded(alloc, image, targets, address);
    }
    list_of(alloc, own_ways(&unit.instr, address))
}

/// What the unit at an address calls, as a set.
fn calls_list(
    alloc: Global,
    image: &Image,
    targets: &[Mark],
    unit: &CodeUnit,
    address: u32,
) -> Result<List<u32>, AllocError>
    requires targets { AreTargets image.now targets.now }
    requires placed { IsPlaced unit.now address }
    ensures { IfOk result (IsSetOf (called image.now unit.now address)) }
{
    if stops(unit) {
        return Ok(List::new(alloc));
    }
    if is_register_call(&unit.instr) {
        return recorded(alloc, image, targets, address);
    }
    list_of(alloc, own_callee(&unit.instr, address))
}

/// The row of the unit at an address.
fn unit_row(
    alloc: Global,
    image: &Image,
    targets: &[Mark],
    address: u32,
    unit: CodeUnit,
) -> Result<Row, AllocError>
    requires targets { AreTargets image.now targets.now }
    requires placed { IsPlaced unit address }
    requires stands { unit_at image.now address ≡ Content.Unit unit }
    ensures address { IfOk result (λ row. row.address ≡ address) }
    ensures row { IfOk result (IsRow image.now) }
{
    let onward = onward_list(alloc, image, targets, &unit, address)?;
    let calls = calls_list(alloc, image, targets, &unit, address)?;
    Ok(Row {
        address,
        content: Content::Unit(unit),
        onward,
        calls,
    })
}

/// The row of an address.
pub fn row_of(
    alloc: Global,
    image: &Image,
    targets: &[Mark],
    address: u32,
) -> Result<Row, AllocError>
    requires { AreTargets image.now targets.now }
    ensures address { IfOk result (λ row. row.address ≡ address) }
    ensures row { IfOk result (IsRow image.now) }
{
    match unit_at(image, targets, address) {
        Content::Unit(unit) => unit_row(alloc, image, targets, address, unit),
        Content::Fault { kind, place } => Ok(Row {
            address,
            content: Content::Fault { kind, place },
            onward: List::new(alloc),
            calls: List::new(alloc),
        }),
    }
}
