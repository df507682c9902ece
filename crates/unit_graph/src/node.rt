//! The nodes of a function's graph.

ghost use Rattle.std.specs.Prelude.{◌≡◌, ◌+◌, ◌<◌, ◌^◌, ℕ, All, AllPairs, Contains, IfOk, length};
ghost use Rattle.std.specs.List.{AllZip, list_any};
ghost use Rattle.elf_mips.specs.declared.image.Image.{Image};
ghost use Rattle.unit_graph.specs.Flow.{Follows};
ghost use Rattle.unit_graph.specs.Inference.{AreReturning};
ghost use Rattle.unit_graph.specs.Rows.{AreRows, HasUnit, HaveImage, OfTheirImage};
ghost use Rattle.code_units.specs.Ways.{IsPlaced};

use crate::flow::add_onward;
use crate::rows::Row;
use crate::search::items_of;
use crate::span::row_at;
use code_units::{is_link_passed, load_of, returns};
use net_model::{CodeUnit, Content};
use std::alloc::{AllocError, Global};
use std::collections::BTreeSet;
use wcet_io::List;

/// A unit of a function: a plain instruction, or a jump or branch together with its delay slot.
#[derive(Debug, Drop)]
pub struct Unit {
    /// The address of its first word.
    pub address: u32,
    /// Whether it has a delay slot.
    pub slot: bool,
    /// Whether it returns from the function.
    pub returns: bool,
    /// Whether it is a BLTZAL or BGEZAL that may be not taken.
    pub skips: bool,
    /// The address of its instruction or slot that loads.
    pub load: Option<u32>,
    /// The addresses of the units that may follow in the function, rising.
    pub onward: List<u32>,
    /// The entries of the functions that it calls, rising.
    pub calls: List<u32>,
}

ghost use Rattle.unit_graph.specs.Graphs.{AreJust, IsNodeAt};
ghost use Rattle.unit_graph.specs.Nodes.{IsNodeOf};
ghost use Rattle.unit_graph.specs.declared.node.Unit.{Unit};

/// The onward units of a row's unit.
fn onward_of(alloc: Global, row: &Row, returning: &BTreeSet<u32>) -> Result<List<u32>, AllocError>
    requires { 0 < length row.now.calls → row.now.address + 8 < 2 ^ 32 }
    ensures { IfOk result (AreJust (Follows returning.now.keys row.now)) }
{
    let mut onward = BTreeSet::new(alloc);
    add_onward(row, returning, &mut onward)?;
    let items = items_of(alloc, &onward)?;
    Ok(List::from_vec(items))
}

/// A copy of what a row's unit calls.
fn calls_of(alloc: Global, calls: &[u32]) -> Result<List<u32>, AllocError>
    requires { AllPairs (λ a b. a < b) calls.now }
    ensures { IfOk result (AreJust (Contains calls.now)) }
{
    Ok(List::from_vec(Vec::from_slice(alloc, calls)?))
}

/// The node of a row's unit.
fn node_of(
    alloc: Global,
    row: &Row,
    unit: &CodeUnit,
    returning: &BTreeSet<u32>,
) -> Result<Unit, AllocError>
    requires placed { IsPlaced unit.now row.now.address }
    requires low { 0 < length row.now.calls → row.now.address + 8 < 2 ^ 32 }
    requires rising { AllPairs (λ a b. a < b) row.now.calls }
    ensures { IfOk result (IsNodeOf returning.now.keys row.now unit.now) }
{
    let onward = onward_of(alloc, row, returning)?;
    let calls = calls_of(alloc, row.calls.as_slice())?;
    Ok(Unit {
        address: row.address,
        slot: unit.slot.is_some(),
        returns: returns(unit),
        skips: is_link_passed(&unit.instr),
        load: load_of(unit, row.address),
        onward,
        calls,
    })
}

/// The node of the unit at an address.
fn node_at(
    alloc: Global,
    rows: &[Row],
    returning: &BTreeSet<u32>,
    address: u32,
) -> Result<Unit, AllocError>
    requires rows { HaveImage rows.now }
    requires unit { HasUnit rows.now address }
    ensures { IfOk result (λ node. OfTheirImage rows.now (λ image entry.
        AreReturning image rows.now returning.now.keys → IsNodeAt image address node)) }
{
    let Some(row) = row_at(rows, address) else {
        unreachable!();
    };
    match &row.content {
        Content::Unit(unit) => node_of(alloc, row, unit, returning),
        Content::Fault { .. } => unreachable!(),
    }
}

/// The nodes of the units at these addresses.
pub fn nodes_of(
    alloc: Global,
    rows: &[Row],
    returning: &BTreeSet<u32>,
    addresses: &[u32],
) -> Result<List<Unit>, AllocError>
    requires rows { HaveImage rows.now }
    requires units { All (HasUnit rows.now) addresses.now }
    ensures { IfOk result (λ nodes. OfTheirImage rows.now (λ image entry.
        AreReturning image rows.now returning.now.keys → AllZip (IsNodeAt image) addresses.now nodes)) }
{
    let mut nodes = List::new(alloc);
    for address in addresses {
        nodes.push(node_at(alloc, rows, returning, *address)?)?;
    }
    Ok(nodes)
}

/// Whether one of the nodes returns.
pub fn any_returns(nodes: &[Unit]) -> bool
    ensures { result ≡ list_any (λ (node : Unit). node.returns) nodes.now }
{
    for node in nodes {
        if node.returns {
            return true;
        }
    }
    false
}
