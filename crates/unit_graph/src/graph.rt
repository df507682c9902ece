//! The graphs of a program's functions.

ghost use Rattle.std.specs.Prelude.{◌≡◌, ℕ, All, AllPairs, Contains, IfErr, IfOk, OnOk};
ghost use Rattle.elf_mips.specs.declared.image.Image.{Image};
ghost use Rattle.unit_graph.specs.Flow.{Leads};
ghost use Rattle.unit_graph.specs.Inference.{AreReturning};
ghost use Rattle.unit_graph.specs.Rows.{AreRows, HasUnit, HaveImage, OfTheirImage};
ghost use Rattle.unit_graph.specs.Search.{IsLed};
ghost use Rattle.unit_graph.specs.declared.flow.Reach.{Reach};

use crate::fault::CodeFault;
use crate::flow::{Reach, led_from};
use crate::node::{Unit, any_returns, nodes_of};
use crate::program::{Program, explore, first_faulty};
use crate::recursion::first_recursive;
use crate::rows::Row;
use crate::search::items_of;
use elf_mips::Image;
use net_model::CodeKind;
use std::alloc::{AllocError, Global};
use std::collections::BTreeSet;
use wcet_io::List;

/// The graph of a function.
#[derive(Debug, Drop)]
pub struct Graph {
    /// The address of its first unit.
    pub entry: u32,
    /// Its units, by rising addresses.
    pub units: List<Unit>,
    /// Whether it has a return unit.
    pub can_return: bool,
}

/// The graphs of a program's functions: the entry's first, the others by rising entries.
#[derive(Debug, Drop)]
pub struct Graphs {
    pub graphs: List<Graph>,
}

ghost use Rattle.net_model.specs.Faults.{HasNoFault};
ghost use Rattle.unit_graph.specs.Graphs.{AreGraphs, IsGraph, TellsFault};
ghost use Rattle.unit_graph.specs.Program.{AreGraphsOf, AreUnits, IsProgram};

/// The graph of a function each of whose addresses has a unit.
fn graph_of(
    alloc: Global,
    rows: &[Row],
    returning: &BTreeSet<u32>,
    function: u32,
) -> Result<Graph, AllocError>
    requires rows { HaveImage rows.now }
    requires units { AreUnits rows.now returning.now.keys function }
    ensures { IfOk result (λ graph. OfTheirImage rows.now (λ image entry.
        AreReturning image rows.now returning.now.keys → IsGraph image function graph)) }
{
    let led = led_from(alloc, rows, Reach::Function, returning, function)?;
    let addresses = items_of(alloc, &led)?;
    let units = nodes_of(alloc, rows, returning, &addresses)?;
    let can_return = any_returns(units.as_slice());
    Ok(Graph {
        entry: function,
        units,
        can_return,
    })
}

/// The graphs of these functions but the entry's.
fn other_graphs(
    alloc: Global,
    rows: &[Row],
    returning: &BTreeSet<u32>,
    functions: &[u32],
    entry: u32,
    graphs: &mut List<Graph>,
) -> Result<(), AllocError>
    requires rows { HaveImage rows.now }
    requires units { All (AreUnits rows.now returning.now.keys) functions.now }
    ensures { OnOk result (OfTheirImage rows.now (λ image main. AreReturning image rows.now returning.now.keys →
        AreGraphsOf image entry functions.now graphs.old graphs.new)) }
{
    for function in functions {
        if *function == entry {
            continue;
        }
        graphs.push(graph_of(alloc, rows, returning, *function)?)?;
    }
    Ok(())
}

/// The graphs of a program's functions, the entry's first.
fn graphs_of(alloc: Global, program: &Program, entry: u32) -> Result<List<Graph>, AllocError>
    requires program { (image : Image) × IsProgram image entry program.now }
    requires units { All (AreUnits program.now.rows.items program.now.returning.keys) program.now.functions.items }
    ensures { IfOk result (λ graphs. (image : Image) → IsProgram image entry program.now →
        AreGraphs image entry (record { graphs = graphs })) }
{
    let mut graphs = List::new(alloc);
    graphs.push(graph_of(alloc, &program.rows, &program.returning, entry)?)?;
    other_graphs(
        alloc,
        &program.rows,
        &program.returning,
        &program.functions,
        entry,
        &mut graphs,
    )?;
    Ok(graphs)
}

/// The graphs of the functions that a program reaches from its entry.
///
/// `Bad` is the code's first fault with its address: a recursion comes behind all faults of the units. It
/// takes time in proportion to the units and arcs of the functions, those of shared code once for each, and
/// to the units and arcs to which the code may lead, times their logarithm. Calls are among the arcs.
pub fn function_graphs(alloc: Global, image: &Image, entry: u32) -> Result<Graphs, CodeFault>
    ensures graphs { IfOk result (AreGraphs image.now entry) }
    ensures faultless { OnOk result (HasNoFault image.now entry) }
    ensures bad { IfErr result (TellsFault image.now entry) }
{
    let program = explore(alloc, image, entry)?;
    if let Some(offence) = first_faulty(alloc, &program)? {
        return Err(CodeFault::Bad {
            kind: offence.kind,
            address: offence.place,
        });
    }
    if let Some(function) = first_recursive(alloc, &program)? {
        return Err(CodeFault::Bad {
            kind: CodeKind::Recursion,
            address: function,
        });
    }
    let graphs = graphs_of(alloc, &program, entry)?;
    Ok(Graphs { graphs })
}
