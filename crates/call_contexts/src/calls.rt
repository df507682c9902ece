//! The calls of graphs, with the graphs of the called functions.

ghost use Rattle.std.specs.Prelude.{◌++◌, List, All, IfOk, OnOk};
ghost use Rattle.mips_decode.specs.Transfer.{Call};
ghost use Rattle.unit_graph.specs.declared.graph.Graph.{Graph};
ghost use Rattle.unit_graph.specs.declared.node.Unit.{Unit as Node};

use crate::index::graph_at;
use std::alloc::{AllocError, Global};
use unit_graph::{Graph, Unit};
use wcet_io::List;

/// A call.
#[derive(Clone, Copy, Debug)]
pub struct Called {
    /// The address of the unit that calls.
    pub site: u32,
    /// The entry of the called function.
    pub target: u32,
    /// The position of the called function's graph.
    pub graph: usize,
}

ghost use Rattle.call_contexts.specs.Counting.{AreCalled, AreCallLists, AreListed, IsKnown, calls_at, calls_in};

/// Adds the calls of a unit.
fn add_calls(graphs: &[Graph], unit: &Unit, called: &mut List<Called>) -> Result<(), AllocError>
    requires listed { AreListed graphs.now }
    requires known { All (IsKnown graphs.now) unit.now.calls }
    ensures { OnOk result ((calls : List Call) → AreCalled graphs.now calls called.old →
        AreCalled graphs.now (calls ++ calls_at unit.now) called.new) }
{
    for target in unit.calls.as_slice() {
        called.push(Called {
            site: unit.address,
            target: *target,
            graph: graph_at(graphs, *target),
        })?;
    }
    Ok(())
}

/// The calls of a graph.
fn calls_of(alloc: Global, graphs: &[Graph], graph: &Graph) -> Result<List<Called>, AllocError>
    requires listed { AreListed graphs.now }
    requires known { All (λ (unit : Node). All (IsKnown graphs.now) unit.calls) graph.now.units }
    ensures { IfOk result (λ called. AreCalled graphs.now (calls_in graph.now) called) }
{
    let mut called = List::new(alloc);
    for unit in graph.units.as_slice() {
        add_calls(graphs, unit, &mut called)?;
    }
    Ok(called)
}

/// For each graph its calls, by rising sites and for each site by the rising entries of the called functions.
///
/// It takes a search of the graphs for each call.
pub fn call_lists(alloc: Global, graphs: &[Graph]) -> Result<Vec<List<Called>>, AllocError>
    requires listed { AreListed graphs.now }
    requires known { All (λ (graph : Graph). All (λ (unit : Node). All (IsKnown graphs.now) unit.calls) graph.units)
        graphs.now }
    ensures { IfOk result (λ lists. AreCallLists graphs.now lists.items) }
{
    let mut lists = Vec::new(alloc);
    for graph in graphs {
        lists.push(calls_of(alloc, graphs, graph)?)?;
    }
    Ok(lists)
}
