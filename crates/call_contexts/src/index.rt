//! Where units stand in a graph, and where the graphs of functions stand.

ghost use Rattle.std.specs.Prelude.{◌<◌, AllPairs, Contains, map};
ghost use Rattle.unit_graph.specs.declared.node.Unit.{Unit as Node};
ghost use Rattle.call_contexts.specs.Counting.{AreListed, IsGraphAt, IsKnown};
ghost use Rattle.call_contexts.specs.Layout.{HasNode};

use unit_graph::{Graph, Unit};

/// The position of the unit at an address, by bisection.
pub fn position_of(units: &[Unit], address: u32) -> usize
    requires rising { AllPairs (λ (a b : Node). a.address < b.address) units.now }
    requires there { Contains (map (λ (node : Node). node.address) units.now) address }
    ensures { HasNode units.now address result }
{
    units.partition_point(|unit| unit.address < address)
}

/// The position of the graph of a function, by bisection of those behind the first.
pub fn graph_at(graphs: &[Graph], function: u32) -> usize
    requires listed { AreListed graphs.now }
    requires known { IsKnown graphs.now function }
    ensures { IsGraphAt graphs.now function result }
{
    if graphs[0].entry == function {
        return 0;
    }
    let (_, others) = graphs.split_at(1);
    1 + others.partition_point(|graph| graph.entry < function)
}
