//! The places of a net: the units of contexts, and their numbers.

ghost use Rattle.std.specs.Prelude.{◌≡◌, ◌<◌, ℕ, suc, length, map, slice_get, Some, IfOk};
ghost use Rattle.flow_net.specs.declared.net.Place.{Place};
ghost use Rattle.unit_graph.specs.declared.graph.Graph.{Graph};
ghost use Rattle.unit_graph.specs.declared.node.Unit.{Unit as Node};
ghost use Rattle.call_contexts.specs.Layout.{HasGraph, IsLaid, IsLaidOut, IsSpot};
ghost use Rattle.call_contexts.specs.Spots.{HasNumber, IsNumberAt, IsOfProgram};

use crate::index::position_of;
use crate::layout::Layout;
use flow_net::Place;
use std::alloc::{AllocError, Global};
use unit_graph::{Graphs, Unit};

/// The units of a context's function.
pub fn units_in<'a>(graphs: &'a Graphs, layout: &Layout, context: usize) -> &'a [Unit]
    requires laid { IsLaidOut graphs.now.graphs layout.now }
    requires context { context < length layout.now.contexts.keys }
    ensures { (graph : Graph) × HasGraph graphs.now.graphs layout.now context graph × (result.now ≡ graph.units) }
{
    let position = layout.functions[context];
    graphs.graphs.as_slice()[position].units.as_slice()
}

/// The number of the place of the unit at an address in a context, by bisection.
pub fn number_at(graphs: &Graphs, layout: &Layout, context: u32, address: u32) -> u32
    requires program { IsOfProgram graphs.now layout.now }
    requires there { HasNumber graphs.now.graphs layout.now context address }
    ensures { IsNumberAt graphs.now.graphs layout.now context address result }
{
    let units = units_in(graphs, layout, context as usize);
    let base = layout.bases[context as usize];
    base + position_of(units, address) as u32
}

/// The unit of the place of a number in a context.
pub fn unit_at<'a>(graphs: &'a Graphs, layout: &Layout, context: u32, number: u32) -> &'a Unit
    requires laid { IsLaidOut graphs.now.graphs layout.now }
    requires there { (position : ℕ) × (node : Node) × IsSpot graphs.now.graphs layout.now context position node number }
    ensures { (position : ℕ) × IsSpot graphs.now.graphs layout.now context position result.now number }
{
    let units = units_in(graphs, layout, context as usize);
    let position = number - layout.bases[context as usize];
    &units[position as usize]
}

/// The places of the contexts' units, by the contexts and the addresses, with these scopes in their order.
pub fn places_of(
    alloc: Global,
    graphs: &Graphs,
    layout: &Layout,
    scopes: &[u32],
) -> Result<Vec<Place>, AllocError>
    requires laid { IsLaidOut graphs.now.graphs layout.now }
    requires scopes { slice_get layout.now.bases.items (length layout.now.contexts.keys)
        ≡ Some (suc (length scopes.now)) }
    ensures laid { IfOk result (λ places. IsLaid graphs.now.graphs layout.now places.items) }
    ensures scopes { IfOk result (λ places. map (λ (place : Place). place.scope) places.items ≡ scopes.now) }
{
    let mut places = Vec::new(alloc);
    for context in 0..layout.functions.len() {
        let units = units_in(graphs, layout, context);
        for unit in units {
            let scope = scopes[places.len()];
            places.push(Place {
                context: context as u32,
                address: unit.address,
                scope,
            })?;
        }
    }
    Ok(places)
}
