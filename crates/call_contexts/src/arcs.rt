//! The arcs of a net: where the units of its places lead.

ghost use Rattle.std.specs.Prelude.{◌≡◌, ◌+◌, ◌<◌, ◌≤◌, ◌^◌, ◌++◌, ℕ, List, true, length, All, IfOk, OnOk};
ghost use Rattle.std.specs.List.{AllZip};
ghost use Rattle.call_contexts.specs.Arcs.{AreAllArcs, AreTargets, HasCallTo, HasReturnTo, IsCallTo, IsFirstPlace};
ghost use Rattle.call_contexts.specs.Arcs.{IsReturnTo, arcs_from, stays, ways_of};
ghost use Rattle.call_contexts.specs.Layout.{IsLaidOut, IsSpot};
ghost use Rattle.call_contexts.specs.Spots.{HasNumber, IsNumberAt, IsOfProgram};

use crate::layout::Layout;
use crate::spots::{number_at, units_in};
use flow_net::NetArc;
use std::alloc::{AllocError, Global};
use unit_graph::{Graphs, Unit};

/// Whether a unit goes on in its own context: a unit that calls does so only where it may be not taken.
fn stays(unit: &Unit) -> bool
    ensures { result ≡ stays unit.now }
{
    unit.calls.as_slice().is_empty() || unit.skips
}

/// Adds the places to which a unit goes on in its own context.
fn add_ways(
    targets: &mut Vec<u32>,
    graphs: &Graphs,
    layout: &Layout,
    context: u32,
    unit: &Unit,
) -> Result<(), AllocError>
    requires program { IsOfProgram graphs.now layout.now }
    requires there { All (HasNumber graphs.now.graphs layout.now context) unit.now.onward }
    ensures { OnOk result ((numbers : List ℕ) × (targets.new.items ≡ targets.old.items ++ numbers)
        × AllZip (IsNumberAt graphs.now.graphs layout.now context) (ways_of unit.now) numbers) }
{
    if !stays(unit) {
        return Ok(());
    }
    for address in unit.onward.as_slice() {
        targets.push(number_at(graphs, layout, context, *address))?;
    }
    Ok(())
}

/// The place of the entry of a function that the unit at a site calls.
fn call_to(graphs: &Graphs, layout: &Layout, context: u32, site: u32, callee: u32) -> u32
    requires program { IsOfProgram graphs.now layout.now }
    requires there { HasCallTo graphs.now.graphs layout.now context site callee }
    ensures { IsCallTo graphs.now.graphs layout.now context site callee result }
{
    let made = layout.number_of(context, site, callee);
    number_at(graphs, layout, made, callee)
}

/// Adds the places of the functions that a unit calls.
fn add_calls(
    targets: &mut Vec<u32>,
    graphs: &Graphs,
    layout: &Layout,
    context: u32,
    unit: &Unit,
) -> Result<(), AllocError>
    requires program { IsOfProgram graphs.now layout.now }
    requires there { All (HasCallTo graphs.now.graphs layout.now context unit.now.address) unit.now.calls }
    ensures { OnOk result ((numbers : List ℕ) × (targets.new.items ≡ targets.old.items ++ numbers)
        × AllZip (IsCallTo graphs.now.graphs layout.now context unit.now.address) unit.now.calls numbers) }
{
    for callee in unit.calls.as_slice() {
        targets.push(call_to(graphs, layout, context, unit.address, *callee))?;
    }
    Ok(())
}

/// The place to which a context's function returns; 0 ends the run.
fn return_to(graphs: &Graphs, layout: &Layout, context: u32) -> u32
    requires program { IsOfProgram graphs.now layout.now }
    requires there { HasReturnTo graphs.now.graphs layout.now context }
    ensures { IsReturnTo graphs.now.graphs layout.now context result }
{
    if context == 0 {
        return 0;
    }
    let Some(made) = layout.contexts.get_index(context as usize) else {
        unreachable!();
    };
    number_at(graphs, layout, made.parent, made.site + 8)
}

/// The targets of a unit's arcs, in their order.
fn targets_of(
    alloc: Global,
    graphs: &Graphs,
    layout: &Layout,
    context: u32,
    unit: &Unit,
) -> Result<Vec<u32>, AllocError>
    requires program { IsOfProgram graphs.now layout.now }
    requires spot { (position : ℕ) × (number : ℕ)
        × IsSpot graphs.now.graphs layout.now context position unit.now number }
    ensures { IfOk result (λ targets. AreTargets graphs.now.graphs layout.now context unit.now targets.items) }
{
    let mut targets = Vec::new(alloc);
    if unit.returns {
        targets.push(return_to(graphs, layout, context))?;
        return Ok(targets);
    }
    add_ways(&mut targets, graphs, layout, context, unit)?;
    add_calls(&mut targets, graphs, layout, context, unit)?;
    Ok(targets)
}

/// Adds the arcs from a place to these targets.
fn add_arcs(arcs: &mut Vec<NetArc>, from: u32, targets: &[u32]) -> Result<(), AllocError>
    ensures { OnOk result (arcs.new.items ≡ arcs.old.items ++ arcs_from from targets.now) }
{
    for to in targets {
        arcs.push(NetArc { from, to: *to })?;
    }
    Ok(())
}

/// The place with which a run begins.
fn first_place(graphs: &Graphs, layout: &Layout) -> u32
    requires program { IsOfProgram graphs.now layout.now }
    ensures { IsFirstPlace graphs.now.graphs layout.now result }
{
    let Some(root) = layout.contexts.get_index(0) else {
        unreachable!();
    };
    number_at(graphs, layout, 0, root.target)
}

/// The arcs of a net: the one from 0 to the place of the entry, then those from each place.
pub fn arcs_of(alloc: Global, graphs: &Graphs, layout: &Layout) -> Result<Vec<NetArc>, AllocError>
    requires program { IsOfProgram graphs.now layout.now }
    ensures arcs { IfOk result (λ arcs. AreAllArcs graphs.now.graphs layout.now arcs.items) }
    ensures few { IfOk result (λ arcs. length arcs.items ≤ 2 ^ 25) }
{
    let mut arcs = Vec::new(alloc);
    arcs.push(NetArc {
        from: 0,
        to: first_place(graphs, layout),
    })?;
    for context in 0..layout.functions.len() {
        let base = layout.bases[context];
        let units = units_in(graphs, layout, context);
        for (position, unit) in units.iter().enumerate() {
            let targets = targets_of(alloc, graphs, layout, context as u32, unit)?;
            add_arcs(&mut arcs, base + position as u32, &targets)?;
        }
    }
    Ok(arcs)
}
