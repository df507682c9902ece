//! The accesses of a net's places.

ghost use Rattle.std.specs.Prelude.{◌≡◌, ◌+◌, ◌<◌, ◌^◌, ◌++◌, ◌∷◌, [], ℕ, true, IfOk, OnOk, Option};
ghost use Rattle.flow_net.specs.Numbers.{item_at};
ghost use Rattle.flow_net.specs.declared.net.Place.{Place};
ghost use Rattle.net_model.specs.Accesses.{accesses_from, load_access};
ghost use Rattle.unit_graph.specs.declared.node.Unit.{Unit as Node};
ghost use Rattle.call_contexts.specs.Accesses.{node_accesses, slot_access};
ghost use Rattle.call_contexts.specs.Layout.{IsLaid, IsLaidOut, IsSpot};
ghost use Rattle.call_contexts.specs.Spots.{IsOfProgram, OfLaid};

use crate::layout::Layout;
use crate::spots::unit_at;
use flow_net::{Access, Place, Role};
use std::alloc::{AllocError, Global};
use unit_graph::{Graphs, Unit};

/// Adds the fetch of a unit's slot, if it has one.
fn add_slot(accesses: &mut Vec<Access>, place: u32, unit: &Unit) -> Result<(), AllocError>
    requires { unit.now.slot ≡ true → unit.now.address + 4 < 2 ^ 32 }
    ensures { OnOk result (accesses.new.items ≡ accesses.old.items ++ slot_access place unit.now) }
{
    if !unit.slot {
        return Ok(());
    }
    accesses.push(Access {
        place,
        role: Role::Slot,
        at: unit.address + 4,
    })?;
    Ok(())
}

/// Adds the load of a unit's instruction or slot, if one of them loads.
fn add_load(accesses: &mut Vec<Access>, place: u32, load: Option<u32>) -> Result<(), AllocError>
    ensures { OnOk result (accesses.new.items ≡ accesses.old.items ++ load_access place load) }
{
    let Some(at) = load else {
        return Ok(());
    };
    accesses.push(Access {
        place,
        role: Role::Load,
        at,
    })?;
    Ok(())
}

/// Adds the accesses of a unit.
fn add_accesses(accesses: &mut Vec<Access>, place: u32, unit: &Unit) -> Result<(), AllocError>
    requires { unit.now.slot ≡ true → unit.now.address + 4 < 2 ^ 32 }
    ensures { OnOk result (accesses.new.items ≡ accesses.old.items ++ node_accesses place unit.now) }
{
    accesses.push(Access {
        place,
        role: Role::Fetch,
        at: unit.address,
    })?;
    add_slot(accesses, place, unit)?;
    add_load(accesses, place, unit.load)
}

/// The accesses of these places, in their order.
pub fn accesses_of(
    alloc: Global,
    graphs: &Graphs,
    layout: &Layout,
    places: &[Place],
) -> Result<Vec<Access>, AllocError>
    requires program { IsOfProgram graphs.now layout.now }
    requires places { IsLaid graphs.now.graphs layout.now places.now }
    ensures { IfOk result (λ accesses. OfLaid graphs.now layout.now (λ image entry.
        accesses.items ≡ accesses_from image 1 places.now)) }
{
    let mut accesses = Vec::new(alloc);
    for (index, place) in places.iter().enumerate() {
        let number = index as u32 + 1;
        let unit = unit_at(graphs, layout, place.context, number);
        add_accesses(&mut accesses, number, unit)?;
    }
    Ok(accesses)
}
