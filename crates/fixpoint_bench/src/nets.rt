//! Nets of three shapes.

ghost use Rattle.std.specs.Prelude.{◌≤◌};

use flow_net::{LoopInst, Net, NetArc, Place};
use std::alloc::{AllocError, Global};
use wcet_io::List;

/// A net of nothing but the arc with which a run begins.
fn begun(alloc: Global) -> Result<Net, AllocError> {
    let arcs = vec![in alloc; NetArc { from: 0, to: 1 }]?;
    Ok(Net {
        contexts: List::new(alloc),
        places: List::new(alloc),
        arcs: List::from_vec(arcs),
        loops: List::new(alloc),
        accesses: List::new(alloc),
    })
}

/// Adds a place with its scope.
fn add_place(net: &mut Net, scope: u32) -> Result<(), AllocError> {
    net.places.push(Place {
        context: 0,
        address: 0x0040_0000,
        scope,
    })?;
    Ok(())
}

/// Adds an arc.
fn add_arc(net: &mut Net, from: u32, to: u32) -> Result<(), AllocError> {
    net.arcs.push(NetArc { from, to })?;
    Ok(())
}

/// Places one behind the other.
pub fn chain(alloc: Global, places: u32) -> Result<Net, AllocError>
    requires { places ≤ 65000 }
{
    let mut net = begun(alloc)?;
    for index in 0..places {
        add_place(&mut net, 0)?;
        add_arc(&mut net, index + 1, after(index + 1, places))?;
    }
    Ok(net)
}

/// The place after one of so many, 0 after the last.
fn after(place: u32, places: u32) -> u32
    requires { place ≤ 65000 }
{
    if place == places { 0 } else { place + 1 }
}

/// Diamonds of four places, one behind the other.
pub fn diamonds(alloc: Global, count: u32) -> Result<Net, AllocError>
    requires { count ≤ 16250 }
{
    let mut net = begun(alloc)?;
    for index in 0..count {
        let first = 4 * index + 1;
        for _place in 0..4 {
            add_place(&mut net, 0)?;
        }
        add_arc(&mut net, first, first + 1)?;
        add_arc(&mut net, first, first + 2)?;
        add_arc(&mut net, first + 1, first + 3)?;
        add_arc(&mut net, first + 2, first + 3)?;
        add_arc(&mut net, first + 3, after(first + 3, 4 * count))?;
    }
    Ok(net)
}

/// Nests of eight loops, one behind the other: eight headers inward, and eight places outward, each of which goes back to the header
/// of its loop as well.
pub fn nests(alloc: Global, count: u32) -> Result<Net, AllocError>
    requires { count ≤ 4062 }
{
    let mut net = begun(alloc)?;
    for index in 0..count {
        add_headers(&mut net, 16 * index, 8 * index)?;
        add_ends(&mut net, 16 * index, 8 * index, 16 * count)?;
    }
    Ok(net)
}

/// Adds the headers of a nest, and its loops.
fn add_headers(net: &mut Net, before: u32, outer: u32) -> Result<(), AllocError>
    requires places { before ≤ 64992 }
    requires loops { outer ≤ 32496 }
{
    for depth in 0..8 {
        add_place(net, outer + depth + 1)?;
        net.loops.push(LoopInst {
            header: before + depth + 1,
            bound: 2,
            outer: if depth == 0 { 0 } else { outer + depth },
        })?;
        add_arc(net, before + depth + 1, before + depth + 2)?;
    }
    Ok(())
}

/// Adds the places of a nest that go back to its headers.
fn add_ends(net: &mut Net, before: u32, outer: u32, places: u32) -> Result<(), AllocError>
    requires places { before ≤ 64976 }
    requires loops { outer ≤ 32496 }
{
    for turn in 0..8 {
        let end = before + turn + 9;
        add_place(net, outer + 8 - turn)?;
        add_arc(net, end, before + 8 - turn)?;
        add_arc(net, end, after(end, places))?;
    }
    Ok(())
}
