//! The scopes that a run enters and leaves along each arc.

ghost use Rattle.std.specs.Prelude.{◌≡◌, ◌<◌, ◌≤◌, ◌^◌, All, length, IfOk, Some};
ghost use Rattle.std.specs.Bool.{OnFalse, OnTrue};
ghost use Rattle.flow_net.specs.Nested.{IsNested};
ghost use Rattle.flow_net.specs.Numbers.{IsNumberOf, IsNumberOrZero, item_at};
ghost use Rattle.flow_net.specs.Scopes.{ChainsEnd, HasScopes, Holds, IsWithin};
ghost use Rattle.net_tables.specs.Crossings.{AreArcsEntering, AreBetween, AreLeft, AreLoopsEntered, AreScopesLeft, IsLoopEntered, IsShared};

use crate::numbers::number_lists;
use flow_net::{LoopInst, Net, NetArc};
use std::alloc::{AllocError, Global};
use wcet_io::List;

/// Whether a scope holds a place; none holds 0.
fn holds(net: &Net, scope: u32, place: u32) -> bool
    requires scopes { HasScopes net.now }
    requires place { IsNumberOrZero net.now.places place }
    ensures held { OnTrue result (Holds net.now scope place) }
    ensures free { OnFalse result (Holds net.now scope place → ⊥) }
{
    if place == 0 {
        return false;
    }
    net.held(place, scope)
}

/// The loop instance that an arc enters, 0 if it enters none. It takes a step for each scope round the arc's start.
fn loop_entered(net: &Net, number: u32) -> u32
    requires net { IsNested net.now }
    requires number { IsNumberOf net.now.arcs number }
    ensures entered { IsLoopEntered net.now number result }
    ensures inside { result ≤ length net.now.loops }
{
    let arc = net.arcs.as_slice()[number as usize - 1];
    if arc.to == 0 {
        return 0;
    }
    let scope = net.places.as_slice()[arc.to as usize - 1].scope;
    if holds(net, scope, arc.from) {
        return 0;
    }
    scope
}

/// For each arc, in order, the loop instance that it enters, 0 if it enters none; in a nested net it enters no two. That arc 1
/// enters the run besides isn't told. It takes a step for each scope round the start of each arc.
pub fn loops_entered(alloc: Global, net: &Net) -> Result<Vec<u32>, AllocError>
    requires net { IsNested net.now }
    requires few { length net.now.arcs < 2 ^ 32 }
    ensures entered { IfOk result (λ scopes. AreLoopsEntered net.now scopes.items) }
    ensures inside { IfOk result (λ scopes. All (λ scope. scope ≤ length net.now.loops) scopes.items) }
{
    let count = net.arcs.as_slice().len();
    let mut scopes = Vec::with_capacity(alloc, count)?;
    for index in 0..count {
        scopes.push(loop_entered(net, index as u32 + 1))?;
    }
    Ok(scopes)
}

/// For each scope by its number the numbers of the arcs that enter it, rising; arc 1 enters the run, of number 0. One pass over the
/// arcs, with a step for each scope round the start of each.
pub fn arcs_entering(alloc: Global, net: &Net) -> Result<Vec<List<u32>>, AllocError>
    requires net { IsNested net.now }
    requires few { length net.now.loops < 2 ^ 32 × length net.now.arcs < 2 ^ 32 }
    ensures { IfOk result (λ lists. AreArcsEntering net.now lists.items) }
{
    let scopes = loops_entered(alloc, net)?;
    let mut lists = number_lists(alloc, net.loops.as_slice().len() as u32, &scopes)?;
    let first = vec![in alloc; 1]?;
    lists[0] = List::from_vec(first);
    Ok(lists)
}

/// The innermost scope that holds both ends of an arc between places.
fn shared_scope(net: &Net, number: u32) -> u32
    requires net { IsNested net.now }
    requires number { IsNumberOf net.now.arcs number }
    requires ends { (arc : NetArc) → item_at number net.now.arcs ≡ Some arc → (0 < arc.from) × (0 < arc.to) }
    ensures shared { (arc : NetArc) → item_at number net.now.arcs ≡ Some arc → IsShared net.now arc.from arc.to result }
{
    let arc = net.arcs.as_slice()[number as usize - 1];
    let scope = net.places.as_slice()[arc.to as usize - 1].scope;
    if net.held(arc.from, scope) {
        return scope;
    }
    net.loops.as_slice()[scope as usize - 1].outer
}

/// The scopes from an inner one outward up to an outer one that lies round it, without that one.
fn scopes_between(
    alloc: Global,
    loops: &[LoopInst],
    inner: u32,
    outer: u32,
) -> Result<List<u32>, AllocError>
    requires inner { IsNumberOrZero loops.now inner }
    requires loops { All (λ inst. IsNumberOrZero loops.now inst.outer) loops.now }
    requires chains { ChainsEnd loops.now }
    requires within { IsWithin loops.now outer inner }
    ensures { IfOk result (AreBetween loops.now inner outer) }
{
    let mut scopes = List::new(alloc);
    let mut scope = inner;
    while scope != outer {
        scopes.push(scope)?;
        scope = loops[scope as usize - 1].outer;
    }
    Ok(scopes)
}

/// The scopes that an arc leaves, the innermost first. It takes a step for each of them, and for each scope round its start.
fn scopes_left_along(alloc: Global, net: &Net, number: u32) -> Result<List<u32>, AllocError>
    requires net { IsNested net.now }
    requires number { IsNumberOf net.now.arcs number }
    ensures { IfOk result (AreLeft net.now number) }
{
    let arc = net.arcs.as_slice()[number as usize - 1];
    if arc.from == 0 {
        return Ok(List::new(alloc));
    }
    let innermost = net.places.as_slice()[arc.from as usize - 1].scope;
    if arc.to == 0 {
        let mut scopes = scopes_between(alloc, net.loops.as_slice(), innermost, 0)?;
        scopes.push(0)?;
        return Ok(scopes);
    }
    let shared = shared_scope(net, number);
    scopes_between(alloc, net.loops.as_slice(), innermost, shared)
}

/// For each arc, in order, the scopes that it leaves, the innermost first; an arc to 0 leaves the run too. One pass over the arcs,
/// with a step for each scope round the start of each.
pub fn scopes_left(alloc: Global, net: &Net) -> Result<Vec<List<u32>>, AllocError>
    requires net { IsNested net.now }
    requires few { length net.now.arcs < 2 ^ 32 }
    ensures { IfOk result (λ lists. AreScopesLeft net.now lists.items) }
{
    let count = net.arcs.as_slice().len();
    let mut lists = Vec::with_capacity(alloc, count)?;
    for index in 0..count {
        lists.push(scopes_left_along(alloc, net, index as u32 + 1)?)?;
    }
    Ok(lists)
}
