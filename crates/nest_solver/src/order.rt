//! The arcs of a net in an order in which each one stands behind all arcs from where it goes to, back arcs
//! apart (after Kahn, 1962).

ghost use Rattle.std.specs.Prelude.{◌≡◌, ℕ, ◌+◌, ◌<◌, ◌≤◌, ◌++◌, ◌∷◌, [], IfOk, OnOk, length, slice_set, true, false};
ghost use Rattle.flow_net.specs.Nested.{IsNested};
ghost use Rattle.nest_solver.specs.Nets.{entry};
ghost use Rattle.nest_solver.specs.Orders.{AreAcyclic, AreArrivals, IsOpening, IsOrder, arcs_of};
ghost use Rattle.nest_solver.specs.Shape.{IsUpTo};
ghost use Rattle.nest_solver.specs.Tables.{IsFew, test_at};

use crate::arrivals::{Arrivals, arrivals_of, sources_of};
use crate::reads::source;
use flow_net::Net;
use std::alloc::{AllocError, Global};

/// All arcs in an order, and the position of each one in it, counted from 1.
#[derive(Drop)]
pub struct Order {
    pub arcs: Vec<usize>,
    pub positions: Vec<usize>,
}

/// Puts an arc at the end of the queue.
fn put(arc: usize, order: &mut Vec<usize>, place: &mut [usize]) -> Result<(), AllocError>
    requires { arc < length place.old }
    ensures pushed { OnOk result (order.new.items ≡ order.old.items ++ arc ∷ []) }
    ensures placed { OnOk result (place.new ≡ slice_set place.old arc (length order.old.items + 1)) }
{
    order.push(arc)?;
    place[arc] = order.len();
    Ok(())
}

/// Puts an arc to an open place into the queue, unless it is a back arc, which is there.
fn put_forward(
    net: &Net,
    backs: &[bool],
    arrivals: &Arrivals,
    arc: usize,
    order: &mut Vec<usize>,
    place: &mut [usize],
) -> Result<(), AllocError>
    requires arc { IsUpTo (length net.now.arcs) arc }
    requires backs { length backs.now ≡ length net.now.arcs + 1 }
    requires arrivals { AreArrivals net.now arrivals.now }
    requires place { length place.old ≡ length net.now.arcs + 1 }
    ensures onward { OnOk result ((left : ℕ → ℕ) (done first low q : ℕ) → (arcs_of net.now backs.now).to arc ≡ q →
        left q ≡ 0 → q < low
        → IsOpening (arcs_of net.now backs.now) order.old.items (entry place.old) left done first low q arc
        → IsOpening (arcs_of net.now backs.now) order.new.items (entry place.new) left done first low q
        (entry arrivals.now.next.items arc)) }
{
    if backs[arc] {
        return Ok(());
    }
    put(arc, order, place)?;
    Ok(())
}

/// Puts the arcs to a place into the queue that opens.
fn open(
    net: &Net,
    backs: &[bool],
    arrivals: &Arrivals,
    to: usize,
    order: &mut Vec<usize>,
    place: &mut [usize],
) -> Result<(), AllocError>
    requires to { to ≤ length net.now.places }
    requires backs { length backs.now ≡ length net.now.arcs + 1 }
    requires arrivals { AreArrivals net.now arrivals.now }
    requires place { length place.old ≡ length net.now.arcs + 1 }
    ensures opened { OnOk result ((left : ℕ → ℕ) (done first low : ℕ) → left to ≡ 0 → to < low
        → IsOpening (arcs_of net.now backs.now) order.old.items (entry place.old) left done first low to
        (entry arrivals.now.heads.items to)
        → IsOpening (arcs_of net.now backs.now) order.new.items (entry place.new) left done first low to 0) }
{
    let mut arc = arrivals.heads[to];
    while arc != 0 {
        put_forward(net, backs, arrivals, arc, order, place)?;
        arc = arrivals.next[arc];
    }
    Ok(())
}

/// Puts an arc into the queue if it is a back arc.
fn put_back_arc(
    net: &Net,
    backs: &[bool],
    arc: usize,
    order: &mut Vec<usize>,
    place: &mut [usize],
) -> Result<(), AllocError>
    requires arc { IsUpTo (length net.now.arcs) arc }
    requires backs { length backs.now ≡ length net.now.arcs + 1 }
    requires place { length place.old ≡ length net.now.arcs + 1 }
    ensures onward { OnOk result ((left : ℕ → ℕ)
        → IsOpening (arcs_of net.now backs.now) order.old.items (entry place.old) left 0 arc 0 0 0
        → IsOpening (arcs_of net.now backs.now) order.new.items (entry place.new) left 0 (arc + 1) 0 0 0) }
{
    if !backs[arc] {
        return Ok(());
    }
    put(arc, order, place)?;
    Ok(())
}

/// Puts the back arcs into the queue.
fn put_backs(
    net: &Net,
    backs: &[bool],
    order: &mut Vec<usize>,
    place: &mut [usize],
) -> Result<(), AllocError>
    requires backs { length backs.now ≡ length net.now.arcs + 1 }
    requires place { length place.old ≡ length net.now.arcs + 1 }
    ensures backs { OnOk result ((left : ℕ → ℕ)
        → IsOpening (arcs_of net.now backs.now) order.old.items (entry place.old) left 0 1 0 0 0
        → IsOpening (arcs_of net.now backs.now) order.new.items (entry place.new) left 0
        (length net.now.arcs + 1) 0 0 0) }
{
    for arc in 1..net.arcs.as_slice().len() + 1 {
        put_back_arc(net, backs, arc, order, place)?;
    }
    Ok(())
}

/// Opens a place from which no arc is pending.
fn open_if_done(
    net: &Net,
    backs: &[bool],
    arrivals: &Arrivals,
    left: &[usize],
    to: usize,
    order: &mut Vec<usize>,
    place: &mut [usize],
) -> Result<(), AllocError>
    requires to { to ≤ length net.now.places }
    requires backs { length backs.now ≡ length net.now.arcs + 1 }
    requires arrivals { AreArrivals net.now arrivals.now }
    requires left { length left.now ≡ length net.now.places + 1 }
    requires place { length place.old ≡ length net.now.arcs + 1 }
    requires opening { IsOpening (arcs_of net.now backs.now) order.old.items (entry place.old) (entry left.now)
        0 (length net.now.arcs + 1) to 0 0 }
    ensures opening { OnOk result (IsOpening (arcs_of net.now backs.now) order.new.items (entry place.new)
        (entry left.now)
        0 (length net.now.arcs + 1) (to + 1) 0 0) }
{
    if left[to] != 0 {
        return Ok(());
    }
    open(net, backs, arrivals, to, order, place)?;
    Ok(())
}

/// Opens the places from which no arc comes, and place 0.
fn open_ends(
    net: &Net,
    backs: &[bool],
    arrivals: &Arrivals,
    left: &[usize],
    order: &mut Vec<usize>,
    place: &mut [usize],
) -> Result<(), AllocError>
    requires backs { length backs.now ≡ length net.now.arcs + 1 }
    requires arrivals { AreArrivals net.now arrivals.now }
    requires left { length left.now ≡ length net.now.places + 1 }
    requires place { length place.old ≡ length net.now.arcs + 1 }
    requires opening { IsOpening (arcs_of net.now backs.now) order.old.items (entry place.old) (entry left.now)
        0 (length net.now.arcs + 1) 0 0 0 }
    ensures opening { OnOk result (IsOpening (arcs_of net.now backs.now) order.new.items (entry place.new)
        (entry left.now)
        0 (length net.now.arcs + 1) (length net.now.places + 1) 0 0) }
{
    for to in 0..net.places.as_slice().len() + 1 {
        open_if_done(net, backs, arrivals, left, to, order, place)?;
    }
    Ok(())
}

/// Takes an arc from the queue: where no arc from its source is pending any more, that opens.
fn take(
    net: &Net,
    backs: &[bool],
    arrivals: &Arrivals,
    at: usize,
    left: &mut [usize],
    order: &mut Vec<usize>,
    place: &mut [usize],
) -> Result<(), AllocError>
    requires nested { IsNested net.now }
    requires few { IsFew net.now }
    requires at { at < length order.old.items }
    requires backs { length backs.now ≡ length net.now.arcs + 1 }
    requires arrivals { AreArrivals net.now arrivals.now }
    requires left { length left.old ≡ length net.now.places + 1 }
    requires place { length place.old ≡ length net.now.arcs + 1 }
    requires opening { IsOpening (arcs_of net.now backs.now) order.old.items (entry place.old) (entry left.old)
        at (length net.now.arcs + 1) (length net.now.places + 1) 0 0 }
    ensures opening { OnOk result (IsOpening (arcs_of net.now backs.now) order.new.items (entry place.new)
        (entry left.new)
        (at + 1) (length net.now.arcs + 1) (length net.now.places + 1) 0 0) }
{
    let arc = order[at];
    let from = source(net, arc);
    if from == 0 {
        return Ok(());
    }
    left[from] -= 1;
    if left[from] != 0 {
        return Ok(());
    }
    open(net, backs, arrivals, from, order, place)?;
    Ok(())
}

/// Takes all arcs from the queue, as it grows.
fn take_all(
    net: &Net,
    backs: &[bool],
    arrivals: &Arrivals,
    left: &mut [usize],
    order: &mut Vec<usize>,
    place: &mut [usize],
) -> Result<(), AllocError>
    requires nested { IsNested net.now }
    requires few { IsFew net.now }
    requires backs { length backs.now ≡ length net.now.arcs + 1 }
    requires arrivals { AreArrivals net.now arrivals.now }
    requires left { length left.old ≡ length net.now.places + 1 }
    requires place { length place.old ≡ length net.now.arcs + 1 }
    requires acyclic { AreAcyclic (arcs_of net.now backs.now) (length net.now.places) }
    requires opening { IsOpening (arcs_of net.now backs.now) order.old.items (entry place.old) (entry left.old)
        0 (length net.now.arcs + 1) (length net.now.places + 1) 0 0 }
    ensures order { OnOk result (IsOrder (arcs_of net.now backs.now) order.new.items (entry place.new)) }
{
    let mut at = 0;
    while at < order.len() {
        take(net, backs, arrivals, at, left, order, place)?;
        at += 1;
    }
    Ok(())
}

/// Orders the arcs, in a step for each of them and each place: each comes to the queue once and is taken once.
fn fill(
    alloc: Global,
    net: &Net,
    backs: &[bool],
    order: &mut Vec<usize>,
    place: &mut [usize],
) -> Result<(), AllocError>
    requires nested { IsNested net.now }
    requires few { IsFew net.now }
    requires backs { length backs.now ≡ length net.now.arcs + 1 }
    requires place { length place.old ≡ length net.now.arcs + 1 }
    requires fresh { (i : ℕ) → entry place.old i ≡ 0 }
    requires empty { order.old.items ≡ [] }
    requires acyclic { AreAcyclic (arcs_of net.now backs.now) (length net.now.places) }
    ensures order { OnOk result (IsOrder (arcs_of net.now backs.now) order.new.items (entry place.new)) }
{
    let arrivals = arrivals_of(alloc, net)?;
    let mut left = sources_of(alloc, net)?;
    put_backs(net, backs, order, place)?;
    open_ends(net, backs, &arrivals, &left, order, place)?;
    take_all(net, backs, &arrivals, &mut left, order, place)?;
    Ok(())
}

/// The arcs in an order in which each one stands behind all arcs from where it goes to, back arcs apart.
pub fn order_of(alloc: Global, net: &Net, backs: &[bool]) -> Result<Order, AllocError>
    requires nested { IsNested net.now }
    requires few { IsFew net.now }
    requires backs { length backs.now ≡ length net.now.arcs + 1 }
    requires acyclic { AreAcyclic (arcs_of net.now backs.now) (length net.now.places) }
    ensures order { IfOk result (λ order. IsOrder (arcs_of net.now backs.now) order.arcs.items
        (entry order.positions.items)) }
{
    let mut arcs = Vec::new(alloc);
    let mut positions = vec![in alloc; 0; net.arcs.as_slice().len() + 1]?;
    fill(alloc, net, backs, &mut arcs, &mut positions)?;
    Ok(Order { arcs, positions })
}
