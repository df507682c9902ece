//! The arcs of a net by where they go to, and how many come from each place.

ghost use Rattle.std.specs.Prelude.{◌≡◌, ℕ, ◌+◌, ◌-◌, ◌<◌, ◌≤◌, ◌==◌, IfOk, OnOk, length};
ghost use Rattle.flow_net.specs.Numbers.{item_at};
ghost use Rattle.flow_net.specs.Visits.{target_of};
ghost use Rattle.flow_net.specs.Nested.{IsNested};
ghost use Rattle.ipet_program.specs.Sums.{sum_to};
ghost use Rattle.nest_solver.specs.Counted.{bit};
ghost use Rattle.nest_solver.specs.Groups.{AreGrouped};
ghost use Rattle.nest_solver.specs.Nets.{entry, source_of};
ghost use Rattle.nest_solver.specs.Orders.{AreArrivals, AreLeft};
ghost use Rattle.nest_solver.specs.Shape.{IsUpTo};
ghost use Rattle.nest_solver.specs.Tables.{IsFew};

use crate::groups::group;
use crate::reads::{source, target};
use flow_net::Net;
use std::alloc::{AllocError, Global};

/// The arcs by where they go to, as chains.
#[derive(Drop)]
pub struct Arrivals {
    /// Of each place the greatest arc to it, 0 for none.
    pub heads: Vec<usize>,
    /// Of each arc the next less one to the same place, 0 for none.
    pub next: Vec<usize>,
}

/// Where each arc goes to.
fn targets_of(alloc: Global, net: &Net) -> Result<Vec<usize>, AllocError>
    ensures count { IfOk result (λ targets. length targets.items ≡ length net.now.arcs + 1) }
    ensures targets { IfOk result (λ targets. (i : ℕ) → i < length net.now.arcs + 1 →
        entry targets.items i ≡ target_of (item_at i net.now.arcs)) }
{
    let mut targets = Vec::new(alloc);
    targets.push(0)?;
    for arc in 1..net.arcs.as_slice().len() + 1 {
        targets.push(target(net, arc))?;
    }
    Ok(targets)
}

/// Puts the arcs into chains by where they go to, in empty tables.
fn group_targets(
    alloc: Global,
    net: &Net,
    heads: &mut [usize],
    next: &mut [usize],
) -> Result<(), AllocError>
    requires nested { IsNested net.now }
    requires heads { length heads.old ≡ length net.now.places + 1 }
    requires next { length next.old ≡ length net.now.arcs + 1 }
    requires fresh { (p : ℕ) → entry heads.old p ≡ 0 }
    ensures chains { OnOk result (AreGrouped (λ (i : ℕ). target_of (item_at i net.now.arcs)) (length net.now.arcs + 1)
        (entry heads.new) (entry next.new)) }
{
    let targets = targets_of(alloc, net)?;
    group(&targets, heads, next);
    Ok(())
}

/// The arcs of a net by where they go to.
pub fn arrivals_of(alloc: Global, net: &Net) -> Result<Arrivals, AllocError>
    requires nested { IsNested net.now }
    ensures arrivals { IfOk result (λ arrivals. AreArrivals net.now arrivals) }
{
    let mut heads = vec![in alloc; 0; net.places.as_slice().len() + 1]?;
    let mut next = vec![in alloc; 0; net.arcs.as_slice().len() + 1]?;
    group_targets(alloc, net, &mut heads, &mut next)?;
    Ok(Arrivals { heads, next })
}

/// Counts an arc at the place that it comes from. What comes from 0 isn't counted.
fn count_source(net: &Net, arc: usize, left: &mut [usize])
    requires nested { IsNested net.now }
    requires few { IsFew net.now }
    requires arc { IsUpTo (length net.now.arcs) arc }
    requires room { length left.old ≡ length net.now.places + 1 }
    requires left { AreLeft net.now (entry left.old) (arc - 1) }
    ensures left { AreLeft net.now (entry left.new) arc }
{
    let from = source(net, arc);
    if from == 0 {
        return;
    }
    left[from] += 1;
}

/// Counts the arcs from each place, in an empty table.
fn count_sources(net: &Net, left: &mut [usize])
    requires nested { IsNested net.now }
    requires few { IsFew net.now }
    requires room { length left.old ≡ length net.now.places + 1 }
    requires fresh { (p : ℕ) → entry left.old p ≡ 0 }
    ensures left { AreLeft net.now (entry left.new) (length net.now.arcs) }
{
    for arc in 1..net.arcs.as_slice().len() + 1 {
        count_source(net, arc, left);
    }
}

/// How many arcs come from each place, 0 for place 0.
pub fn sources_of(alloc: Global, net: &Net) -> Result<Vec<usize>, AllocError>
    requires nested { IsNested net.now }
    requires few { IsFew net.now }
    ensures count { IfOk result (λ left. length left.items ≡ length net.now.places + 1) }
    ensures left { IfOk result (λ left. AreLeft net.now (entry left.items) (length net.now.arcs)) }
{
    let mut left = vec![in alloc; 0; net.places.as_slice().len() + 1]?;
    count_sources(net, &mut left);
    Ok(left)
}
