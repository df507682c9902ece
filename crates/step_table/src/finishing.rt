//! An order of the positions of a table in which steps go back, by a search in depth.

ghost use Rattle.std.specs.Prelude.{◌≡◌, ℕ, ◌+◌, ◌<◌, ◌≤◌, ◌∷◌, ◌++◌, [], All, List, length, map, slice_get, Some, IfOk, OnOk};
ghost use Rattle.step_table.specs.Numbers.{number_of};
ghost use Rattle.step_table.specs.Rings.{effort, IsDepth, IsOrder, KeepsSeen, Opens};
ghost use Rattle.step_table.specs.Search.{IsSeen};
ghost use Rattle.step_table.specs.Table.{IsWithin};

use crate::search::steps_at;
use std::alloc::{AllocError, Global};
use wcet_io::List;

/// How many steps each position has.
fn counts_of(alloc: Global, table: &[List<usize>]) -> Result<Vec<usize>, AllocError>
    ensures { IfOk result (λ counts. counts.items ≡ map length table.now) }
{
    table
        .iter()
        .map(|steps| steps.as_slice().len())
        .collect(alloc)
}

/// Sees a position and puts it on the trail, unless it was seen before.
fn open(position: usize, seen: &mut [bool], trail: &mut Vec<usize>) -> Result<(), AllocError>
    requires { position < length seen.old }
    ensures { OnOk result (Opens position seen.old trail.old.items seen.new trail.new.items) }
{
    if seen[position] {
        return Ok(());
    }
    trail.push(position)?;
    seen[position] = true;
    Ok(())
}

/// How many steps of a position weren't looked at yet.
fn ahead_at(ahead: &[usize], position: usize) -> usize
    requires { position < length ahead.now }
    ensures { result ≡ number_of ahead.now position }
{
    ahead[position]
}

/// Looks at one more step of the last position of the trail, which was taken off.
fn look_on(
    table: &[List<usize>],
    last: usize,
    ahead: &mut [usize],
    seen: &mut [bool],
    trail: &mut Vec<usize>,
) -> Result<(), AllocError>
    requires within { IsWithin table.now }
    requires there { last < length table.now }
    requires sized { length seen.old ≡ length table.now }
    requires counted { length ahead.old ≡ length table.now }
    requires some { 0 < number_of ahead.old last }
    requires bound { (steps : List ℕ) → slice_get table.now last ≡ Some steps →
        number_of ahead.old last ≤ length steps }
    ensures depth { OnOk result ((order : List ℕ) → IsDepth table.now order seen.old ahead.old
        (trail.old.items ++ last ∷ [])
        → IsDepth table.now order seen.new ahead.new trail.new.items) }
    ensures kept { OnOk result (KeepsSeen seen.old seen.new) }
    ensures less { OnOk result
        (effort seen.new ahead.new trail.new.items ≤ effort seen.old ahead.old trail.old.items) }
{
    let at = ahead[last] - 1;
    ahead[last] = at;
    let next = steps_at(table, last)[at];
    trail.push(last)?;
    open(next, seen, trail)?;
    Ok(())
}

/// Goes on with the search from a position, until all positions that were seen are left.
fn leave_from(
    alloc: Global,
    table: &[List<usize>],
    start: usize,
    ahead: &mut [usize],
    seen: &mut [bool],
    order: &mut Vec<usize>,
) -> Result<(), AllocError>
    requires within { IsWithin table.now }
    requires there { start < length table.now }
    requires depth { IsDepth table.now order.old.items seen.old ahead.old [] }
    ensures depth { OnOk result (IsDepth table.now order.new.items seen.new ahead.new []) }
    ensures kept { OnOk result (KeepsSeen seen.old seen.new) }
    ensures seen { OnOk result (IsSeen seen.new start) }
{
    let mut trail = Vec::new(alloc);
    open(start, seen, &mut trail)?;
    while let Some(last) = trail.pop() {
        if ahead_at(ahead, last) > 0 {
            look_on(table, last, ahead, seen, &mut trail)?;
            continue;
        }
        order.push(last)?;
    }
    Ok(())
}

/// All positions of a table in an order in which steps go back: up to each position, a step goes to one that
/// stands no later, or to one from which steps lead to it.
///
/// It takes a search in depth: each position comes to the trail once, and each step is looked at once.
pub fn order_of(alloc: Global, table: &[List<usize>]) -> Result<Vec<usize>, AllocError>
    requires { IsWithin table.now }
    ensures { IfOk result (λ order. IsOrder table.now order.items) }
{
    let mut ahead = counts_of(alloc, table)?;
    let mut seen = vec![in alloc; false; table.len()]?;
    let mut order = Vec::new(alloc);
    for start in 0..table.len() {
        leave_from(alloc, table, start, &mut ahead, &mut seen, &mut order)?;
    }
    Ok(order)
}
