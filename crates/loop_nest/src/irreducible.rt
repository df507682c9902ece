//! Finding a cycle without back arcs.

ghost use Rattle.std.specs.Prelude.{◌≡◌, ◌↔◌, Contains, length, IfOk, IsTrue};
ghost use Rattle.step_table.specs.Cycles.{IsCyclic, IsFirstCyclic};
ghost use Rattle.loop_nest.specs.Cycles.{AreForward, IsFirstIrregular, IsForward};
ghost use Rattle.step_table.specs.Table.{IsWithin};

use std::alloc::{AllocError, Global};
use step_table::{first_cyclic, reverse_of, steps_at};
use wcet_io::List;

/// Whether a position is one of these.
fn is_among(positions: &[usize], position: usize) -> bool
    ensures { IsTrue result ↔ Contains positions.now position }
{
    positions.contains(&position)
}

/// Of the steps from a position, those that are no back arcs from it.
fn forward_steps(alloc: Global, backs: &[usize], steps: &[usize]) -> Result<List<usize>, AllocError>
    ensures { IfOk result (AreForward backs.now steps.now) }
{
    let mut list = List::new(alloc);
    for to in steps {
        if is_among(backs, *to) {
            continue;
        }
        list.push(*to)?;
    }
    Ok(list)
}

/// The table of the steps that are no back arcs.
fn forward_of(
    alloc: Global,
    table: &[List<usize>],
    sources: &[List<usize>],
) -> Result<Vec<List<usize>>, AllocError>
    requires within { IsWithin table.now }
    requires sources { IsWithin sources.now }
    requires count { length sources.now ≡ length table.now }
    ensures { IfOk result (λ forward. IsForward table.now sources.now forward.items) }
{
    let backs = reverse_of(alloc, sources)?;
    let mut forward = Vec::new(alloc);
    for from in 0..table.len() {
        let ahead = forward_steps(alloc, steps_at(&backs, from), steps_at(table, from))?;
        forward.push(ahead)?;
    }
    Ok(forward)
}

/// The least position of a cycle without back arcs.
///
/// The time is in proportion to the positions and the steps, but that each step is looked for among the
/// back arcs from its source. These go to headers that all hold it, so they are at most as many as the depth
/// of its loops.
pub fn first_irregular(
    alloc: Global,
    table: &[List<usize>],
    sources: &[List<usize>],
) -> Result<Option<usize>, AllocError>
    requires within { IsWithin table.now }
    requires sources { IsWithin sources.now }
    requires count { length sources.now ≡ length table.now }
    ensures { IfOk result (IsFirstIrregular table.now sources.now) }
{
    let forward = forward_of(alloc, table, sources)?;
    first_cyclic(alloc, &forward)
}
