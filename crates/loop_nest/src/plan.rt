//! The units of a function by their positions, and what is found of its loops.

ghost use Rattle.std.specs.Prelude.{◌≡◌, true, IfOk};
ghost use Rattle.std.specs.BTreeMap.{get};
ghost use Rattle.std.specs.Ordering.{nat_cmp};
ghost use Rattle.unit_graph.specs.Graphs.{HasImage};

use crate::bodies::innermost_of;
use crate::bounds::bounds_of;
use crate::irreducible::first_irregular;
use crate::listing::{Listed, list_loops};
use crate::ranks::ranks_of;
use crate::removal::backs_of;
use crate::retreats::{are_backs, retreats_of};
use crate::table::{addresses_of, table_of};
use std::alloc::{AllocError, Global};
use std::collections::BTreeMap;
use step_table::{position_of, reverse_of};
use unit_graph::Graph;
use wcet_io::List;

/// The units of a function by their positions in its graph, and how they follow one another.
#[derive(Debug, Drop)]
pub struct Plan {
    /// The addresses of the units, rising.
    pub addresses: Vec<u32>,
    /// For each position those that may follow it.
    pub table: Vec<List<usize>>,
    /// For each position those that it may follow.
    pub reverse: Vec<List<usize>>,
    /// The position of the first unit.
    pub entry: usize,
}

/// What is found of the loops of a function.
#[derive(Debug, Drop)]
pub enum Found {
    /// The least position on a cycle without back arcs.
    Irregular(usize),
    /// Each cycle has a back arc.
    Regular(Listed),
}

ghost use Rattle.loop_nest.specs.Arcs.{AreBacks, AreKept};
ghost use Rattle.loop_nest.specs.Plans.{AreRegular, IsCrossed, IsFound, IsIrregularAt, IsPlan};
ghost use Rattle.loop_nest.specs.Ranks.{AreRanks};
ghost use Rattle.step_table.specs.Table.{IsWithin};

/// The plan of a graph, in time in proportion to its arcs but for a search of the addresses for each.
pub fn plan_of(alloc: Global, graph: &Graph) -> Result<Plan, AllocError>
    requires { HasImage graph.now }
    ensures { IfOk result (IsPlan graph.now) }
{
    let units = graph.units.as_slice();
    let addresses = addresses_of(alloc, units)?;
    let Some(entry) = position_of(&addresses, graph.entry) else {
        unreachable!();
    };
    let table = table_of(alloc, &addresses, units)?;
    let reverse = reverse_of(alloc, &table)?;
    Ok(Plan {
        addresses,
        table,
        reverse,
        entry,
    })
}

/// The loops of a graph, whose back arcs come from these sources and are all steps that don't fall in rank.
fn regular_loops(
    alloc: Global,
    graph: &Graph,
    plan: &Plan,
    ranks: &[usize],
    sources: &[List<usize>],
    recorded: &BTreeMap<u64, u32>,
) -> Result<Listed, AllocError>
    requires plan { IsPlan graph.now plan.now }
    requires ranks { AreRanks plan.now.table.items plan.now.entry ranks.now }
    requires backs { AreBacks plan.now.table.items plan.now.entry sources.now }
    requires kept { AreKept plan.now.table.items plan.now.entry ranks.now }
    requires sources { IsWithin sources.now }
    ensures { IfOk result (AreRegular graph.now plan.now (get nat_cmp recorded.now)) }
{
    let units = graph.units.as_slice();
    let innermost = innermost_of(alloc, &plan.reverse, sources, ranks)?;
    let bounds = bounds_of(alloc, units, &innermost, recorded)?;
    let listed = list_loops(alloc, &plan.addresses, &plan.reverse, sources, &bounds)?;
    Ok(listed)
}

/// The least position on a cycle without back arcs, where some step that doesn't fall in rank is none.
fn irregular_of(alloc: Global, plan: &Plan, steps: &[List<usize>]) -> Result<usize, AllocError>
    requires { IsCrossed plan.now steps.now }
    ensures { IfOk result (IsIrregularAt plan.now) }
{
    let backs = backs_of(alloc, &plan.table, &plan.reverse, steps, plan.entry)?;
    match first_irregular(alloc, &plan.table, &backs)? {
        Some(position) => Ok(position),
        None => unreachable!(),
    }
}

/// What is found of the loops of a graph.
pub fn find_in(
    alloc: Global,
    graph: &Graph,
    plan: &Plan,
    recorded: &BTreeMap<u64, u32>,
) -> Result<Found, AllocError>
    requires { IsPlan graph.now plan.now }
    ensures { IfOk result (IsFound graph.now plan.now (get nat_cmp recorded.now)) }
{
    let ranks = ranks_of(alloc, &plan.table, plan.entry)?;
    let steps = retreats_of(alloc, &plan.reverse, &ranks)?;
    if are_backs(alloc, &plan.reverse, &steps, plan.entry)? {
        let listed = regular_loops(alloc, graph, plan, &ranks, &steps, recorded)?;
        return Ok(Found::Regular(listed));
    }
    let position = irregular_of(alloc, plan, &steps)?;
    Ok(Found::Irregular(position))
}
