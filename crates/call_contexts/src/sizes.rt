//! How many contexts and places a program has.

ghost use Rattle.std.specs.Prelude.{◌≡◌, ◌<◌, ◌+◌, ℕ, All, IfOk, length, sum_by};
ghost use Rattle.step_table.specs.Numbers.{number_of};
ghost use Rattle.step_table.specs.Table.{IsWithin};
ghost use Rattle.call_contexts.specs.Counting.{AreToldAll, IsAcyclic, IsFinished, IsToldFirst, ones_for, steps_in};
ghost use Rattle.call_contexts.specs.Counting.{steps_of, told_of, unit_counts};

use crate::calls::{Called, call_lists};
use std::alloc::{AllocError, Global};
use step_table::{order_of, steps_at};
use unit_graph::Graph;
use wcet_io::List;

/// The greatest number that is told.
const MOST_TOLD: u64 = 1 << 63;

/// The sum of two numbers, or 2^63 where it is more.
fn sum_told(a: u64, b: u64) -> u64
    ensures { result ≡ told_of (a + b) }
{
    a.saturating_add(b).min(MOST_TOLD)
}

/// A number and those at the positions to which steps go, taken together, or 2^63 where these are more.
fn total_told(first: u64, told: &[u64], steps: &[usize]) -> u64
    requires { All (λ to. to < length told.now) steps.now }
    ensures { result ≡ told_of (first + sum_by (number_of told.now) steps.now) }
{
    let mut total = sum_told(first, 0);
    for step in steps {
        total = sum_told(total, told[*step]);
    }
    total
}

/// Of each position of a table the total of its own number and those of the positions to which its steps go,
/// each at most 2^63. It takes one sum for each step.
fn totals_told(
    alloc: Global,
    table: &[List<usize>],
    order: &[usize],
    own: &[u64],
) -> Result<Vec<u64>, AllocError>
    requires within { IsWithin table.now }
    requires finished { IsFinished table.now order.now }
    requires count { length own.now ≡ length table.now }
    ensures count { IfOk result (λ told. length told.items ≡ length table.now) }
    ensures told { IfOk result (λ told. AreToldAll table.now own.now told.items) }
{
    let mut told = vec![in alloc; 0; table.len()]?;
    for position in order {
        told[*position] = total_told(own[*position], &told, steps_at(table, *position));
    }
    Ok(told)
}

/// The total of the first position of a table, told as at most 2^63.
fn first_told(
    alloc: Global,
    table: &[List<usize>],
    order: &[usize],
    own: &[u64],
) -> Result<u64, AllocError>
    requires some { 0 < length table.now }
    requires within { IsWithin table.now }
    requires finished { IsFinished table.now order.now }
    requires count { length own.now ≡ length table.now }
    ensures { IfOk result (IsToldFirst table.now own.now) }
{
    let told = totals_told(alloc, table, order, own)?;
    Ok(told[0])
}

/// The positions of a table, each behind those to which its steps go.
fn steps_first(alloc: Global, table: &[List<usize>]) -> Result<Vec<usize>, AllocError>
    requires within { IsWithin table.now }
    requires acyclic { IsAcyclic table.now }
    ensures { IfOk result (λ order. IsFinished table.now order.items) }
{
    order_of(alloc, table)
}

/// The positions of the graphs to which calls go.
fn steps_in(alloc: Global, calls: &[Called]) -> Result<List<usize>, AllocError>
    ensures { IfOk result (λ steps. steps ≡ steps_in calls.now) }
{
    let steps = calls.iter().map(|called| called.graph).collect(alloc)?;
    Ok(List::from_vec(steps))
}

/// For each list of calls the positions to which they go.
fn steps_of(alloc: Global, lists: &[List<Called>]) -> Result<Vec<List<usize>>, AllocError>
    ensures { IfOk result (λ table. table.items ≡ steps_of lists.now) }
{
    let mut table = Vec::new(alloc);
    for calls in lists {
        table.push(steps_in(alloc, calls.as_slice())?)?;
    }
    Ok(table)
}

/// How many units each graph has.
fn unit_counts(alloc: Global, graphs: &[Graph]) -> Result<Vec<u64>, AllocError>
    ensures { IfOk result (λ counts. counts.items ≡ unit_counts graphs.now) }
{
    graphs
        .iter()
        .map(|graph| graph.units.as_slice().len() as u64)
        .collect(alloc)
}

/// How many contexts and places there are, each told as at most 2^63.
#[derive(Clone, Copy, Debug)]
pub struct Sizes {
    pub contexts: u64,
    pub places: u64,
}

/// How many contexts and places the first graph makes, from the units of the graphs and their calls.
///
/// The functions are counted one after the other, each behind those that it calls.
pub fn sizes_told(alloc: Global, units: &[u64], lists: &[List<Called>]) -> Result<Sizes, AllocError>
    requires some { 0 < length lists.now }
    requires count { length units.now ≡ length lists.now }
    requires within { IsWithin (steps_of lists.now) }
    requires acyclic { IsAcyclic (steps_of lists.now) }
    ensures contexts { IfOk result (λ sizes. IsToldFirst (steps_of lists.now) (ones_for lists.now) sizes.contexts) }
    ensures places { IfOk result (λ sizes. IsToldFirst (steps_of lists.now) units.now sizes.places) }
{
    let table = steps_of(alloc, lists)?;
    let order = steps_first(alloc, &table)?;
    let ones = vec![in alloc; 1; lists.len()]?;
    let contexts = first_told(alloc, &table, &order, &ones)?;
    let places = first_told(alloc, &table, &order, units)?;
    Ok(Sizes { contexts, places })
}

ghost use Rattle.call_contexts.specs.Counted.{IsCounted};
ghost use Rattle.call_contexts.specs.Layout.{HaveProgram};

/// The calls of graphs, their units, and how much they make.
#[derive(Drop)]
pub struct Counted {
    /// For each graph its calls.
    pub lists: Vec<List<Called>>,
    /// For each graph the number of its units.
    pub units: Vec<u64>,
    /// How many contexts and places the first graph makes.
    pub sizes: Sizes,
}

/// The calls of a program's graphs, their units, and how many contexts and places the first graph makes.
pub fn count_all(alloc: Global, graphs: &[Graph]) -> Result<Counted, AllocError>
    requires { HaveProgram (record { graphs = graphs.now }) }
    ensures { IfOk result (λ counted. IsCounted graphs.now counted) }
{
    let lists = call_lists(alloc, graphs)?;
    let units = unit_counts(alloc, graphs)?;
    let sizes = sizes_told(alloc, &units, &lists)?;
    Ok(Counted {
        lists,
        units,
        sizes,
    })
}
