//! Counts of the greatest value of the program of a nested net.

ghost use Rattle.std.specs.Prelude.{◌≡◌, ℕ, ◌+◌, ◌-◌, ◌<◌, ◌≤◌, ◌++◌, ◌^◌, IfOk, OnOk, length};
ghost use Rattle.flow_net.specs.Nested.{IsNested};
ghost use Rattle.nest_solver.specs.Answers.{AreGreatest, count_at, counts_to};
ghost use Rattle.nest_solver.specs.Nets.{IsProgramOfNet, entry};
ghost use Rattle.nest_solver.specs.Plain.{AreTables, plain};
ghost use Rattle.nest_solver.specs.Shown.{CountsFrom, SomeProgram};
ghost use Rattle.nest_solver.specs.Tables.{IsFew};

use crate::put_back::put_back;
use crate::reads::target;
use crate::solve::solve_all;
use crate::tables::{Tables, tables_of};
use crate::values::{deepest_of, values_of};
use crate::walk::walk;
use flow_net::Net;
use ipet_program::{Count, Program};
use std::alloc::{AllocError, Global};
use wcet_io::List;

/// Lists the count of a column, unless it is 0.
fn list(column: usize, number: u64, counts: &mut List<Count>) -> Result<(), AllocError>
    requires column { column ≤ 2 ^ 28 }
    ensures listed { OnOk result (counts.new ≡ counts.old ++ count_at column number) }
{
    if number == 0 {
        return Ok(());
    }
    counts.push(Count {
        column: column as u32,
        number,
    })?;
    Ok(())
}

/// The counts of all columns that aren't 0, by rising column.
fn list_all(alloc: Global, counts: &[u64]) -> Result<List<Count>, AllocError>
    requires some { 0 < length counts.now }
    requires few { length counts.now ≤ 2 ^ 28 + 1 }
    ensures listed { IfOk result (λ listed. listed ≡ counts_to (entry counts.now) (length counts.now - 1)) }
{
    let mut listed = List::new(alloc);
    for column in 1..counts.len() {
        list(column, counts[column], &mut listed)?;
    }
    Ok(listed)
}

/// Counts the arcs of the longest run, by the values of the arcs and the given rooms.
fn count_all(
    net: &Net,
    tables: &Tables,
    deepest: usize,
    weights: &mut [u64],
    turns: &mut [u64],
    up: &mut [usize],
    best: &mut [u64],
    choice: &mut [usize],
    often: &mut [u64],
    counts: &mut [u64],
)
    requires nested { IsNested net.now }
    requires few { IsFew net.now }
    requires tables { AreTables net.now tables.now }
    requires deep { deepest ≤ length net.now.loops + 1 }
    requires deepest { (scope : ℕ) → entry tables.now.scopes.depths.items scope ≤ deepest }
    requires up { length up.old ≡ length net.now.loops + 1 }
    requires weights { length weights.old ≡ length net.now.arcs + 1 }
    requires turns { length turns.old ≡ length net.now.loops + 1 }
    requires best { length best.old ≡ length net.now.places + 1 }
    requires choice { length choice.old ≡ length net.now.places + 1 }
    requires often { length often.old ≡ length net.now.loops + 1 }
    requires counts { length counts.old ≡ length net.now.arcs + 1 }
    requires fresh { (i : ℕ) → entry counts.old i ≡ 0 }
    requires levels { SomeProgram net.now tables.now (entry weights.old) (entry turns.old) (deepest + 1) }
    ensures count { length counts.new ≡ length net.now.arcs + 1 }
    ensures greatest { CountsFrom net.now tables.now (entry weights.old) (entry turns.old) (deepest + 1)
        (counts_to (entry counts.new) (length net.now.arcs)) }
{
    solve_all(net, tables, deepest, weights, turns, up, best, choice);
    counts[1] = 1;
    walk(net, tables, 0, choice, target(net, 1), 1, counts);
    put_back(
        net, tables, deepest, weights, turns, up, best, choice, often, counts,
    );
}

/// The counts of the longest run, by the values of the arcs and the given rooms.
fn count(
    alloc: Global,
    net: &Net,
    tables: &Tables,
    deepest: usize,
    weights: &mut [u64],
    turns: &mut [u64],
    up: &mut [usize],
    best: &mut [u64],
    choice: &mut [usize],
    often: &mut [u64],
    counts: &mut [u64],
) -> Result<List<Count>, AllocError>
    requires nested { IsNested net.now }
    requires few { IsFew net.now }
    requires tables { AreTables net.now tables.now }
    requires deep { deepest ≤ length net.now.loops + 1 }
    requires deepest { (scope : ℕ) → entry tables.now.scopes.depths.items scope ≤ deepest }
    requires up { length up.old ≡ length net.now.loops + 1 }
    requires weights { length weights.old ≡ length net.now.arcs + 1 }
    requires turns { length turns.old ≡ length net.now.loops + 1 }
    requires best { length best.old ≡ length net.now.places + 1 }
    requires choice { length choice.old ≡ length net.now.places + 1 }
    requires often { length often.old ≡ length net.now.loops + 1 }
    requires counts { length counts.old ≡ length net.now.arcs + 1 }
    requires fresh { (i : ℕ) → entry counts.old i ≡ 0 }
    requires levels { SomeProgram net.now tables.now (entry weights.old) (entry turns.old) (deepest + 1) }
    ensures greatest { IfOk result (λ listed. CountsFrom net.now tables.now (entry weights.old) (entry turns.old)
        (deepest + 1) listed) }
{
    count_all(
        net, tables, deepest, weights, turns, up, best, choice, often, counts,
    );
    let listed = list_all(alloc, counts)?;
    Ok(listed)
}

/// Counts of the greatest value of the program of a nested net: those above 0, by rising column.
///
/// It takes a step for each arc and each depth of the loops.
#[tactic(auto, using(crate::proofs::Few::few_of))]
pub fn nest_counts(alloc: Global, program: &Program, net: &Net) -> Result<List<Count>, AllocError>
    requires nested { IsNested net.now }
    requires few { length net.now.arcs ≤ 2 ^ 28 }
    requires program { IsProgramOfNet net.now program.now }
    ensures greatest { IfOk result (λ counts. AreGreatest program.now counts) }
{
    let places = net.places.as_slice().len() + 1;
    let scopes = net.loops.as_slice().len() + 1;
    let arcs = net.arcs.as_slice().len() + 1;
    let tables = tables_of(alloc, net)?;
    let deepest = deepest_of(&tables.scopes.depths);
    let mut weights = values_of(alloc, program)?;
    let mut turns = vec![in alloc; 0; scopes]?;
    let mut up = vec![in alloc; 0; scopes]?;
    let mut best = vec![in alloc; 0; places]?;
    let mut choice = vec![in alloc; 0; places]?;
    let mut often = vec![in alloc; 0; scopes]?;
    let mut counts = vec![in alloc; 0; arcs]?;
    let listed = count(
        alloc,
        net,
        &tables,
        deepest,
        &mut weights,
        &mut turns,
        &mut up,
        &mut best,
        &mut choice,
        &mut often,
        &mut counts,
    )?;
    Ok(listed)
}
