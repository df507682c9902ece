//! The greatest value of the program of a nested net.

ghost use Rattle.std.specs.Prelude.{◌≡◌, ℕ, ◌+◌, ◌≤◌, ◌^◌, IfOk, length};
ghost use Rattle.flow_net.specs.Nested.{IsNested};
ghost use Rattle.nest_solver.specs.Answers.{ShowsGreatest};
ghost use Rattle.nest_solver.specs.Bases.{AreRanks};
ghost use Rattle.nest_solver.specs.Levels.{SomeLevels};
ghost use Rattle.nest_solver.specs.Nets.{IsProgramOfNet, entry};
ghost use Rattle.nest_solver.specs.Plain.{AreTables, plain};
ghost use Rattle.nest_solver.specs.Shown.{ShowsFrom};
ghost use Rattle.nest_solver.specs.Tables.{IsFew};

use crate::base::{latest_of, note_bases};
use crate::leaf::leaf_of;
use crate::raise::raise_all;
use crate::solve::solve_all;
use crate::tables::{Tables, tables_of};
use crate::values::{deepest_of, values_of};
use flow_net::Net;
use ipet_program::{Leaf, Program};
use std::alloc::{AllocError, Global};

/// The leaf that shows the greatest value, by the values of the arcs and the given rooms.
fn show(
    alloc: Global,
    net: &Net,
    tables: &Tables,
    latest: &[usize],
    deepest: usize,
    weights: &mut [u64],
    turns: &mut [u64],
    up: &mut [usize],
    best: &mut [u64],
    choice: &mut [usize],
    worths: &mut [u128],
) -> Result<Leaf, AllocError>
    requires nested { IsNested net.now }
    requires few { IsFew net.now }
    requires tables { AreTables net.now tables.now }
    requires latest { length latest.now ≡ length net.now.places + 1 }
    requires ranks { AreRanks net.now tables.now (entry latest.now) }
    requires deep { deepest ≤ length net.now.loops + 1 }
    requires deepest { (scope : ℕ) → entry tables.now.scopes.depths.items scope ≤ deepest }
    requires up { length up.old ≡ length net.now.loops + 1 }
    requires weights { length weights.old ≡ length net.now.arcs + 1 }
    requires turns { length turns.old ≡ length net.now.loops + 1 }
    requires best { length best.old ≡ length net.now.places + 1 }
    requires choice { length choice.old ≡ length net.now.places + 1 }
    requires worths { length worths.old ≡ length net.now.places + 1 }
    requires levels { SomeLevels (plain net.now tables.now) (entry weights.old) (entry turns.old) (deepest + 1) }
    ensures shows { IfOk result (λ leaf. ShowsFrom net.now tables.now (entry weights.old) (entry turns.old)
        (deepest + 1) leaf) }
{
    let total = solve_all(net, tables, deepest, weights, turns, up, best, choice);
    note_bases(net, latest, best, worths);
    raise_all(
        net, tables, deepest, weights, turns, up, best, choice, worths,
    );
    let leaf = leaf_of(alloc, net.places.as_slice().len(), total, worths, turns)?;
    Ok(leaf)
}

/// The leaf that shows the greatest value of the program of a nested net: with no cut, and whole multipliers, that of
/// row 1 is the value.
///
/// It takes a step for each arc and each depth of the loops.
#[tactic(auto, using(crate::proofs::Few::few_of))]
pub fn nest_bound(alloc: Global, program: &Program, net: &Net) -> Result<Leaf, AllocError>
    requires nested { IsNested net.now }
    requires few { length net.now.arcs ≤ 2 ^ 28 }
    requires program { IsProgramOfNet net.now program.now }
    ensures shows { IfOk result (λ leaf. ShowsGreatest program.now leaf) }
{
    let places = net.places.as_slice().len() + 1;
    let scopes = net.loops.as_slice().len() + 1;
    let tables = tables_of(alloc, net)?;
    let latest = latest_of(alloc, net, &tables)?;
    let deepest = deepest_of(&tables.scopes.depths);
    let mut weights = values_of(alloc, program)?;
    let mut turns = vec![in alloc; 0; scopes]?;
    let mut up = vec![in alloc; 0; scopes]?;
    let mut best = vec![in alloc; 0; places]?;
    let mut choice = vec![in alloc; 0; places]?;
    let mut worths = vec![in alloc; 0; places]?;
    let leaf = show(
        alloc,
        net,
        &tables,
        &latest,
        deepest,
        &mut weights,
        &mut turns,
        &mut up,
        &mut best,
        &mut choice,
        &mut worths,
    )?;
    Ok(leaf)
}
