//! Levels solved one after the other, the deepest first.

ghost use Rattle.std.specs.Prelude.{◌≡◌, ℕ, ◌+◌, ◌-◌, ◌<◌, ◌≤◌, length};
ghost use Rattle.flow_net.specs.Nested.{IsNested};
ghost use Rattle.ipet_program.specs.Programs.{crude_limit};
ghost use Rattle.nest_solver.specs.Levels.{AreLevels, IsRoomy, SomeLevels};
ghost use Rattle.nest_solver.specs.Nets.{AreUp, entry, round_by};
ghost use Rattle.nest_solver.specs.Plain.{AreTables, plain};
ghost use Rattle.nest_solver.specs.Tables.{IsFew};
ghost use Rattle.nest_solver.specs.Ways.{IsSwept};

use crate::reads::target;
use crate::sweep::sweep;
use crate::tables::Tables;
use crate::turns::{add_turns, note_turns};
use crate::up::up_of;
use flow_net::Net;

/// Finds the loops of a depth round the scopes, and the longest ways inside them.
pub fn level(
    net: &Net,
    tables: &Tables,
    depth: usize,
    weights: &[u64],
    up: &mut [usize],
    best: &mut [u64],
    choice: &mut [usize],
)
    requires nested { IsNested net.now }
    requires few { IsFew net.now }
    requires tables { AreTables net.now tables.now }
    requires up { length up.old ≡ length net.now.loops + 1 }
    requires weights { length weights.now ≡ length net.now.arcs + 1 }
    requires best { length best.old ≡ length net.now.places + 1 }
    requires choice { length choice.old ≡ length net.now.places + 1 }
    requires roomy { IsRoomy (plain net.now tables.now) (entry weights.now) depth }
    ensures up { AreUp net.now (entry tables.now.scopes.depths.items) depth (entry up.new) }
    ensures swept { IsSwept (plain net.now tables.now) depth (round_by net.now (entry up.new)) (entry weights.now)
        (entry best.new) (entry choice.new) }
    ensures small { (p : ℕ) → entry best.new p ≤ crude_limit + 1 }
{
    up_of(net, &tables.scopes, depth, up);
    sweep(net, tables, depth, up, weights, best, choice);
}

/// Solves the loops of a depth, once all deeper ones are solved.
fn solve_level(
    net: &Net,
    tables: &Tables,
    depth: usize,
    weights: &mut [u64],
    turns: &mut [u64],
    up: &mut [usize],
    best: &mut [u64],
    choice: &mut [usize],
)
    requires nested { IsNested net.now }
    requires few { IsFew net.now }
    requires tables { AreTables net.now tables.now }
    requires depth { 0 < depth }
    requires up { length up.old ≡ length net.now.loops + 1 }
    requires weights { length weights.old ≡ length net.now.arcs + 1 }
    requires turns { length turns.old ≡ length net.now.loops + 1 }
    requires best { length best.old ≡ length net.now.places + 1 }
    requires choice { length choice.old ≡ length net.now.places + 1 }
    requires levels { SomeLevels (plain net.now tables.now) (entry weights.old) (entry turns.old) (depth + 1) }
    ensures levels { (price : ℕ → ℕ) → AreLevels (plain net.now tables.now) price (entry weights.old) (entry turns.old)
        (depth + 1)
        → AreLevels (plain net.now tables.now) price (entry weights.new) (entry turns.new) depth }
{
    level(net, tables, depth, weights, up, best, choice);
    note_turns(net, tables, depth, best, turns);
    add_turns(net, tables, depth, turns, weights);
}

/// Solves the loops of a depth and of all lesser ones.
pub fn solve(
    net: &Net,
    tables: &Tables,
    deepest: usize,
    weights: &mut [u64],
    turns: &mut [u64],
    up: &mut [usize],
    best: &mut [u64],
    choice: &mut [usize],
)
    requires nested { IsNested net.now }
    requires few { IsFew net.now }
    requires tables { AreTables net.now tables.now }
    requires up { length up.old ≡ length net.now.loops + 1 }
    requires weights { length weights.old ≡ length net.now.arcs + 1 }
    requires turns { length turns.old ≡ length net.now.loops + 1 }
    requires best { length best.old ≡ length net.now.places + 1 }
    requires choice { length choice.old ≡ length net.now.places + 1 }
    requires levels { SomeLevels (plain net.now tables.now) (entry weights.old) (entry turns.old) (deepest + 1) }
    ensures levels { (price : ℕ → ℕ) → AreLevels (plain net.now tables.now) price (entry weights.old) (entry turns.old)
        (deepest + 1)
        → AreLevels (plain net.now tables.now) price (entry weights.new) (entry turns.new) 1 }
{
    let mut depth = deepest;
    while depth > 0 {
        solve_level(net, tables, depth, weights, turns, up, best, choice);
        depth -= 1;
    }
}

/// Solves the loops of all depths, then finds the longest ways out: the greatest value of a run.
pub fn solve_all(
    net: &Net,
    tables: &Tables,
    deepest: usize,
    weights: &mut [u64],
    turns: &mut [u64],
    up: &mut [usize],
    best: &mut [u64],
    choice: &mut [usize],
) -> u64
    requires nested { IsNested net.now }
    requires few { IsFew net.now }
    requires tables { AreTables net.now tables.now }
    requires deep { deepest ≤ length net.now.loops + 1 }
    requires up { length up.old ≡ length net.now.loops + 1 }
    requires weights { length weights.old ≡ length net.now.arcs + 1 }
    requires turns { length turns.old ≡ length net.now.loops + 1 }
    requires best { length best.old ≡ length net.now.places + 1 }
    requires choice { length choice.old ≡ length net.now.places + 1 }
    requires levels { SomeLevels (plain net.now tables.now) (entry weights.old) (entry turns.old) (deepest + 1) }
    ensures levels { (price : ℕ → ℕ) → AreLevels (plain net.now tables.now) price (entry weights.old) (entry turns.old)
        (deepest + 1)
        → AreLevels (plain net.now tables.now) price (entry weights.new) (entry turns.new) 1 }
    ensures up { AreUp net.now (entry tables.now.scopes.depths.items) 0 (entry up.new) }
    ensures swept { IsSwept (plain net.now tables.now) 0 (round_by net.now (entry up.new)) (entry weights.new)
        (entry best.new) (entry choice.new) }
    ensures small { (p : ℕ) → entry best.new p ≤ crude_limit + 1 }
    ensures total { result ≡ entry weights.new 1 + entry best.new ((plain net.now tables.now).to 1) - 1 }
{
    solve(net, tables, deepest, weights, turns, up, best, choice);
    level(net, tables, 0, weights, up, best, choice);
    weights[1] + best[target(net, 1)] - 1
}
