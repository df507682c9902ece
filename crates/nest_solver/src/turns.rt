//! The turns of the loops of one depth, and what the arcs that enter them weigh with these.

ghost use Rattle.std.specs.Prelude.{◌≡◌, ℕ, ◌+◌, ◌<◌, ◌≤◌, length};
ghost use Rattle.flow_net.specs.Nested.{IsNested};
ghost use Rattle.ipet_program.specs.Programs.{crude_limit};
ghost use Rattle.nest_solver.specs.Levels.{extra};
ghost use Rattle.nest_solver.specs.Nets.{entry};
ghost use Rattle.nest_solver.specs.Plain.{AreTables, plain};
ghost use Rattle.nest_solver.specs.Shape.{IsUpTo};
ghost use Rattle.nest_solver.specs.Solved.{AreTurns, turned};
ghost use Rattle.nest_solver.specs.Tables.{IsFew};

use crate::reads::{bound, header, target};
use crate::tables::Tables;
use flow_net::Net;

/// The turn of a loop instance: the longest way from its header back to it where it lies at the depth, else what it
/// was.
fn turn_of(
    net: &Net,
    tables: &Tables,
    depth: usize,
    best: &[u64],
    turns: &[u64],
    scope: usize,
) -> u64
    requires nested { IsNested net.now }
    requires few { IsFew net.now }
    requires tables { AreTables net.now tables.now }
    requires scope { IsUpTo (length net.now.loops) scope }
    requires best { length best.now ≡ length net.now.places + 1 }
    requires turns { length turns.now ≡ length net.now.loops + 1 }
    ensures turn { result ≡ turned (plain net.now tables.now) depth (entry best.now) (entry turns.now) scope }
{
    if tables.scopes.depths[scope] != depth {
        return turns[scope];
    }
    best[header(net, scope)].saturating_sub(1)
}

/// Notes the turns of the loop instances of a depth.
pub fn note_turns(net: &Net, tables: &Tables, depth: usize, best: &[u64], turns: &mut [u64])
    requires nested { IsNested net.now }
    requires few { IsFew net.now }
    requires tables { AreTables net.now tables.now }
    requires best { length best.now ≡ length net.now.places + 1 }
    requires turns { length turns.old ≡ length net.now.loops + 1 }
    ensures turns { AreTurns (plain net.now tables.now) depth (entry best.now) (entry turns.old) (entry turns.new) }
{
    for scope in 1..net.loops.as_slice().len() + 1 {
        turns[scope] = turn_of(net, tables, depth, best, turns, scope);
    }
}

/// What the turns of a loop of the depth add to the weight of an arc: bound - 1 turns where the arc enters it.
fn extra_of(net: &Net, tables: &Tables, depth: usize, turns: &[u64], arc: usize) -> u64
    requires nested { IsNested net.now }
    requires few { IsFew net.now }
    requires tables { AreTables net.now tables.now }
    requires arc { IsUpTo (length net.now.arcs) arc }
    requires turns { length turns.now ≡ length net.now.loops + 1 }
    requires fits { extra (plain net.now tables.now) depth (entry turns.now) arc ≤ crude_limit }
    ensures extra { result ≡ extra (plain net.now tables.now) depth (entry turns.now) arc }
{
    let scope = tables.headed[target(net, arc)];
    if scope == 0 {
        return 0;
    }
    if tables.backs[arc] {
        return 0;
    }
    if tables.scopes.depths[scope] != depth {
        return 0;
    }
    u64::from(bound(net, scope) - 1) * turns[scope]
}

/// Adds the turns of the loops of a depth to the arcs that enter them.
pub fn add_turns(net: &Net, tables: &Tables, depth: usize, turns: &[u64], weights: &mut [u64])
    requires nested { IsNested net.now }
    requires few { IsFew net.now }
    requires tables { AreTables net.now tables.now }
    requires turns { length turns.now ≡ length net.now.loops + 1 }
    requires weights { length weights.old ≡ length net.now.arcs + 1 }
    requires fits { (i : ℕ) → IsUpTo (length net.now.arcs) i →
        entry weights.old i + extra (plain net.now tables.now) depth (entry turns.now) i ≤ crude_limit }
    ensures weights { (i : ℕ) → IsUpTo (length net.now.arcs) i →
        entry weights.new i ≡ entry weights.old i + extra (plain net.now tables.now) depth (entry turns.now) i }
{
    for arc in 1..net.arcs.as_slice().len() + 1 {
        weights[arc] += extra_of(net, tables, depth, turns, arc);
    }
}
