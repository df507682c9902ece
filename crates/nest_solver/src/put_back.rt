//! The turns of the loops of one depth are put back into the counts.

ghost use Rattle.std.specs.Prelude.{◌≡◌, ℕ, ◌+◌, ◌-◌, ◌<◌, ◌≤◌, List, length};
ghost use Rattle.flow_net.specs.Nested.{IsNested};
ghost use Rattle.nest_solver.specs.Begun.{IsAtTurn, IsBegun, IsReady, SomeBegun, SomeReady, SomeTurn};
ghost use Rattle.nest_solver.specs.Nets.{entry};
ghost use Rattle.nest_solver.specs.Plain.{AreTables, plain};
ghost use Rattle.nest_solver.specs.Counted.{entered};
ghost use Rattle.nest_solver.specs.Putting.{IsCountedTo, IsPutting};
ghost use Rattle.nest_solver.specs.Shape.{IsUpTo};
ghost use Rattle.nest_solver.specs.Solved.{weight_of};
ghost use Rattle.nest_solver.specs.Tables.{IsFew};

use crate::entered::note_entered;
use crate::reads::{bound, header};
use crate::solve::level;
use crate::tables::Tables;
use crate::walk::walk;
use flow_net::Net;

/// Puts the turn of a loop instance back, bound - 1 times as often as it is entered.
fn put_turn(
    net: &Net,
    tables: &Tables,
    depth: usize,
    best: &[u64],
    choice: &[usize],
    often: &[u64],
    scope: usize,
    counts: &mut [u64],
)
    requires nested { IsNested net.now }
    requires few { IsFew net.now }
    requires tables { AreTables net.now tables.now }
    requires best { length best.now ≡ length net.now.places + 1 }
    requires choice { length choice.now ≡ length net.now.places + 1 }
    requires often { length often.now ≡ length net.now.loops + 1 }
    requires counts { length counts.old ≡ length net.now.arcs + 1 }
    requires scope { IsUpTo (length net.now.loops) scope }
    requires deep { entry tables.now.scopes.depths.items scope ≡ depth }
    requires turn { SomeTurn (plain net.now tables.now) depth scope (entry best.now) (entry choice.now)
        (entry often.now)
        (entry counts.old) }
    ensures put { (value turns start : ℕ → ℕ) (path : List ℕ) (total next : ℕ) →
        IsAtTurn (plain net.now tables.now) value turns path total depth scope (entry best.now) (entry choice.now)
        (entry often.now) start (entry counts.old) →
        next < scope →
        ((l : ℕ) → IsUpTo (length net.now.loops) l → entry tables.now.scopes.depths.items l ≡ depth → next < l →
        l < scope → ⊥) →
        IsPutting (plain net.now tables.now) (weight_of (plain net.now tables.now) value turns) turns start depth next
        (entry counts.new) }
{
    let head = header(net, scope);
    if best[head] == 0 {
        return;
    }
    let more = u64::from(bound(net, scope) - 1) * often[scope];
    walk(net, tables, depth, choice, head, more, counts);
}

/// Puts the turns of the loop instances of a depth back.
fn put_level(
    net: &Net,
    tables: &Tables,
    depth: usize,
    best: &[u64],
    choice: &[usize],
    often: &[u64],
    counts: &mut [u64],
)
    requires nested { IsNested net.now }
    requires few { IsFew net.now }
    requires tables { AreTables net.now tables.now }
    requires depth { depth < length net.now.loops + 2 }
    requires best { length best.now ≡ length net.now.places + 1 }
    requires choice { length choice.now ≡ length net.now.places + 1 }
    requires often { length often.now ≡ length net.now.loops + 1 }
    requires counts { length counts.old ≡ length net.now.arcs + 1 }
    requires enters { (l : ℕ) → IsUpTo (length net.now.loops) l →
        entry often.now l ≡ entered (plain net.now tables.now) (entry counts.old) l }
    requires begun { SomeBegun (plain net.now tables.now) depth (entry best.now) (entry choice.now) (entry counts.old) }
    ensures counted { (value turns : ℕ → ℕ) (path : List ℕ) (total : ℕ) →
        IsBegun (plain net.now tables.now) value turns path total depth (entry best.now) (entry choice.now)
        (entry counts.old) →
        IsCountedTo (plain net.now tables.now) (weight_of (plain net.now tables.now) value turns) turns path depth
        (entry counts.new) }
{
    let mut scope = tables.scopes.heads[depth];
    while scope != 0 {
        put_turn(net, tables, depth, best, choice, often, scope, counts);
        scope = tables.scopes.next[scope];
    }
}

/// Finds the turns of the loop instances of a depth again, and puts them back.
fn put_depth(
    net: &Net,
    tables: &Tables,
    depth: usize,
    weights: &[u64],
    turns: &[u64],
    up: &mut [usize],
    best: &mut [u64],
    choice: &mut [usize],
    often: &mut [u64],
    counts: &mut [u64],
)
    requires nested { IsNested net.now }
    requires few { IsFew net.now }
    requires tables { AreTables net.now tables.now }
    requires low { 0 < depth }
    requires depth { depth < length net.now.loops + 2 }
    requires weights { length weights.now ≡ length net.now.arcs + 1 }
    requires up { length up.old ≡ length net.now.loops + 1 }
    requires best { length best.old ≡ length net.now.places + 1 }
    requires choice { length choice.old ≡ length net.now.places + 1 }
    requires often { length often.old ≡ length net.now.loops + 1 }
    requires counts { length counts.old ≡ length net.now.arcs + 1 }
    requires ready { SomeReady (plain net.now tables.now) (entry weights.now) (entry turns.now) (depth - 1)
        (entry counts.old) }
    ensures ready { (price : ℕ → ℕ) (path : List ℕ) (total : ℕ) →
        IsReady (plain net.now tables.now) price (entry weights.now) (entry turns.now) path total (depth - 1)
        (entry counts.old) →
        IsReady (plain net.now tables.now) price (entry weights.now) (entry turns.now) path total depth
        (entry counts.new) }
{
    level(net, tables, depth, weights, up, best, choice);
    note_entered(net, tables, counts, often);
    put_level(net, tables, depth, best, choice, often, counts);
}

/// Puts the turns of all loop instances down to a depth back, those of each depth after those of the lesser ones.
pub fn put_back(
    net: &Net,
    tables: &Tables,
    deepest: usize,
    weights: &[u64],
    turns: &[u64],
    up: &mut [usize],
    best: &mut [u64],
    choice: &mut [usize],
    often: &mut [u64],
    counts: &mut [u64],
)
    requires nested { IsNested net.now }
    requires few { IsFew net.now }
    requires tables { AreTables net.now tables.now }
    requires deepest { deepest < length net.now.loops + 2 }
    requires weights { length weights.now ≡ length net.now.arcs + 1 }
    requires up { length up.old ≡ length net.now.loops + 1 }
    requires best { length best.old ≡ length net.now.places + 1 }
    requires choice { length choice.old ≡ length net.now.places + 1 }
    requires often { length often.old ≡ length net.now.loops + 1 }
    requires counts { length counts.old ≡ length net.now.arcs + 1 }
    requires ready { SomeReady (plain net.now tables.now) (entry weights.now) (entry turns.now) 0 (entry counts.old) }
    ensures ready { (price : ℕ → ℕ) (path : List ℕ) (total : ℕ) →
        IsReady (plain net.now tables.now) price (entry weights.now) (entry turns.now) path total 0
        (entry counts.old) →
        IsReady (plain net.now tables.now) price (entry weights.now) (entry turns.now) path total deepest
        (entry counts.new) }
{
    for depth in 1..deepest + 1 {
        put_depth(
            net, tables, depth, weights, turns, up, best, choice, often, counts,
        );
    }
}
