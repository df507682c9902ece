//! The longest ways of a level: inside the loops of one depth back to their headers, or at depth 0 to the end
//! of the run.

ghost use Rattle.std.specs.Prelude.{◌≡◌, ℕ, ◌+◌, ◌<◌, ◌≤◌, length};
ghost use Rattle.flow_net.specs.Nested.{IsNested};
ghost use Rattle.ipet_program.specs.Programs.{crude_limit};
ghost use Rattle.nest_solver.specs.Nets.{entry, round_by};
ghost use Rattle.nest_solver.specs.Plain.{AreTables, plain};
ghost use Rattle.nest_solver.specs.Shape.{IsUpTo};
ghost use Rattle.nest_solver.specs.Sweeps.{IsSoFar};
ghost use Rattle.nest_solver.specs.Tables.{IsFew};
ghost use Rattle.nest_solver.specs.Ways.{HasRoom, IsSwept, closes, goes_on, reach};

use crate::reads::{scope, source, target};
use crate::tables::Tables;
use flow_net::Net;

/// The loop of a level round a place, 0 for none.
pub fn round(net: &Net, up: &[usize], place: usize) -> usize
    requires nested { IsNested net.now }
    requires place { place ≤ length net.now.places }
    requires room { length up.now ≡ length net.now.loops + 1 }
    requires run { entry up.now 0 ≡ 0 }
    ensures round { result ≡ round_by net.now (entry up.now) place }
{
    if place == 0 {
        return 0;
    }
    up[scope(net, place)]
}

/// Whether an arc ends a way of a depth.
pub fn ends(net: &Net, tables: &Tables, depth: usize, arc: usize) -> bool
    requires nested { IsNested net.now }
    requires tables { AreTables net.now tables.now }
    requires arc { IsUpTo (length net.now.arcs) arc }
    ensures ends { result ≡ closes (plain net.now tables.now) depth arc }
{
    let to = target(net, arc);
    if to == 0 {
        return depth == 0;
    }
    if !tables.backs[arc] {
        return false;
    }
    let turned = tables.headed[to];
    tables.scopes.depths[turned] == depth
}

/// Whether a way of a depth goes on by an arc.
fn goes(net: &Net, tables: &Tables, depth: usize, up: &[usize], arc: usize) -> bool
    requires nested { IsNested net.now }
    requires tables { AreTables net.now tables.now }
    requires arc { IsUpTo (length net.now.arcs) arc }
    requires room { length up.now ≡ length net.now.loops + 1 }
    requires run { entry up.now 0 ≡ 0 }
    ensures goes { result ≡ goes_on (plain net.now tables.now) depth (round_by net.now (entry up.now)) arc }
{
    let from = source(net, arc);
    let to = target(net, arc);
    if from == 0 {
        return false;
    }
    if to == 0 {
        return false;
    }
    if tables.backs[arc] {
        return false;
    }
    if depth == 0 {
        return true;
    }
    let inside = round(net, up, from);
    if inside == 0 {
        return false;
    }
    inside == round(net, up, to)
}

/// What is known behind an arc: 1 where it ends a way, else what is known of the place that it goes to; 0 where no way
/// takes it.
fn behind(net: &Net, tables: &Tables, depth: usize, up: &[usize], best: &[u64], arc: usize) -> u64
    requires nested { IsNested net.now }
    requires tables { AreTables net.now tables.now }
    requires arc { IsUpTo (length net.now.arcs) arc }
    requires room { length up.now ≡ length net.now.loops + 1 }
    requires run { entry up.now 0 ≡ 0 }
    requires best { length best.now ≡ length net.now.places + 1 }
    ensures behind { result ≡ reach (plain net.now tables.now) depth (round_by net.now (entry up.now))
        (entry best.now) arc }
{
    if ends(net, tables, depth, arc) {
        return 1;
    }
    if !goes(net, tables, depth, up, arc) {
        return 0;
    }
    best[target(net, arc)]
}

/// Looks at an arc: where a longer way begins with it, it is chosen.
fn look_at(
    net: &Net,
    tables: &Tables,
    depth: usize,
    up: &[usize],
    weights: &[u64],
    at: usize,
    best: &mut [u64],
    choice: &mut [usize],
)
    requires nested { IsNested net.now }
    requires few { IsFew net.now }
    requires tables { AreTables net.now tables.now }
    requires at { at < length tables.now.order.arcs.items }
    requires room { length up.now ≡ length net.now.loops + 1 }
    requires run { entry up.now 0 ≡ 0 }
    requires weights { length weights.now ≡ length net.now.arcs + 1 }
    requires best { length best.old ≡ length net.now.places + 1 }
    requires choice { length choice.old ≡ length net.now.places + 1 }
    requires far { IsSoFar (plain net.now tables.now) depth (round_by net.now (entry up.now)) (entry weights.now)
        (entry best.old) (entry choice.old) (entry tables.now.order.positions.items) crude_limit at }
    ensures far { IsSoFar (plain net.now tables.now) depth (round_by net.now (entry up.now)) (entry weights.now)
        (entry best.new) (entry choice.new) (entry tables.now.order.positions.items) crude_limit (at + 1) }
{
    let arc = tables.order.arcs[at];
    let rest = behind(net, tables, depth, up, best, arc);
    if rest == 0 {
        return;
    }
    let way = weights[arc] + rest;
    let from = source(net, arc);
    if way <= best[from] {
        return;
    }
    best[from] = way;
    choice[from] = arc;
}

/// Makes each entry of a table 0.
pub fn clear(best: &mut [u64])
    ensures { (p : ℕ) → entry best.new p ≡ 0 }
{
    for way in best.iter_mut() {
        *way = 0;
    }
}

/// Finds the longest ways of a depth, in a step for each arc.
pub fn sweep(
    net: &Net,
    tables: &Tables,
    depth: usize,
    up: &[usize],
    weights: &[u64],
    best: &mut [u64],
    choice: &mut [usize],
)
    requires nested { IsNested net.now }
    requires few { IsFew net.now }
    requires tables { AreTables net.now tables.now }
    requires room { length up.now ≡ length net.now.loops + 1 }
    requires run { entry up.now 0 ≡ 0 }
    requires weights { length weights.now ≡ length net.now.arcs + 1 }
    requires best { length best.old ≡ length net.now.places + 1 }
    requires choice { length choice.old ≡ length net.now.places + 1 }
    requires fits { HasRoom (plain net.now tables.now) depth (round_by net.now (entry up.now))
        (entry weights.now) crude_limit }
    ensures swept { IsSwept (plain net.now tables.now) depth (round_by net.now (entry up.now)) (entry weights.now)
        (entry best.new) (entry choice.new) }
    ensures small { (p : ℕ) → entry best.new p ≤ crude_limit + 1 }
{
    clear(best);
    for at in 0..tables.order.arcs.len() {
        look_at(net, tables, depth, up, weights, at, best, choice);
    }
}
