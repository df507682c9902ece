//! Worths raised by the loops of one depth after the other.

ghost use Rattle.std.specs.Prelude.{◌≡◌, ℕ, ◌+◌, ◌-◌, ◌*◌, ◌^◌, ◌<◌, ◌≤◌, length};
ghost use Rattle.flow_net.specs.Nested.{IsNested};
ghost use Rattle.nest_solver.specs.Answers.{AreWorths};
ghost use Rattle.nest_solver.specs.Levels.{AreLevels, SomeLevels};
ghost use Rattle.nest_solver.specs.Plain.{IsTurnedSomewhere, IsUpSomewhere};
ghost use Rattle.nest_solver.specs.Nets.{AreUp, entry, round_by, value_at_end};
ghost use Rattle.nest_solver.specs.Plain.{AreTables, plain};
ghost use Rattle.nest_solver.specs.Shape.{IsUpTo};
ghost use Rattle.nest_solver.specs.Solved.{lifted, weight_of};
ghost use Rattle.nest_solver.specs.Tables.{IsFew};

use crate::reads::header;
use crate::solve::level;
use crate::sweep::round;
use crate::tables::Tables;
use flow_net::Net;

/// The worth of a place raised by the loop of the depth round it.
fn raised(
    net: &Net,
    tables: &Tables,
    up: &[usize],
    best: &[u64],
    turns: &[u64],
    worths: &[u128],
    place: usize,
) -> u128
    requires nested { IsNested net.now }
    requires few { IsFew net.now }
    requires tables { AreTables net.now tables.now }
    requires place { place ≤ length net.now.places }
    requires room { length up.now ≡ length net.now.loops + 1 }
    requires up { IsUpSomewhere net.now tables.now (entry up.now) }
    requires best { length best.now ≡ length net.now.places + 1 }
    requires short { (p : ℕ) → entry best.now p ≤ 2 ^ 63 }
    requires turns { length turns.now ≡ length net.now.loops + 1 }
    requires worths { length worths.now ≡ length net.now.places + 1 }
    requires small { (p : ℕ) → entry worths.now p ≤ 2 ^ 120 }
    ensures raised { result ≡ lifted (plain net.now tables.now) (round_by net.now (entry up.now)) (entry best.now)
        (entry turns.now) (entry worths.now) place }
{
    let worth = worths[place];
    let scope = round(net, up, place);
    if scope == 0 {
        return worth;
    }
    let way = best[place];
    if way == 0 {
        return worth;
    }
    let through = u128::from(way) + worths[header(net, scope)];
    worth.max(through.saturating_sub(u128::from(turns[scope]) + 1))
}

/// Raises the worths by the loops of a depth, whose turns are the longest ways from their headers.
fn raise(net: &Net, tables: &Tables, up: &[usize], best: &[u64], turns: &[u64], worths: &mut [u128])
    requires nested { IsNested net.now }
    requires few { IsFew net.now }
    requires tables { AreTables net.now tables.now }
    requires room { length up.now ≡ length net.now.loops + 1 }
    requires level { IsTurnedSomewhere net.now tables.now (entry up.now) (entry best.now) (entry turns.now) }
    requires best { length best.now ≡ length net.now.places + 1 }
    requires short { (p : ℕ) → entry best.now p ≤ 2 ^ 63 }
    requires turns { length turns.now ≡ length net.now.loops + 1 }
    requires worths { length worths.old ≡ length net.now.places + 1 }
    requires small { (p : ℕ) → entry worths.old p ≤ 2 ^ 119 }
    ensures raised { (p : ℕ) → entry worths.new p ≡ lifted (plain net.now tables.now) (round_by net.now (entry up.now))
        (entry best.now) (entry turns.now) (entry worths.old) p }
{
    for place in 0..net.places.as_slice().len() + 1 {
        worths[place] = raised(net, tables, up, best, turns, worths, place);
    }
}

/// Raises the worths by the loops of a depth, which are solved.
fn raise_level(
    net: &Net,
    tables: &Tables,
    depth: usize,
    weights: &[u64],
    turns: &[u64],
    up: &mut [usize],
    best: &mut [u64],
    choice: &mut [usize],
    worths: &mut [u128],
)
    requires nested { IsNested net.now }
    requires few { IsFew net.now }
    requires tables { AreTables net.now tables.now }
    requires depth { 0 < depth }
    requires deep { depth ≤ length net.now.loops + 1 }
    requires up { length up.old ≡ length net.now.loops + 1 }
    requires weights { length weights.now ≡ length net.now.arcs + 1 }
    requires turns { length turns.now ≡ length net.now.loops + 1 }
    requires best { length best.old ≡ length net.now.places + 1 }
    requires choice { length choice.old ≡ length net.now.places + 1 }
    requires worths { length worths.old ≡ length net.now.places + 1 }
    requires levels { SomeLevels (plain net.now tables.now) (entry weights.now) (entry turns.now) 1 }
    requires small { (p : ℕ) → entry worths.old p ≤ 2 ^ 63 * (length net.now.arcs + 2 + (depth - 1)) }
    ensures small { (p : ℕ) → entry worths.new p ≤ 2 ^ 63 * (length net.now.arcs + 2 + depth) }
    ensures worths { (price : ℕ → ℕ) (total : ℕ) → AreLevels (plain net.now tables.now) price (entry weights.now)
        (entry turns.now) 1
        → AreWorths (plain net.now tables.now)
        (weight_of (plain net.now tables.now) (value_at_end (plain net.now tables.now) price) (entry turns.now))
        (entry turns.now) (depth - 1) total (entry worths.old)
        → AreWorths (plain net.now tables.now)
        (weight_of (plain net.now tables.now) (value_at_end (plain net.now tables.now) price) (entry turns.now))
        (entry turns.now) depth total (entry worths.new) }
{
    level(net, tables, depth, weights, up, best, choice);
    raise(net, tables, up, best, turns, worths);
}

/// Raises the worths by the loops of all depths, the outermost first.
pub fn raise_all(
    net: &Net,
    tables: &Tables,
    deepest: usize,
    weights: &[u64],
    turns: &[u64],
    up: &mut [usize],
    best: &mut [u64],
    choice: &mut [usize],
    worths: &mut [u128],
)
    requires nested { IsNested net.now }
    requires few { IsFew net.now }
    requires tables { AreTables net.now tables.now }
    requires deep { deepest ≤ length net.now.loops + 1 }
    requires up { length up.old ≡ length net.now.loops + 1 }
    requires weights { length weights.now ≡ length net.now.arcs + 1 }
    requires turns { length turns.now ≡ length net.now.loops + 1 }
    requires best { length best.old ≡ length net.now.places + 1 }
    requires choice { length choice.old ≡ length net.now.places + 1 }
    requires worths { length worths.old ≡ length net.now.places + 1 }
    requires levels { SomeLevels (plain net.now tables.now) (entry weights.now) (entry turns.now) 1 }
    requires small { (p : ℕ) → entry worths.old p ≤ 2 ^ 63 * (length net.now.arcs + 2 + 0) }
    ensures small { (p : ℕ) → entry worths.new p ≤ 2 ^ 63 * (length net.now.arcs + 2 + deepest) }
    ensures worths { (price : ℕ → ℕ) (total : ℕ) → AreLevels (plain net.now tables.now) price (entry weights.now)
        (entry turns.now) 1
        → AreWorths (plain net.now tables.now)
        (weight_of (plain net.now tables.now) (value_at_end (plain net.now tables.now) price) (entry turns.now))
        (entry turns.now) 0 total (entry worths.old)
        → AreWorths (plain net.now tables.now)
        (weight_of (plain net.now tables.now) (value_at_end (plain net.now tables.now) price) (entry turns.now))
        (entry turns.now) deepest total (entry worths.new) }
{
    for depth in 1..deepest + 1 {
        raise_level(net, tables, depth, weights, turns, up, best, choice, worths);
    }
}
