//! The leaf of worths and turns: the multipliers of the rows that aren't 0.

ghost use Rattle.std.specs.Prelude.{◌≡◌, ℕ, ◌+◌, ◌^◌, ◌<◌, ◌≤◌, ◌++◌, FitsSigned, IfOk, OnOk, length, false, pos};
ghost use Rattle.std.specs.Int.{w128};
ghost use Rattle.nest_solver.specs.LeafWeights.{weight_at, weights_to};
ghost use Rattle.nest_solver.specs.Nets.{entry};
ghost use Rattle.nest_solver.specs.Shape.{IsUpTo};
ghost use Rattle.nest_solver.specs.Values.{times_of};

use ipet_program::{Leaf, Weight};
use std::alloc::{AllocError, Global};
use wcet_io::List;

/// The multiplier of a row: of row 1 the total, of the row of a place how much less it is worth than place 0, of
/// the row of a loop its turn.
fn times(places: usize, total: u64, worths: &[u128], turns: &[u64], row: usize) -> i128
    requires row { 1 ≤ row }
    requires within { row < places + 1 + length turns.now }
    requires worths { length worths.now ≡ places + 1 }
    requires few { places ≤ 2 ^ 28 }
    requires loops { length turns.now ≤ 2 ^ 28 + 1 }
    requires small { (p : ℕ) → entry worths.now p ≤ 2 ^ 120 }
    ensures times { result ≡ times_of places total (entry worths.now) (entry turns.now) row }
    ensures fits { FitsSigned w128 result }
{
    if row == 1 {
        return i128::from(total);
    }
    if row <= places + 1 {
        return worths[0] as i128 - worths[row - 1] as i128;
    }
    i128::from(turns[row - (places + 1)])
}

/// Lists the multiplier of a row, unless it is 0.
fn list(row: usize, times: i128, weights: &mut List<Weight>) -> Result<(), AllocError>
    ensures listed { OnOk result (weights.new ≡ weights.old ++ weight_at row times) }
{
    if times == 0 {
        return Ok(());
    }
    weights.push(Weight {
        row: row as u64,
        times,
    })?;
    Ok(())
}

/// The multipliers of all rows that aren't 0, by rising row.
pub fn weights_of(
    alloc: Global,
    places: usize,
    total: u64,
    worths: &[u128],
    turns: &[u64],
) -> Result<List<Weight>, AllocError>
    requires worths { length worths.now ≡ places + 1 }
    requires few { places ≤ 2 ^ 28 }
    requires some { 0 < length turns.now }
    requires loops { length turns.now ≤ 2 ^ 28 + 1 }
    requires small { (p : ℕ) → entry worths.now p ≤ 2 ^ 120 }
    ensures weights { IfOk result (λ weights. weights ≡ weights_to
        (times_of places total (entry worths.now) (entry turns.now))
        (places + length turns.now)) }
{
    let mut weights = List::new(alloc);
    for row in 1..places + turns.len() + 1 {
        list(row, times(places, total, worths, turns, row), &mut weights)?;
    }
    Ok(weights)
}

/// The leaf of worths and turns that shows the total.
pub fn leaf_of(
    alloc: Global,
    places: usize,
    total: u64,
    worths: &[u128],
    turns: &[u64],
) -> Result<Leaf, AllocError>
    requires worths { length worths.now ≡ places + 1 }
    requires few { places ≤ 2 ^ 28 }
    requires some { 0 < length turns.now }
    requires loops { length turns.now ≤ 2 ^ 28 + 1 }
    requires small { (p : ℕ) → entry worths.now p ≤ 2 ^ 120 }
    ensures denom { IfOk result (λ leaf. leaf.denom ≡ pos 1) }
    ensures shows { IfOk result (λ leaf. leaf.empty ≡ false) }
    ensures weights { IfOk result (λ leaf. leaf.weights ≡ weights_to
        (times_of places total (entry worths.now) (entry turns.now))
        (places + length turns.now)) }
{
    let weights = weights_of(alloc, places, total, worths, turns)?;
    Ok(Leaf {
        denom: 1,
        empty: false,
        weights,
    })
}
