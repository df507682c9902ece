//! Whether a leaf keeps the rules of a tree.

ghost use Rattle.std.specs.Prelude.{◌≡◌, ◌≤ℤ◌, All, false, pos};
ghost use Rattle.std.specs.Bool.{OnFalse, OnTrue};
ghost use Rattle.ipet_program.specs.Leaves.{KeepsRules};
ghost use Rattle.ipet_program.specs.Shown.{IsAllowed};

use crate::leaf::{Leaf, Side2, Weight};
use crate::program::Program;

/// Whether a row may be taken a number of times: one with <= isn't taken a negative number of times.
fn is_signed(equal: bool, times: i128) -> bool
    ensures signed { OnTrue result (equal ≡ false → pos 0 ≤ℤ times) }
    ensures wrong { OnFalse result ((equal ≡ false → pos 0 ≤ℤ times) → ⊥) }
{
    equal || times >= 0
}

/// Whether a multiplier is of a row, and isn't negative where that has <=. The rows behind those of the program are
/// those of the cuts, and have <=.
fn is_allowed(program: &Program, cuts: &[Side2], weight: Weight) -> bool
    ensures allowed { OnTrue result (IsAllowed program.now cuts.now weight) }
    ensures wrong { OnFalse result (IsAllowed program.now cuts.now weight → ⊥) }
{
    if weight.row == 0 {
        return false;
    }
    let rows = program.rows.as_slice();
    let position = weight.row - 1;
    if position < rows.len() as u64 {
        return is_signed(rows[position as usize].equal, weight.times);
    }
    if position - rows.len() as u64 >= cuts.len() as u64 {
        return false;
    }
    is_signed(false, weight.times)
}

/// Whether all multipliers are so.
fn are_allowed(program: &Program, cuts: &[Side2], weights: &[Weight]) -> bool
    ensures allowed { OnTrue result (All (IsAllowed program.now cuts.now) weights.now) }
    ensures wrong { OnFalse result (All (IsAllowed program.now cuts.now) weights.now → ⊥) }
{
    for weight in weights {
        if !is_allowed(program, cuts, *weight) {
            return false;
        }
    }
    true
}

/// Whether a leaf keeps the rules of a tree under the cuts above it.
pub fn keeps_rules(program: &Program, cuts: &[Side2], leaf: &Leaf) -> bool
    ensures kept { OnTrue result (KeepsRules program.now cuts.now leaf.now) }
    ensures broken { OnFalse result (KeepsRules program.now cuts.now leaf.now → ⊥) }
{
    if leaf.denom < 1 {
        return false;
    }
    are_allowed(program, cuts, leaf.weights.as_slice())
}
