//! Whether a leaf of a certificate is valid: which rule it breaks first, and the least bound that it shows.

ghost use Rattle.std.specs.Prelude.{◌≡◌, ℕ, ◌^◌, ◌<◌, ◌≤◌, ◌≤ℤ◌, false, length, pos, IfNone, IfSome};
ghost use Rattle.std.specs.Bool.{OnFalse, OnTrue};
ghost use Rattle.ipet_program.specs.LeafFaults.{Breaks, IsLeastBound};
ghost use Rattle.ipet_program.specs.Leaves.{IsLeaf};
ghost use Rattle.ipet_program.specs.Programs.{IsCheckable};
ghost use Rattle.ipet_program.specs.Shown.{Allows, IsBelow, IsFirst};

use crate::adding::add_weights;
use crate::leaf::{Leaf, LeafFault, Side2};
use crate::program::Program;
use crate::rules::keeps_rules;
use crate::shows::{clear, said_fault};

/// Which rule a leaf breaks first under the cuts above it; none where it is valid. `sums` is room for a number for each
/// column; what it holds before doesn't matter. It takes no memory, and a step for each term of the rows that the leaf
/// takes and for each place of `sums`.
pub fn leaf_fault(
    program: &Program,
    cuts: &[Side2],
    bound: u64,
    leaf: &Leaf,
    sums: &mut [i128],
) -> Option<LeafFault>
    requires checkable { IsCheckable program.now }
    requires room { program.now.columns ≤ length sums.old }
    ensures valid { IfNone result (IsLeaf program.now cuts.now bound leaf.now) }
    ensures fault { IfSome result (Breaks program.now cuts.now bound leaf.now) }
{
    if !keeps_rules(program, cuts, leaf) {
        return Some(LeafFault::Tree);
    }
    clear(sums);
    let Some(right) = add_weights(program, cuts, leaf.weights.as_slice(), sums) else {
        return Some(LeafFault::Wide);
    };
    said_fault(program, bound, leaf, sums, right)
}

/// Whether a leaf is valid under the cuts above it. Room, memory and steps are those of `leaf_fault`.
pub fn shows_leaf(
    program: &Program,
    cuts: &[Side2],
    bound: u64,
    leaf: &Leaf,
    sums: &mut [i128],
) -> bool
    requires checkable { IsCheckable program.now }
    requires room { program.now.columns ≤ length sums.old }
    ensures valid { OnTrue result (IsLeaf program.now cuts.now bound leaf.now) }
    ensures invalid { OnFalse result (IsLeaf program.now cuts.now bound leaf.now → ⊥) }
{
    leaf_fault(program, cuts, bound, leaf, sums).is_none()
}

/// The least bound that a right side leaves room for: the right side over the denominator, rounded down, and 0 for a
/// negative one. None where that has more than 64 bits.
fn quotient(denom: i128, right: i128) -> Option<u64>
    requires { pos 1 ≤ℤ denom }
    ensures first { IfSome result (IsFirst false denom right) }
    ensures none { IfNone result ((bound : ℕ) → bound < 2 ^ 64 → IsBelow denom bound right → ⊥) }
{
    let Ok(side) = u128::try_from(right) else {
        return Some(0);
    };
    let Ok(bound) = u64::try_from(side / denom.unsigned_abs()) else {
        return None;
    };
    Some(bound)
}

/// The least bound that the right side of a leaf leaves room for.
fn first_bound(leaf: &Leaf, right: i128) -> Option<u64>
    requires { pos 1 ≤ℤ leaf.now.denom }
    ensures first { IfSome result (IsFirst leaf.now.empty leaf.now.denom right) }
    ensures none { IfNone result ((bound : ℕ) → bound < 2 ^ 64 → Allows leaf.now.empty leaf.now.denom right bound → ⊥) }
{
    if leaf.empty {
        return Some(0);
    }
    quotient(leaf.denom, right)
}

/// The least bound under which a leaf is valid under the cuts above it; none where no bound of 64 bits is. A leaf that
/// shows that there are no counts is valid under each bound. Room, memory and steps are those of `leaf_fault`.
pub fn least_bound(program: &Program, cuts: &[Side2], leaf: &Leaf, sums: &mut [i128]) -> Option<u64>
    requires checkable { IsCheckable program.now }
    requires room { program.now.columns ≤ length sums.old }
    ensures least { IfSome result (IsLeastBound program.now cuts.now leaf.now) }
    ensures none { IfNone result ((bound : ℕ) → bound < 2 ^ 64 → IsLeaf program.now cuts.now bound leaf.now → ⊥) }
{
    if !keeps_rules(program, cuts, leaf) {
        return None;
    }
    clear(sums);
    let Some(right) = add_weights(program, cuts, leaf.weights.as_slice(), sums) else {
        return None;
    };
    let Some(bound) = first_bound(leaf, right) else {
        return None;
    };
    match said_fault(program, bound, leaf, sums, right) {
        None => Some(bound),
        Some(_) => None,
    }
}
