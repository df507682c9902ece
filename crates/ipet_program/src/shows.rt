//! What the columns' sums and the right side of a leaf show.

ghost use Rattle.std.specs.Prelude.{◌≡◌, ◌+◌, ◌≤◌, ◌*ℤ◌, ◌≤ℤ◌, length, pos, slice_index_or, EachIndex, FitsSigned};
ghost use Rattle.std.specs.Prelude.{IfNone, IfSome, false};
ghost use Rattle.std.specs.Bool.{OnFalse, OnTrue};
ghost use Rattle.std.specs.Int.{w128};
ghost use Rattle.ipet_program.specs.Shown.{AreCovered, IsBelow, NoneNegative, SayRight, SayWrong, ShowNone, ValuesFit};

use crate::leaf::{Leaf, LeafFault};
use crate::program::Program;

/// Makes each sum 0.
pub fn clear(sums: &mut [i128])
    ensures { EachIndex sums.new (λ k. slice_index_or sums.new k (pos 0) ≡ pos 0) }
{
    for sum in sums.iter_mut() {
        *sum = 0;
    }
}

/// Whether a value that is taken `denom` times fits.
fn fits(denom: i128, value: i128) -> bool
    ensures fits { OnTrue result (FitsSigned w128 (denom *ℤ value)) }
    ensures wide { OnFalse result (FitsSigned w128 (denom *ℤ value) → ⊥) }
{
    denom.checked_mul(value).is_some()
}

/// Whether the next number above a bound does.
fn next_fits(denom: i128, bound: u64) -> bool
    ensures fits { OnTrue result (FitsSigned w128 (denom *ℤ pos (bound + 1))) }
    ensures wide { OnFalse result (FitsSigned w128 (denom *ℤ pos (bound + 1)) → ⊥) }
{
    fits(denom, i128::from(bound) + 1)
}

/// Whether each of the values does.
fn values_fit(denom: i128, values: &[i64]) -> bool
    ensures fit { OnTrue result (ValuesFit denom values.now) }
    ensures wide { OnFalse result (ValuesFit denom values.now → ⊥) }
{
    for position in 0..values.len() {
        if !fits(denom, i128::from(values[position])) {
            return false;
        }
    }
    true
}

/// Whether a value that is taken `denom` times is at most a sum.
fn is_covered(denom: i128, value: i64, sum: i128) -> bool
    requires { FitsSigned w128 (denom *ℤ value) }
    ensures covered { OnTrue result ((denom *ℤ value) ≤ℤ sum) }
    ensures less { OnFalse result ((denom *ℤ value) ≤ℤ sum → ⊥) }
{
    denom * i128::from(value) <= sum
}

/// Whether each value is covered by the sum at its place.
fn are_covered(denom: i128, values: &[i64], sums: &[i128]) -> bool
    requires room { length values.now ≤ length sums.now }
    requires fit { ValuesFit denom values.now }
    ensures covered { OnTrue result (AreCovered denom values.now sums.now) }
    ensures less { OnFalse result (AreCovered denom values.now sums.now → ⊥) }
{
    for position in 0..values.len() {
        if !is_covered(denom, values[position], sums[position]) {
            return false;
        }
    }
    true
}

/// Whether a right side is less than the next number above the bound, taken `denom` times.
fn is_below(denom: i128, bound: u64, right: i128) -> bool
    requires { FitsSigned w128 (denom *ℤ pos (bound + 1)) }
    ensures below { OnTrue result (IsBelow denom bound right) }
    ensures above { OnFalse result (IsBelow denom bound right → ⊥) }
{
    right < denom * (i128::from(bound) + 1)
}

/// Which rule the sums and the right side of a leaf that shows a bound break first.
fn bound_fault(
    program: &Program,
    denom: i128,
    bound: u64,
    sums: &[i128],
    right: i128,
) -> Option<LeafFault>
    requires { length program.now.value ≤ length sums.now }
    ensures shown { IfNone result (SayRight false program.now denom bound sums.now right) }
    ensures fault { IfSome result (SayWrong false program.now denom bound sums.now right) }
{
    let values = program.value.as_slice();
    if !next_fits(denom, bound) {
        return Some(LeafFault::Wide);
    }
    if !values_fit(denom, values) {
        return Some(LeafFault::Wide);
    }
    if !is_below(denom, bound, right) {
        return Some(LeafFault::Dual);
    }
    if !are_covered(denom, values, sums) {
        return Some(LeafFault::Dual);
    }
    None
}

/// Whether no sum of the first columns is negative.
fn none_negative(columns: u32, sums: &[i128]) -> bool
    requires { columns ≤ length sums.now }
    ensures kept { OnTrue result (NoneNegative columns sums.now) }
    ensures negative { OnFalse result (NoneNegative columns sums.now → ⊥) }
{
    for position in 0..columns as usize {
        if sums[position] < 0 {
            return false;
        }
    }
    true
}

/// Whether the sums and the right side show that there are no counts.
fn show_none(columns: u32, sums: &[i128], right: i128) -> bool
    requires { columns ≤ length sums.now }
    ensures shown { OnTrue result (ShowNone columns sums.now right) }
    ensures unshown { OnFalse result (ShowNone columns sums.now right → ⊥) }
{
    right < 0 && none_negative(columns, sums)
}

/// Which rule the sums and the right side of a leaf break first.
pub fn said_fault(
    program: &Program,
    bound: u64,
    leaf: &Leaf,
    sums: &[i128],
    right: i128,
) -> Option<LeafFault>
    requires values { length program.now.value ≤ length sums.now }
    requires columns { program.now.columns ≤ length sums.now }
    ensures shown { IfNone result (SayRight leaf.now.empty program.now leaf.now.denom bound sums.now right) }
    ensures fault { IfSome result (SayWrong leaf.now.empty program.now leaf.now.denom bound sums.now right) }
{
    if !leaf.empty {
        return bound_fault(program, leaf.denom, bound, sums, right);
    }
    if show_none(program.columns, sums, right) {
        return None;
    }
    Some(LeafFault::Dual)
}
