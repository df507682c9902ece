//! What the arcs weigh at first, and how deep the scopes lie.

ghost use Rattle.std.specs.Prelude.{◌≡◌, ℕ, ◌+◌, ◌≤◌, IfOk, length};
ghost use Rattle.std.specs.Prelude.{unsigned_abs};
ghost use Rattle.ipet_program.specs.Leaves.{value_at};
ghost use Rattle.nest_solver.specs.Nets.{entry};
ghost use Rattle.nest_solver.specs.Shape.{IsUpTo};
ghost use Rattle.nest_solver.specs.Values.{AreValues};

use ipet_program::Program;
use std::alloc::{AllocError, Global};

/// The value of a column, which isn't negative, without its sign.
fn value_of(program: &Program, column: usize) -> u64
    requires column { IsUpTo (length program.now.value) column }
    ensures value { result ≡ unsigned_abs (value_at program.now column) }
{
    program.value.as_slice()[column - 1].unsigned_abs()
}

/// The values of the columns by their numbers.
pub fn values_of(alloc: Global, program: &Program) -> Result<Vec<u64>, AllocError>
    ensures count { IfOk result (λ values. length values.items ≡ length program.now.value + 1) }
    ensures values { IfOk result (λ values. AreValues program.now (entry values.items)) }
{
    let mut values = Vec::new(alloc);
    values.push(0)?;
    for column in 1..program.value.as_slice().len() + 1 {
        values.push(value_of(program, column))?;
    }
    Ok(values)
}

/// The greater of two depths.
fn deeper(one: usize, other: usize) -> usize
    ensures above { one ≤ result }
    ensures beyond { other ≤ result }
    ensures least { (bound : ℕ) → one ≤ bound → other ≤ bound → result ≤ bound }
{
    if one < other { other } else { one }
}

/// The greatest depth.
pub fn deepest_of(depths: &[usize]) -> usize
    ensures most { (scope : ℕ) → entry depths.now scope ≤ result }
    ensures least { (bound : ℕ) → ((scope : ℕ) → entry depths.now scope ≤ bound) → result ≤ bound }
{
    let mut most = 0;
    for depth in depths {
        most = deeper(most, *depth);
    }
    most
}
