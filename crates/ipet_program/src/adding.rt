//! Adding rows, each taken a number of times, to a sum for each column and to the right side.

ghost use Rattle.std.specs.Prelude.{◌≡◌, ◌≤◌, ◌+ℤ◌, ◌*ℤ◌, length, pos, All, [], ◌∷◌, Some, IfSome, IfNone};
ghost use Rattle.std.specs.Bool.{OnFalse, OnTrue};
ghost use Rattle.flow_net.specs.Numbers.{IsNumberOf};
ghost use Rattle.ipet_program.specs.Adding.{AreTaken, Fit, HaveRoom, IsTaken, IsWeightTaken, MayTake, MayTakeAll};
ghost use Rattle.ipet_program.specs.Adding.{MayTakeWeight, terms_parts};
ghost use Rattle.ipet_program.specs.Leaves.{FitFrom, all_rows, cut_row};

use crate::leaf::{Side2, Weight};
use crate::program::{Program, Row, Term};

/// The sum with a product, where both fit.
fn with_product(sum: i128, times: i128, factor: i128) -> Option<i128>
    ensures some { IfSome result (λ new. FitFrom sum ((times *ℤ factor) ∷ []) × (new ≡ sum +ℤ times *ℤ factor)) }
    ensures none { IfNone result (FitFrom sum ((times *ℤ factor) ∷ []) → ⊥) }
{
    let part = times.checked_mul(factor)?;
    sum.checked_add(part)
}

/// Adds a term that is taken a number of times to the sum of its column; false where a number doesn't
/// fit. A column that the program hasn't has no sum.
fn add_term(sums: &mut [i128], columns: u32, times: i128, term: Term) -> bool
    requires { columns ≤ length sums.old }
    ensures added { OnTrue result (HaveRoom columns sums.old sums.new
        (λ column. terms_parts column times (term ∷ []))) }
    ensures wide { OnFalse result (Fit columns sums.old (λ column. terms_parts column times (term ∷ [])) → ⊥) }
{
    if term.column == 0 || term.column > columns {
        return true;
    }
    let position = term.column as usize - 1;
    let Some(sum) = with_product(sums[position], times, i128::from(term.factor)) else {
        return false;
    };
    sums[position] = sum;
    true
}

/// Adds terms that are taken a number of times; false where a number doesn't fit.
fn add_terms(sums: &mut [i128], columns: u32, times: i128, terms: &[Term]) -> bool
    requires { columns ≤ length sums.old }
    ensures added { OnTrue result (HaveRoom columns sums.old sums.new (λ column. terms_parts column times terms.now)) }
    ensures wide { OnFalse result (Fit columns sums.old (λ column. terms_parts column times terms.now) → ⊥) }
{
    for term in terms {
        if !add_term(sums, columns, times, *term) {
            return false;
        }
    }
    true
}

/// Adds a row that is taken a number of times: its terms to the columns' sums, its right side to the sum
/// of these. Nothing where a number doesn't fit.
fn add_row(sums: &mut [i128], columns: u32, right: i128, times: i128, row: &Row) -> Option<i128>
    requires { columns ≤ length sums.old }
    ensures some { IfSome result (IsTaken columns sums.old sums.new right times (Some row.now)) }
    ensures none { IfNone result (MayTake columns sums.old right times (Some row.now) → ⊥) }
{
    if !add_terms(sums, columns, times, row.terms.as_slice()) {
        return None;
    }
    with_product(right, times, i128::from(row.right))
}

/// The factor of a cut's column in its row.
fn cut_factor(cut: Side2) -> i64
    ensures { (cut_row cut).terms ≡ record { column = cut.column; factor = result } ∷ [] }
{
    if cut.upper { 1 } else { -1 }
}

/// The right side of a cut's row.
fn cut_right(cut: Side2) -> i128
    ensures { (cut_row cut).right ≡ result }
{
    let at = i128::from(cut.at);
    if cut.upper { at } else { -at - 1 }
}

/// Adds the row of a cut, as `add_row` does.
fn add_cut(sums: &mut [i128], columns: u32, right: i128, times: i128, cut: Side2) -> Option<i128>
    requires { columns ≤ length sums.old }
    ensures some { IfSome result (IsTaken columns sums.old sums.new right times (Some (cut_row cut))) }
    ensures none { IfNone result (MayTake columns sums.old right times (Some (cut_row cut)) → ⊥) }
{
    let term = Term {
        column: cut.column,
        factor: cut_factor(cut),
    };
    if !add_term(sums, columns, times, term) {
        return None;
    }
    with_product(right, times, cut_right(cut))
}

/// Adds the row of a weight, as `add_row` does.
fn add_weight(
    program: &Program,
    cuts: &[Side2],
    weight: Weight,
    sums: &mut [i128],
    right: i128,
) -> Option<i128>
    requires room { program.now.columns ≤ length sums.old }
    requires there { IsNumberOf (all_rows program.now cuts.now) weight.row }
    ensures some { IfSome result (IsWeightTaken program.now cuts.now sums.old sums.new right weight) }
    ensures none { IfNone result (MayTakeWeight program.now cuts.now sums.old right weight → ⊥) }
{
    let rows = program.rows.as_slice();
    let position = weight.row - 1;
    if position < rows.len() as u64 {
        return add_row(
            sums,
            program.columns,
            right,
            weight.times,
            &rows[position as usize],
        );
    }
    let behind = position - rows.len() as u64;
    add_cut(
        sums,
        program.columns,
        right,
        weight.times,
        cuts[behind as usize],
    )
}

/// Adds the rows of weights, in their order, from no right side on.
pub fn add_weights(
    program: &Program,
    cuts: &[Side2],
    weights: &[Weight],
    sums: &mut [i128],
) -> Option<i128>
    requires room { program.now.columns ≤ length sums.old }
    requires there { All (λ weight. IsNumberOf (all_rows program.now cuts.now) weight.row) weights.now }
    ensures some { IfSome result (AreTaken program.now cuts.now sums.old sums.new (pos 0) weights.now) }
    ensures none { IfNone result (MayTakeAll program.now cuts.now sums.old (pos 0) weights.now → ⊥) }
{
    let mut right = 0;
    for weight in weights {
        let Some(sum) = add_weight(program, cuts, *weight, sums, right) else {
            return None;
        };
        right = sum;
    }
    Some(right)
}
