//! Whether listed counts are feasible and have a value.

ghost use Rattle.std.specs.Prelude.{◌≡◌, ℕ, ◌*◌, ◌^◌, ◌<◌, ◌≤◌, ◌*ℤ◌, All, length, pos, slice_index_or, unsigned_abs};
ghost use Rattle.std.specs.Bool.{OnFalse, OnTrue};
ghost use Rattle.ipet_program.specs.Counts.{AreCounts, IsFeasible, IsMet, NamesColumns, Rise, listed, row_sum};
ghost use Rattle.ipet_program.specs.Counts.{value_from, value_of};
ghost use Rattle.ipet_program.specs.Programs.{IsCheckable, IsSmall, IsSmallRow};
ghost use Rattle.ipet_program.specs.declared.certificate.Count.{Count};

use crate::certificate::Count;
use crate::program::{Program, Row, Term};

/// How many counts stand before those of a column.
fn place_of(counts: &[Count], column: u32) -> usize
    requires { Rise counts.now }
    ensures before { (k : ℕ) (d : Count) → k < result → k < length counts.now →
        (slice_index_or counts.now k d).column < column }
    ensures behind { (k : ℕ) (d : Count) → result ≤ k → k < length counts.now →
        column ≤ (slice_index_or counts.now k d).column }
{
    counts.partition_point(|count| count.column < column)
}

/// How often the list says that a column is taken; 0 where it isn't listed. By bisection.
fn count_at(counts: &[Count], column: u32) -> u64
    requires { Rise counts.now }
    ensures { result ≡ listed counts.now column }
{
    let place = place_of(counts, column);
    if place < counts.len() && counts[place].column == column {
        counts[place].number
    } else {
        0
    }
}

/// A factor or value times a count.
fn part(factor: i64, number: u64) -> i128
    requires { IsSmall factor }
    ensures value { result ≡ factor *ℤ pos number }
    ensures small { unsigned_abs result ≤ 2 ^ 97 }
{
    i128::from(factor) * i128::from(number)
}

/// The sum of terms.
fn total_of(terms: &[Term], counts: &[Count]) -> i128
    requires small { All (λ term. IsSmall term.factor) terms.now }
    requires short { length terms.now ≤ 2 ^ 28 }
    requires rising { Rise counts.now }
    ensures { result ≡ row_sum (listed counts.now) terms.now }
{
    let mut sum: i128 = 0;
    for term in terms {
        sum += part(term.factor, count_at(counts, term.column));
    }
    sum
}

/// Whether the counts meet a row.
fn is_met(row: &Row, counts: &[Count]) -> bool
    requires small { All (λ term. IsSmall term.factor) row.now.terms }
    requires short { length row.now.terms ≤ 2 ^ 28 }
    requires rising { Rise counts.now }
    ensures met { OnTrue result (IsMet (listed counts.now) row.now) }
    ensures broken { OnFalse result (IsMet (listed counts.now) row.now → ⊥) }
{
    let sum = total_of(row.terms.as_slice(), counts);
    if row.equal {
        sum == i128::from(row.right)
    } else {
        sum <= i128::from(row.right)
    }
}

/// Whether the counts meet each row.
fn meet_all(rows: &[Row], counts: &[Count]) -> bool
    requires small { All (λ row. All (λ term. IsSmall term.factor) row.terms) rows.now }
    requires short { All (λ row. length row.terms ≤ 2 ^ 28) rows.now }
    requires rising { Rise counts.now }
    ensures met { OnTrue result (All (IsMet (listed counts.now)) rows.now) }
    ensures broken { OnFalse result (All (IsMet (listed counts.now)) rows.now → ⊥) }
{
    for row in rows {
        if !is_met(row, counts) {
            return false;
        }
    }
    true
}

/// Whether each count's column is one of the first `columns`.
fn are_named(columns: u32, counts: &[Count]) -> bool
    ensures named { OnTrue result (All (λ count. (1 ≤ count.column) × (count.column ≤ columns)) counts.now) }
    ensures unnamed { OnFalse result (All (λ count. (1 ≤ count.column) × (count.column ≤ columns)) counts.now → ⊥) }
{
    for count in counts {
        if count.column < 1 || columns < count.column {
            return false;
        }
    }
    true
}

/// The value of the counts.
fn value_by(values: &[i64], counts: &[Count]) -> i128
    requires small { All IsSmall values.now }
    requires short { length values.now ≤ 2 ^ 28 }
    requires rising { Rise counts.now }
    ensures { result ≡ value_from 1 (listed counts.now) values.now }
{
    let mut sum: i128 = 0;
    let mut column: u32 = 1;
    for value in values {
        sum += part(*value, count_at(counts, column));
        column += 1;
    }
    sum
}

/// Whether listed counts are feasible for a program and have a value. It takes no memory, and a bisection
/// of the list for each term and column of the program.
pub fn are_counts(program: &Program, counts: &[Count], value: u64) -> bool
    requires checkable { IsCheckable program.now }
    requires rising { Rise counts.now }
    ensures valid { OnTrue result (AreCounts program.now counts.now value) }
    ensures invalid { OnFalse result (AreCounts program.now counts.now value → ⊥) }
{
    if !are_named(program.columns, counts) {
        return false;
    }
    if !meet_all(program.rows.as_slice(), counts) {
        return false;
    }
    value_by(program.value.as_slice(), counts) == i128::from(value)
}
