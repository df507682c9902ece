//! Splits of a column's range, and the cuts of their two parts.

ghost use Rattle.std.specs.Prelude.{◌≡◌, ℕ, ◌≤◌, [], ◌∷◌, ◌++◌, List, length};
ghost use Rattle.std.specs.Bool.{OnFalse, OnTrue};
ghost use Rattle.ipet_program.specs.Certificates.{IsRange, IsSplit, first_part, second_part};
ghost use Rattle.ipet_program.specs.declared.leaf.Side2.{Side2};
ghost use Rattle.ipet_program.specs.declared.program.Program.{Program};

use crate::leaf::Side2;
use crate::program::Program;

/// The numbers that a column may have under cuts: those from `low` to `high`, and none where `high` is less.
#[derive(Clone, Copy, Debug)]
pub struct Range {
    /// 2^64 - 1 also where a cut asks for more.
    pub low: u64,
    pub high: u64,
}

/// The range of a column without cuts: 0 to its cap.
pub fn whole_range(program: &Program, column: u32) -> Range
    requires named { 1 ≤ column }
    requires within { column ≤ program.now.columns }
    requires caps { length program.now.caps ≡ program.now.columns }
    ensures { IsRange program.now [] column result }
{
    let high = program.caps.as_slice()[column as usize - 1];
    Range { low: 0, high }
}

/// The range of a column under one cut more than it is told for.
pub fn narrowed(range: Range, column: u32, cut: Side2) -> Range
    ensures { (program : Program) (cuts : List Side2) → IsRange program cuts column range
        → IsRange program (cuts ++ cut ∷ []) column result }
{
    if cut.column != column {
        return range;
    }
    if cut.upper {
        return Range {
            low: range.low,
            high: range.high.min(cut.at),
        };
    }
    Range {
        low: range.low.max(cut.at.saturating_add(1)),
        high: range.high,
    }
}

/// The range of a column under cuts. It takes a step for each cut.
fn range_under(program: &Program, cuts: &[Side2], column: u32) -> Range
    requires named { 1 ≤ column }
    requires within { column ≤ program.now.columns }
    requires caps { length program.now.caps ≡ program.now.columns }
    ensures { IsRange program.now cuts.now column result }
{
    let mut range = whole_range(program, column);
    for cut in cuts {
        range = narrowed(range, column, *cut);
    }
    range
}

/// Whether a split at a number parts a column's range under the cuts above it so that no part is empty.
pub fn is_parted(range: Range, at: u64) -> bool
    ensures parted { OnTrue result ((program : Program) (cuts : List Side2) (column : ℕ) → 1 ≤ column
        → column ≤ program.columns → IsRange program cuts column range → IsSplit program cuts column at) }
    ensures whole { OnFalse result ((program : Program) (cuts : List Side2) (column : ℕ)
        → IsRange program cuts column range → IsSplit program cuts column at → ⊥) }
{
    range.low <= at && at < range.high
}

/// Whether a split is of a column of the program, at a number that parts the column's range under the cuts above it. It
/// takes a step for each cut; a caller that keeps the ranges of the columns has the same answer from `is_parted`.
pub fn is_split(program: &Program, cuts: &[Side2], column: u32, at: u64) -> bool
    requires { length program.now.caps ≡ program.now.columns }
    ensures split { OnTrue result (IsSplit program.now cuts.now column at) }
    ensures other { OnFalse result (IsSplit program.now cuts.now column at → ⊥) }
{
    if column == 0 || column > program.columns {
        return false;
    }
    is_parted(range_under(program, cuts, column), at)
}

/// The cut of the first part of a split of a column at a number: the column is at most that.
pub fn first_part(column: u32, at: u64) -> Side2
    ensures { result ≡ first_part column at }
{
    let upper = true;
    Side2 { column, at, upper }
}

/// The cut of the second part: the column is at least the next number. The two parts leave no number out.
pub fn second_part(column: u32, at: u64) -> Side2
    ensures { result ≡ second_part column at }
{
    let upper = false;
    Side2 { column, at, upper }
}
