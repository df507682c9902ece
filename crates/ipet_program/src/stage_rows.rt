//! The rows of further stages.

ghost use Rattle.std.specs.Prelude.{◌≡◌, ◌*◌, ◌≤◌, ◌<◌, ◌^◌, ◌++◌, ℕ, suc, All, IfOk, List, OnOk, length, map, pos};
ghost use Rattle.flow_net.specs.Nested.{IsNested};
ghost use Rattle.flow_net.specs.Numbers.{IsNumberOf, IsNumberOrZero};
ghost use Rattle.flow_net.specs.declared.net.Net.{Net};
ghost use Rattle.flow_net.specs.declared.net.NetArc.{NetArc};
ghost use Rattle.ipet_program.specs.StageRows.{chain_row, first_row, rows_for, stage_rows, zero_row, zero_rows};
ghost use Rattle.ipet_program.specs.StageTables.{HasArcRows, IsStageOf, entering_row, into_row};
ghost use Rattle.ipet_program.specs.Sums.{numbered};
ghost use Rattle.ipet_program.specs.Tables.{with_term};

use crate::arc_rows::{entering_rows, into_rows};
use crate::program::{Row, Stage, Term};
use flow_net::Net;
use std::alloc::{AllocError, Global};
use wcet_io::List;

/// A row with the term of a further column after its own.
fn with_column(alloc: Global, row: &Row, column: u32) -> Result<Row, AllocError>
    ensures { IfOk result (λ made. made ≡ with_term row.now column (pos 1)) }
{
    let mut terms = Vec::new(alloc);
    terms.extend_from_slice(row.terms.as_slice())?;
    terms.push(Term { column, factor: 1 })?;
    Ok(Row {
        equal: row.equal,
        terms: List::from_vec(terms),
        right: row.right,
    })
}

/// The row that says that a column counts at most as often as an earlier one.
fn after_row(alloc: Global, before: u32, column: u32) -> Result<Row, AllocError>
    requires { 0 < before }
    ensures { IfOk result (λ row. (arcs : List NetArc) (place : ℕ) → row ≡ chain_row arcs place before column) }
{
    let mut terms = List::new(alloc);
    terms.push(Term {
        column: before,
        factor: -1,
    })?;
    terms.push(Term { column, factor: 1 })?;
    Ok(Row {
        equal: false,
        terms,
        right: 0,
    })
}

/// The row of a stage's chain: it counts at most as often as the stage before it.
fn chain_row(alloc: Global, into: &[Row], stage: &Stage, column: u32) -> Result<Row, AllocError>
    requires { IsNumberOf into.now stage.now.place }
    ensures { IfOk result (λ row. (arcs : List NetArc) →
        into.now ≡ numbered (into_row arcs (length arcs)) (length into.now) →
        row ≡ chain_row arcs stage.now.place stage.now.before column) }
{
    if stage.before == 0 {
        return with_column(alloc, &into[stage.place as usize - 1], column);
    }
    after_row(alloc, stage.before, column)
}

/// The row of a column that doesn't count.
fn zero_row(alloc: Global, column: u32) -> Result<Row, AllocError>
    ensures { IfOk result (λ row. row ≡ zero_row column) }
{
    let mut terms = List::new(alloc);
    terms.push(Term { column, factor: 1 })?;
    Ok(Row {
        equal: false,
        terms,
        right: 0,
    })
}

/// The row of a first miss: its column counts at most as often as the scope is entered, the run by arc 1.
fn first_row(alloc: Global, entering: &[Row], scope: u32, column: u32) -> Result<Row, AllocError>
    requires { IsNumberOrZero entering.now scope }
    ensures { IfOk result (λ row. (net : Net) → 1 ≤ length net.arcs →
        entering.now ≡ numbered (entering_row net (length net.arcs)) (length entering.now) →
        row ≡ first_row net column scope) }
{
    if scope == 0 {
        return after_row(alloc, 1, column);
    }
    with_column(alloc, &entering[scope as usize - 1], column)
}

/// Adds the row of a column that doesn't count, where it never does.
fn add_zero(alloc: Global, never: bool, column: u32, rows: &mut Vec<Row>) -> Result<(), AllocError>
    ensures { OnOk result (rows.new.items ≡ rows.old.items ++ zero_rows never column) }
{
    if never {
        rows.push(zero_row(alloc, column)?)?;
    }
    Ok(())
}

/// Adds the rows of the first misses of a column.
fn add_firsts(
    alloc: Global,
    entering: &[Row],
    firsts: &[u32],
    column: u32,
    rows: &mut Vec<Row>,
) -> Result<(), AllocError>
    requires { All (IsNumberOrZero entering.now) firsts.now }
    ensures { OnOk result ((net : Net) → 1 ≤ length net.arcs →
        entering.now ≡ numbered (entering_row net (length net.arcs)) (length entering.now) →
        rows.new.items ≡ rows.old.items ++ map (first_row net column) firsts.now) }
{
    for scope in firsts {
        rows.push(first_row(alloc, entering, *scope, column)?)?;
    }
    Ok(())
}

/// Adds the rows of a stage with this column.
fn add_stage(
    alloc: Global,
    into: &[Row],
    entering: &[Row],
    stage: &Stage,
    column: u32,
    rows: &mut Vec<Row>,
) -> Result<(), AllocError>
    requires place { IsNumberOf into.now stage.now.place }
    requires firsts { All (IsNumberOrZero entering.now) stage.now.firsts }
    ensures { OnOk result ((net : Net) → 1 ≤ length net.arcs → HasArcRows net into.now entering.now →
        rows.new.items ≡ rows.old.items ++ rows_for net column stage.now) }
{
    rows.push(chain_row(alloc, into, stage, column)?)?;
    add_zero(alloc, stage.never, column, rows)?;
    add_firsts(alloc, entering, stage.firsts.as_slice(), column, rows)
}

/// The rows of these stages, whose columns follow those of the arcs. They take time in proportion to their terms, and
/// to the net.
pub fn stage_rows(alloc: Global, net: &Net, stages: &[Stage]) -> Result<Vec<Row>, AllocError>
    requires nested { IsNested net.now }
    requires few { length net.now.arcs ≤ 2 ^ 25 }
    requires known { All (IsStageOf net.now) stages.now }
    requires short { length stages.now ≤ 9 * 2 ^ 16 }
    ensures { IfOk result (λ rows. rows.items ≡ stage_rows net.now (suc (length net.now.arcs)) stages.now) }
{
    let into = into_rows(alloc, net)?;
    let entering = entering_rows(alloc, net)?;
    let mut rows = Vec::new(alloc);
    for index in 0..stages.len() {
        let column = (net.arcs.as_slice().len() + index + 1) as u32;
        add_stage(alloc, &into, &entering, &stages[index], column, &mut rows)?;
    }
    Ok(rows)
}
