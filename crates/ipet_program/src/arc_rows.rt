//! The arcs into each place, and those that enter each loop instance.

ghost use Rattle.std.specs.Prelude.{◌≡◌, ◌≤◌, ◌^◌, All, IfOk, OnOk, length};
ghost use Rattle.flow_net.specs.Nested.{IsNested};
ghost use Rattle.flow_net.specs.Numbers.{IsNumberOrZero};
ghost use Rattle.ipet_program.specs.StageTables.{IsEnteredBy, entering_row, into_row};
ghost use Rattle.ipet_program.specs.Sums.{numbered};

use crate::growing::{add_at, empty_rows};
use crate::loops::{is_outside, loop_at};
use crate::program::Row;
use flow_net::{Net, NetArc};
use std::alloc::{AllocError, Global};

/// Takes each arc off in the row of the place that it goes to.
fn add_into(rows: &mut [Row], arcs: &[NetArc]) -> Result<(), AllocError>
    requires ends { All (λ arc. IsNumberOrZero rows.old arc.to) arcs.now }
    requires few { length arcs.now ≤ 2 ^ 25 }
    requires none { rows.old ≡ numbered (into_row arcs.now 0) (length rows.old) }
    ensures rows { OnOk result (rows.new ≡ numbered (into_row arcs.now (length arcs.now)) (length rows.old)) }
{
    for index in 0..arcs.len() {
        add_at(rows, arcs[index].to, index as u32 + 1, -1)?;
    }
    Ok(())
}

/// For each place a row with the arcs into it taken off.
pub fn into_rows(alloc: Global, net: &Net) -> Result<Vec<Row>, AllocError>
    requires ends { All (λ arc. IsNumberOrZero net.now.places arc.to) net.now.arcs }
    requires few { length net.now.arcs ≤ 2 ^ 25 }
    ensures rows { IfOk result (λ rows.
        rows.items ≡ numbered (into_row net.now.arcs (length net.now.arcs)) (length net.now.places)) }
{
    let mut rows = empty_rows(alloc, net.places.as_slice().len(), false)?;
    add_into(&mut rows, net.arcs.as_slice())?;
    Ok(rows)
}

/// The number of the loop instance that an arc enters; 0 where it enters none.
fn entered_by(net: &Net, arc: NetArc) -> u32
    requires nested { IsNested net.now }
    requires from { IsNumberOrZero net.now.places arc.from }
    requires to { IsNumberOrZero net.now.places arc.to }
    ensures entered { IsEnteredBy net.now arc result }
{
    let scope = loop_at(net, arc.to);
    if scope == 0 || !is_outside(net, scope, arc.from) {
        return 0;
    }
    scope
}

/// Takes each arc off in the row of the loop instance that it enters.
fn add_entering(net: &Net, rows: &mut [Row]) -> Result<(), AllocError>
    requires nested { IsNested net.now }
    requires few { length net.now.arcs ≤ 2 ^ 25 }
    requires none { rows.old ≡ numbered (entering_row net.now 0) (length net.now.loops) }
    ensures rows { OnOk result (rows.new
        ≡ numbered (entering_row net.now (length net.now.arcs)) (length net.now.loops)) }
{
    let arcs = net.arcs.as_slice();
    for index in 0..arcs.len() {
        let scope = entered_by(net, arcs[index]);
        add_at(rows, scope, index as u32 + 1, -1)?;
    }
    Ok(())
}

/// For each loop instance a row with the arcs that enter it taken off.
pub fn entering_rows(alloc: Global, net: &Net) -> Result<Vec<Row>, AllocError>
    requires nested { IsNested net.now }
    requires few { length net.now.arcs ≤ 2 ^ 25 }
    ensures rows { IfOk result (λ rows.
        rows.items ≡ numbered (entering_row net.now (length net.now.arcs)) (length net.now.loops)) }
{
    let mut rows = empty_rows(alloc, net.loops.as_slice().len(), false)?;
    add_entering(net, &mut rows)?;
    Ok(rows)
}
