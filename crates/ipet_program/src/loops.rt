//! The rows of loop instances: a header is come to at most bound times as often as its loop is entered.

ghost use Rattle.std.specs.Prelude.{◌≡◌, ◌≤◌, ◌<◌, ◌^◌, ◌-ℤ◌, ◌*ℤ◌, not, IfOk, OnOk, length, pos};
ghost use Rattle.flow_net.specs.Nested.{IsNested};
ghost use Rattle.flow_net.specs.Numbers.{IsNumberOrZero};
ghost use Rattle.flow_net.specs.Scopes.{HasScopes, holds_of};
ghost use Rattle.ipet_program.specs.Rows.{loop_row, one_if};
ghost use Rattle.ipet_program.specs.Sums.{numbered};
ghost use Rattle.ipet_program.specs.Tables.{AreLoopRows, GainAtLoops, IsLoopAt};
ghost use Rattle.ipet_program.specs.declared.program.Row.{Row};

use crate::growing::{add_at, empty_rows};
use crate::program::Row;
use flow_net::{Net, NetArc};
use std::alloc::{AllocError, Global};

/// The number of the loop instance that has the place as its header; 0 where none has, as at 0. In a
/// nested net it is the header's innermost scope.
pub fn loop_at(net: &Net, place: u32) -> u32
    requires nested { IsNested net.now }
    requires place { IsNumberOrZero net.now.places place }
    ensures header { IsLoopAt net.now place result }
{
    if place == 0 {
        return 0;
    }
    let scope = net.places.as_slice()[place as usize - 1].scope;
    if scope == 0 {
        return 0;
    }
    if net.loops.as_slice()[scope as usize - 1].header != place {
        return 0;
    }
    scope
}

/// Whether a scope doesn't hold a place. None holds 0.
pub fn is_outside(net: &Net, scope: u32, place: u32) -> bool
    requires scopes { HasScopes net.now }
    requires place { IsNumberOrZero net.now.places place }
    ensures outside { result ≡ not (holds_of net.now scope place) }
{
    if place == 0 {
        return true;
    }
    !net.held(place, scope)
}

/// The factor of an arc to a loop's header: 1, less the bound where the arc enters the loop.
fn header_factor(bound: u32, entering: bool) -> i64
    ensures factor { result ≡ pos 1 -ℤ pos bound *ℤ one_if entering }
{
    if entering {
        return 1 - i64::from(bound);
    }
    1
}

/// Adds an arc to the row of the loop instance that has its end as its header.
fn add_arc(net: &Net, rows: &mut [Row], column: u32, arc: NetArc) -> Result<(), AllocError>
    requires nested { IsNested net.now }
    requires from { IsNumberOrZero net.now.places arc.from }
    requires to { IsNumberOrZero net.now.places arc.to }
    requires count { length rows.old ≡ length net.now.loops }
    ensures rows { OnOk result (GainAtLoops net.now rows.old column arc rows.new) }
{
    let scope = loop_at(net, arc.to);
    if scope == 0 {
        return Ok(());
    }
    let bound = net.loops.as_slice()[scope as usize - 1].bound;
    let entering = is_outside(net, scope, arc.from);
    add_at(rows, scope, column, header_factor(bound, entering))?;
    Ok(())
}

/// Adds the arcs to rows without terms.
fn add_arcs(net: &Net, rows: &mut [Row]) -> Result<(), AllocError>
    requires nested { IsNested net.now }
    requires few { length net.now.arcs ≤ 2 ^ 28 }
    requires count { length rows.old ≡ length net.now.loops }
    requires none { AreLoopRows net.now 0 rows.old }
    ensures rows { OnOk result (AreLoopRows net.now (length net.now.arcs) rows.new) }
{
    let arcs = net.arcs.as_slice();
    for index in 0..arcs.len() {
        add_arc(net, rows, index as u32 + 1, arcs[index])?;
    }
    Ok(())
}

/// The row of each loop instance.
pub fn loop_rows(alloc: Global, net: &Net) -> Result<Vec<Row>, AllocError>
    requires nested { IsNested net.now }
    requires few { length net.now.arcs ≤ 2 ^ 28 }
    ensures rows { IfOk result (λ rows. rows.items ≡ numbered (loop_row net.now) (length net.now.loops)) }
{
    let mut rows = empty_rows(alloc, net.loops.as_slice().len(), false)?;
    add_arcs(net, &mut rows)?;
    Ok(rows)
}
