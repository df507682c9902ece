//! The rows of places: each is left as often as it is come to.

ghost use Rattle.std.specs.Prelude.{◌≡◌, ◌≤◌, ◌^◌, All, IfOk, OnOk, length};
ghost use Rattle.flow_net.specs.Numbers.{IsNumberOrZero};
ghost use Rattle.ipet_program.specs.Rows.{place_row};
ghost use Rattle.ipet_program.specs.Sums.{numbered};
ghost use Rattle.ipet_program.specs.Tables.{GainAtPlaces, place_row_to};
ghost use Rattle.ipet_program.specs.declared.program.Row.{Row};

use crate::growing::{add_at, empty_rows};
use crate::program::Row;
use flow_net::{Net, NetArc};
use std::alloc::{AllocError, Global};

/// Adds an arc to the rows of its ends. One from a place to itself cancels.
fn add_arc(rows: &mut [Row], column: u32, arc: NetArc) -> Result<(), AllocError>
    requires from { IsNumberOrZero rows.old arc.from }
    requires to { IsNumberOrZero rows.old arc.to }
    ensures rows { OnOk result (GainAtPlaces rows.old column arc rows.new) }
{
    if arc.from == arc.to {
        return Ok(());
    }
    add_at(rows, arc.to, column, 1)?;
    add_at(rows, arc.from, column, -1)
}

/// Adds the arcs to rows without terms.
fn add_arcs(rows: &mut [Row], arcs: &[NetArc]) -> Result<(), AllocError>
    requires starts { All (λ arc. IsNumberOrZero rows.old arc.from) arcs.now }
    requires ends { All (λ arc. IsNumberOrZero rows.old arc.to) arcs.now }
    requires few { length arcs.now ≤ 2 ^ 28 }
    requires none { rows.old ≡ numbered (place_row_to arcs.now 0) (length rows.old) }
    ensures rows { OnOk result (rows.new ≡ numbered (place_row arcs.now) (length rows.old)) }
{
    for index in 0..arcs.len() {
        add_arc(rows, index as u32 + 1, arcs[index])?;
    }
    Ok(())
}

/// The row of each place.
pub fn place_rows(alloc: Global, net: &Net) -> Result<Vec<Row>, AllocError>
    requires starts { All (λ arc. IsNumberOrZero net.now.places arc.from) net.now.arcs }
    requires ends { All (λ arc. IsNumberOrZero net.now.places arc.to) net.now.arcs }
    requires few { length net.now.arcs ≤ 2 ^ 28 }
    ensures rows { IfOk result (λ rows.
        rows.items ≡ numbered (place_row net.now.arcs) (length net.now.places)) }
{
    let mut rows = empty_rows(alloc, net.places.as_slice().len(), true)?;
    add_arcs(&mut rows, net.arcs.as_slice())?;
    Ok(rows)
}
