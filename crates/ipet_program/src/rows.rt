//! The rows of a program, in their order.

ghost use Rattle.std.specs.Prelude.{◌≡◌, ◌≤◌, ◌^◌, ℕ, IfOk, length};
ghost use Rattle.flow_net.specs.Nested.{IsNested};
ghost use Rattle.ipet_program.specs.Rows.{entry_row, rows_of};

use crate::loops::loop_rows;
use crate::places::place_rows;
use crate::program::{Row, Term};
use flow_net::Net;
use std::alloc::{AllocError, Global};
use wcet_io::List;

/// The row that says that the run is entered once: arc 1 = 1.
fn entry_row(alloc: Global) -> Result<Row, AllocError>
    ensures row { IfOk result (λ row. (columns : ℕ) → 1 ≤ columns → row ≡ entry_row columns) }
{
    let mut terms = List::new(alloc);
    terms.push(Term {
        column: 1,
        factor: 1,
    })?;
    Ok(Row {
        equal: true,
        terms,
        right: 1,
    })
}

/// The entry's row, one for each place, and one for each loop instance.
pub fn rows_of(alloc: Global, net: &Net) -> Result<List<Row>, AllocError>
    requires nested { IsNested net.now }
    requires few { length net.now.arcs ≤ 2 ^ 28 }
    ensures rows { IfOk result (λ rows. rows ≡ rows_of net.now) }
{
    let mut places = place_rows(alloc, net)?;
    let mut loops = loop_rows(alloc, net)?;
    let mut rows = Vec::new(alloc);
    rows.push(entry_row(alloc)?)?;
    rows.append(&mut places)?;
    rows.append(&mut loops)?;
    Ok(List::from_vec(rows))
}
