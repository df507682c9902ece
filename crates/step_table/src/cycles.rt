//! The first position on a cycle of steps.

ghost use Rattle.std.specs.Prelude.{◌≡◌, IfOk};
ghost use Rattle.step_table.specs.Cycles.{IsFirstCyclic};
ghost use Rattle.step_table.specs.Table.{IsWithin};

use crate::rings::cyclic_positions;
use std::alloc::{AllocError, Global};
use wcet_io::List;

/// The least position of a cycle, in time in proportion to the positions and the steps.
pub fn first_cyclic(alloc: Global, table: &[List<usize>]) -> Result<Option<usize>, AllocError>
    requires { IsWithin table.now }
    ensures { IfOk result (IsFirstCyclic table.now) }
{
    let marks = cyclic_positions(alloc, table)?;
    for position in 0..table.len() {
        if marks[position] {
            return Ok(Some(position));
        }
    }
    Ok(None)
}
