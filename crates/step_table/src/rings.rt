//! Which positions of a table lie on a cycle of its steps.

ghost use Rattle.std.specs.Prelude.{◌≡◌, ℕ, ◌<◌, All, Contains, length, replicate, false, IfOk, OnOk};
ghost use Rattle.std.specs.Bool.{OnFalse, OnTrue};
ghost use Rattle.step_table.specs.Rings.{AreMarks, HasSeen, IsMarkedRight, IsOrder};
ghost use Rattle.step_table.specs.Search.{IsSeen};
ghost use Rattle.step_table.specs.Table.{IsReverse, IsWithin};

use crate::finishing::order_of;
use crate::search::{see_more, steps_at};
use crate::table::reverse_of;
use std::alloc::{AllocError, Global};
use wcet_io::List;

/// Whether one of these positions is seen.
fn has_seen(seen: &[bool], positions: &[usize]) -> bool
    requires { All (λ to. to < length seen.now) positions.now }
    ensures some { OnTrue result (HasSeen seen.now positions.now) }
    ensures none { OnFalse result ((x : ℕ) → Contains positions.now x → IsSeen seen.now x → ⊥) }
{
    for position in positions {
        if seen[*position] {
            return true;
        }
    }
    false
}

/// Marks the positions that lie on a cycle; nothing is seen yet.
///
/// The positions are taken from the last one of the order on. A position lies on a cycle where one of its
/// steps goes to a position from which steps lead to it or to one that was taken before it.
fn mark_all(
    alloc: Global,
    table: &[List<usize>],
    reverse: &[List<usize>],
    mut order: Vec<usize>,
    seen: &mut [bool],
    marks: &mut [bool],
) -> Result<(), AllocError>
    requires within { IsWithin table.now }
    requires reverse { IsReverse table.now reverse.now }
    requires inside { IsWithin reverse.now }
    requires order { IsOrder table.now order.items }
    requires unseen { seen.old ≡ replicate (length table.now) false }
    requires count { length marks.old ≡ length table.now }
    ensures { OnOk result (AreMarks table.now marks.new) }
{
    while let Some(position) = order.pop() {
        see_more(alloc, reverse, &[position], reverse.len(), seen)?;
        marks[position] = has_seen(seen, steps_at(table, position));
    }
    Ok(())
}

/// Which positions lie on a cycle of a table's steps.
///
/// The time is in proportion to the positions and the steps: each position is seen twice, and each step
/// looked at once in the table and once the other way round, and once more for the mark.
pub fn cyclic_positions(alloc: Global, table: &[List<usize>]) -> Result<Vec<bool>, AllocError>
    requires { IsWithin table.now }
    ensures count { IfOk result (λ marks. length marks.items ≡ length table.now) }
    ensures marked { IfOk result (λ marks. (x : ℕ) → x < length table.now → IsMarkedRight table.now marks.items x) }
{
    let reverse = reverse_of(alloc, table)?;
    let order = order_of(alloc, table)?;
    let mut seen = vec![in alloc; false; table.len()]?;
    let mut marks = vec![in alloc; false; table.len()]?;
    mark_all(alloc, table, &reverse, order, &mut seen, &mut marks)?;
    Ok(marks)
}
