//! Lists of the positions to which steps lead.

ghost use Rattle.std.specs.Prelude.{◌≡◌, ◌<◌, [], ℕ, All, Contains, length, IfOk, OnOk};
ghost use Rattle.step_table.specs.Listing.{AreUnmarked, ListsMet, ListsSeen};
ghost use Rattle.step_table.specs.Search.{IsSeen};
ghost use Rattle.step_table.specs.Table.{IsWithin};

use crate::search::{see_all, steps_at};
use std::alloc::{AllocError, Global};
use wcet_io::List;

/// Sees and lists the positions to which steps lead; nothing is seen or listed yet.
fn list_seen(
    table: &[List<usize>],
    starts: &[usize],
    barred: usize,
    seen: &mut [bool],
    list: &mut Vec<usize>,
) -> Result<(), AllocError>
    requires within { IsWithin table.now }
    requires starts { All (λ start. start < length table.now) starts.now }
    requires unmarked { AreUnmarked (length table.now) seen.old }
    requires empty { list.old.items ≡ [] }
    ensures { OnOk result (ListsSeen table.now starts.now barred seen.new list.new.items) }
{
    see_all(starts, barred, seen, list)?;
    let mut first = 0;
    while first < list.len() {
        let next = list[first];
        see_all(steps_at(table, next), barred, seen, list)?;
        first += 1;
    }
    Ok(())
}

/// Takes the marks of these positions away.
fn unmark(marks: &mut [bool], positions: &[usize])
    requires { All (λ position. position < length marks.old) positions.now }
    ensures count { length marks.new ≡ length marks.old }
    ensures left { (x : ℕ) → IsSeen marks.new x → IsSeen marks.old x × (Contains positions.now x → ⊥) }
{
    for position in positions {
        marks[*position] = false;
    }
}

/// The positions to which steps lead from some positions, themselves among them, without coming to the
/// barred one, each once.
///
/// No mark is set before, and none afterwards, so that the time is in proportion to these positions and
/// their steps, whatever the length of the table.
pub fn list_met(
    alloc: Global,
    table: &[List<usize>],
    starts: &[usize],
    barred: usize,
    marks: &mut [bool],
) -> Result<Vec<usize>, AllocError>
    requires within { IsWithin table.now }
    requires starts { All (λ start. start < length table.now) starts.now }
    requires unmarked { AreUnmarked (length table.now) marks.old }
    ensures list { IfOk result (λ list. ListsMet table.now starts.now barred list.items) }
    ensures unmarked { OnOk result (AreUnmarked (length table.now) marks.new) }
{
    let mut list = Vec::new(alloc);
    list_seen(table, starts, barred, marks, &mut list)?;
    unmark(marks, &list);
    Ok(list)
}
