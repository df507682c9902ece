//! Searching a table of steps: to which positions steps lead.

ghost use Rattle.std.specs.Prelude.{◌≡◌, ℕ, ◌<◌, ◌∷◌, ◌++◌, [], All, Contains, List, length, slice_get, Some, IfOk, OnOk};
ghost use Rattle.step_table.specs.Search.{IsSearch, Sees, SeesMet};
ghost use Rattle.step_table.specs.Table.{IsWithin};

use std::alloc::{AllocError, Global};
use wcet_io::List;

/// The positions that follow one.
pub fn steps_at(table: &[List<usize>], position: usize) -> &[usize]
    requires within { IsWithin table.now }
    requires there { position < length table.now }
    ensures there { slice_get table.now position ≡ Some result.now }
    ensures within { All (λ to. to < length table.now) result.now }
{
    table[position].as_slice()
}

/// Sees a position that isn't barred, and lets it wait if it wasn't seen before.
fn see(
    position: usize,
    barred: usize,
    seen: &mut [bool],
    waiting: &mut Vec<usize>,
) -> Result<(), AllocError>
    requires { position < length seen.old }
    ensures { OnOk result
        (Sees (position ∷ []) barred seen.old waiting.old.items seen.new waiting.new.items) }
{
    if position == barred {
        return Ok(());
    }
    if !seen[position] {
        waiting.push(position)?;
        seen[position] = true;
    }
    Ok(())
}

/// Sees these positions but the barred one, and lets those wait that weren't seen before.
pub fn see_all(
    positions: &[usize],
    barred: usize,
    seen: &mut [bool],
    waiting: &mut Vec<usize>,
) -> Result<(), AllocError>
    requires { All (λ to. to < length seen.old) positions.now }
    ensures { OnOk result
        (Sees positions.now barred seen.old waiting.old.items seen.new waiting.new.items) }
{
    for position in positions {
        see(*position, barred, seen, waiting)?;
    }
    Ok(())
}

/// Goes on with a search until no position waits.
fn see_waiting(
    table: &[List<usize>],
    mut waiting: Vec<usize>,
    barred: usize,
    seen: &mut [bool],
) -> Result<(), AllocError>
    requires within { IsWithin table.now }
    requires sized { length seen.old ≡ length table.now }
    requires inside { (x : ℕ) → Contains waiting.items x → x < length seen.old }
    ensures { OnOk result ((starts : List ℕ) → IsSearch table.now starts barred seen.old waiting.items →
        SeesMet table.now starts barred seen.new) }
{
    while let Some(next) = waiting.pop() {
        see_all(steps_at(table, next), barred, seen, &mut waiting)?;
    }
    Ok(())
}

/// Sees the positions to which steps lead from some more, where those from others are seen.
///
/// Each position waits once, so that all these searches with one list of what is seen take time in proportion
/// to the table.
pub fn see_more(
    alloc: Global,
    table: &[List<usize>],
    starts: &[usize],
    barred: usize,
    seen: &mut [bool],
) -> Result<(), AllocError>
    requires within { IsWithin table.now }
    requires starts { All (λ start. start < length table.now) starts.now }
    requires sized { length seen.old ≡ length table.now }
    ensures { OnOk result ((others : List ℕ) → SeesMet table.now others barred seen.old →
        SeesMet table.now (others ++ starts.now) barred seen.new) }
{
    let mut waiting = Vec::new(alloc);
    see_all(starts, barred, seen, &mut waiting)?;
    see_waiting(table, waiting, barred, seen)?;
    Ok(())
}

/// Of each position whether steps lead to it from some positions, themselves among them, without coming
/// to the barred one.
pub fn met_from(
    alloc: Global,
    table: &[List<usize>],
    starts: &[usize],
    barred: usize,
) -> Result<Vec<bool>, AllocError>
    requires within { IsWithin table.now }
    requires starts { All (λ start. start < length table.now) starts.now }
    ensures { IfOk result (λ seen. SeesMet table.now starts.now barred seen.items) }
{
    let mut seen = vec![in alloc; false; table.len()]?;
    see_more(alloc, table, starts, barred, &mut seen)?;
    Ok(seen)
}
