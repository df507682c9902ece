//! Finding back arcs by removing headers.

ghost use Rattle.std.specs.Prelude.{◌≡◌, ◌<◌, ◌∷◌, [], ◌↔◌, ℕ, All, Contains, length, IfOk, OnOk};
ghost use Rattle.loop_nest.specs.Arcs.{AreBacks, HaveBacks};
ghost use Rattle.step_table.specs.Listing.{AreUnmarked};
ghost use Rattle.step_table.specs.Search.{IsSeen};
ghost use Rattle.step_table.specs.Table.{IsMet, IsReverse, IsWithin};

use crate::retreats::is_passed;
use std::alloc::{AllocError, Global};
use step_table::{met_from, steps_at};
use wcet_io::List;

/// Those of the positions that weren't seen.
fn unseen_of(alloc: Global, positions: &[usize], seen: &[bool]) -> Result<List<usize>, AllocError>
    requires { All (λ position. position < length seen.now) positions.now }
    ensures { IfOk result (λ list. (x : ℕ) → Contains list x ↔ (Contains positions.now x × (IsSeen seen.now x → ⊥))) }
{
    let mut list = List::new(alloc);
    for position in positions {
        if seen[*position] {
            continue;
        }
        list.push(*position)?;
    }
    Ok(list)
}

/// Those of the positions that aren't met from the entry without the header, by a search from the entry.
fn behind(
    alloc: Global,
    table: &[List<usize>],
    positions: &[usize],
    entry: usize,
    header: usize,
) -> Result<List<usize>, AllocError>
    requires within { IsWithin table.now }
    requires positions { All (λ position. position < length table.now) positions.now }
    requires entry { entry < length table.now }
    ensures { IfOk result (λ list. (x : ℕ) → Contains list x ↔
        (Contains positions.now x × (IsMet table.now (entry ∷ []) header x → ⊥))) }
{
    let seen = met_from(alloc, table, &[entry], header)?;
    unseen_of(alloc, positions, &seen)
}

/// The same, by a search from the entry only where one backwards from the positions comes to the entry; no
/// position is marked. Where that one doesn't, the entry leads to none of the positions without the header.
fn sources_of(
    alloc: Global,
    table: &[List<usize>],
    reverse: &[List<usize>],
    positions: &[usize],
    entry: usize,
    header: usize,
    marks: &mut [bool],
) -> Result<List<usize>, AllocError>
    requires within { IsWithin table.now }
    requires reversed { IsReverse table.now reverse.now }
    requires reverse { IsWithin reverse.now }
    requires positions { All (λ position. position < length table.now) positions.now }
    requires entry { entry < length table.now }
    requires unmarked { AreUnmarked (length reverse.now) marks.old }
    ensures behind { IfOk result (λ list. (x : ℕ) → Contains list x ↔
        (Contains positions.now x × (IsMet table.now (entry ∷ []) header x → ⊥))) }
    ensures unmarked { OnOk result (AreUnmarked (length reverse.now) marks.new) }
{
    if is_passed(alloc, reverse, positions, entry, header, marks)? {
        return behind(alloc, table, positions, entry, header);
    }
    Ok(List::from_vec(Vec::from_slice(alloc, positions)?))
}

/// The back arcs to each header, one header after another; no position is marked yet.
fn backs_each(
    alloc: Global,
    table: &[List<usize>],
    reverse: &[List<usize>],
    steps: &[List<usize>],
    entry: usize,
    marks: &mut [bool],
) -> Result<Vec<List<usize>>, AllocError>
    requires within { IsWithin table.now }
    requires reversed { IsReverse table.now reverse.now }
    requires reverse { IsWithin reverse.now }
    requires entry { entry < length table.now }
    requires steps { IsWithin steps.now }
    requires backs { HaveBacks table.now entry steps.now }
    requires unmarked { AreUnmarked (length reverse.now) marks.old }
    ensures { IfOk result (λ sources. AreBacks table.now entry sources.items) }
{
    let mut sources = Vec::new(alloc);
    for header in 0..steps.len() {
        let from = steps_at(steps, header);
        sources.push(sources_of(alloc, table, reverse, from, entry, header, marks)?)?;
    }
    Ok(sources)
}

/// The back arcs of a table, among steps that are listed by their headers.
///
/// It takes one search backwards for each header of such a step, in proportion to what is met from its sources
/// without it. Where no way from the entry passes the header by, that is its body; each header that is passed by
/// costs one search of the table more.
pub fn backs_of(
    alloc: Global,
    table: &[List<usize>],
    reverse: &[List<usize>],
    steps: &[List<usize>],
    entry: usize,
) -> Result<Vec<List<usize>>, AllocError>
    requires within { IsWithin table.now }
    requires reversed { IsReverse table.now reverse.now }
    requires reverse { IsWithin reverse.now }
    requires entry { entry < length table.now }
    requires steps { IsWithin steps.now }
    requires backs { HaveBacks table.now entry steps.now }
    ensures { IfOk result (λ sources. AreBacks table.now entry sources.items) }
{
    let mut marks = vec![in alloc; false; reverse.len()]?;
    backs_each(alloc, table, reverse, steps, entry, &mut marks)
}
