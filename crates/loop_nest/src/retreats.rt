//! Steps to positions with no lesser ranks, which alone may be back arcs.

ghost use Rattle.std.specs.Prelude.{◌≡◌, ◌<◌, ◌≤◌, ◌↔◌, ℕ, All, Contains, IsTrue, length, IfOk, OnOk};
ghost use Rattle.loop_nest.specs.Arcs.{AreRetreats, AreUnpassed};
ghost use Rattle.step_table.specs.Listing.{AreUnmarked};
ghost use Rattle.step_table.specs.Numbers.{number_of};
ghost use Rattle.step_table.specs.Table.{IsMet, IsWithin};

use std::alloc::{AllocError, Global};
use step_table::{list_met, steps_at};
use wcet_io::List;

/// Those of the positions whose ranks aren't greater than the header's.
fn retreating(
    alloc: Global,
    positions: &[usize],
    ranks: &[usize],
    header: usize,
) -> Result<List<usize>, AllocError>
    requires positions { All (λ position. position < length ranks.now) positions.now }
    requires header { header < length ranks.now }
    ensures { IfOk result (λ list. (x : ℕ) → Contains list x ↔
        (Contains positions.now x × (number_of ranks.now x ≤ number_of ranks.now header))) }
{
    let mut list = List::new(alloc);
    for position in positions {
        if ranks[*position] > ranks[header] {
            continue;
        }
        list.push(*position)?;
    }
    Ok(list)
}

/// For each position where the steps to it come from that don't fall in rank.
pub fn retreats_of(
    alloc: Global,
    reverse: &[List<usize>],
    ranks: &[usize],
) -> Result<Vec<List<usize>>, AllocError>
    requires within { IsWithin reverse.now }
    requires ranks { length ranks.now ≡ length reverse.now }
    ensures retreats { IfOk result (λ sources. AreRetreats reverse.now ranks.now sources.items) }
    ensures within { IfOk result (λ sources. IsWithin sources.items) }
{
    let mut sources = Vec::new(alloc);
    for header in 0..reverse.len() {
        sources.push(retreating(alloc, steps_at(reverse, header), ranks, header)?)?;
    }
    Ok(sources)
}

/// Whether a way from the entry to one of the sources misses the header; no position is marked.
pub fn is_passed(
    alloc: Global,
    reverse: &[List<usize>],
    sources: &[usize],
    entry: usize,
    header: usize,
    marks: &mut [bool],
) -> Result<bool, AllocError>
    requires within { IsWithin reverse.now }
    requires sources { All (λ source. source < length reverse.now) sources.now }
    requires unmarked { AreUnmarked (length reverse.now) marks.old }
    ensures passed { IfOk result (λ passed. IsTrue passed ↔ IsMet reverse.now sources.now header entry) }
    ensures unmarked { OnOk result (AreUnmarked (length reverse.now) marks.new) }
{
    let met = list_met(alloc, reverse, sources, header, marks)?;
    Ok(met.contains(&entry))
}

/// Whether no header is passed by; no position is marked yet.
fn are_unpassed(
    alloc: Global,
    reverse: &[List<usize>],
    sources: &[List<usize>],
    entry: usize,
    marks: &mut [bool],
) -> Result<bool, AllocError>
    requires within { IsWithin reverse.now }
    requires sources { IsWithin sources.now }
    requires count { length sources.now ≡ length reverse.now }
    requires unmarked { AreUnmarked (length reverse.now) marks.old }
    ensures { IfOk result (AreUnpassed reverse.now sources.now entry) }
{
    for header in 0..sources.len() {
        let from = steps_at(sources, header);
        if is_passed(alloc, reverse, from, entry, header, marks)? {
            return Ok(false);
        }
    }
    Ok(true)
}

/// Whether these steps are all back arcs: no way from the entry to a source misses its header.
///
/// It takes one search backwards for each header, in proportion to what is met from its sources without it,
/// up to the first header that is passed by. Where all are back arcs, these are the bodies.
pub fn are_backs(
    alloc: Global,
    reverse: &[List<usize>],
    sources: &[List<usize>],
    entry: usize,
) -> Result<bool, AllocError>
    requires within { IsWithin reverse.now }
    requires sources { IsWithin sources.now }
    requires count { length sources.now ≡ length reverse.now }
    ensures { IfOk result (AreUnpassed reverse.now sources.now entry) }
{
    let mut marks = vec![in alloc; false; reverse.len()]?;
    are_unpassed(alloc, reverse, sources, entry, &mut marks)
}
