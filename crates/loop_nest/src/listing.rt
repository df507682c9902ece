//! The list of a function's loops.

ghost use Rattle.std.specs.Prelude.{◌≡◌, ℕ, ◌<◌, All, AllPairs, List, length, IfOk, OnOk, Some, slice_get, Option};
ghost use Rattle.step_table.specs.Listing.{AreUnmarked};
ghost use Rattle.step_table.specs.Search.{AreApart};
ghost use Rattle.step_table.specs.Table.{IsWithin};

use crate::bodies::body_of;
use crate::nest::Loop;
use std::alloc::{AllocError, Global};
use step_table::steps_at;
use wcet_io::List;

/// The loops of a function, or the first header without a bound.
#[derive(Debug, Drop)]
pub enum Listed {
    /// By rising headers.
    Loops(List<Loop>),
    /// The position of the header.
    Unbounded(usize),
}

ghost use Rattle.loop_nest.specs.Listing.{IsHead, IsListed, IsListing, IsLoopAt};

/// The addresses at rising positions.
fn addresses_at(
    alloc: Global,
    addresses: &[u32],
    positions: &[usize],
) -> Result<List<u32>, AllocError>
    requires rising { AllPairs (λ a b. a < b) addresses.now }
    requires positions { AllPairs (λ a b. a < b) positions.now }
    requires within { All (λ position. position < length addresses.now) positions.now }
    ensures { IfOk result (IsListing addresses.now positions.now) }
{
    let mut list = List::new(alloc);
    for position in positions {
        list.push(addresses[*position])?;
    }
    Ok(list)
}

/// The addresses at these positions, rising.
fn addresses_in(
    alloc: Global,
    addresses: &[u32],
    mut positions: Vec<usize>,
) -> Result<List<u32>, AllocError>
    requires rising { AllPairs (λ a b. a < b) addresses.now }
    requires apart { AreApart positions.items }
    requires within { All (λ position. position < length addresses.now) positions.items }
    ensures { IfOk result (IsListing addresses.now positions.items) }
{
    positions.sort_unstable();
    addresses_at(alloc, addresses, &positions)
}

/// The loop of a header, whose back arcs come from these positions; no position is marked.
fn loop_of(
    alloc: Global,
    addresses: &[u32],
    reverse: &[List<usize>],
    from: &[usize],
    header: usize,
    bound: u32,
    marks: &mut [bool],
) -> Result<Loop, AllocError>
    requires rising { AllPairs (λ a b. a < b) addresses.now }
    requires count { length addresses.now ≡ length reverse.now }
    requires within { IsWithin reverse.now }
    requires from { All (λ source. source < length reverse.now) from.now }
    requires some { 0 < length from.now }
    requires header { header < length reverse.now }
    requires unmarked { AreUnmarked (length reverse.now) marks.old }
    ensures is { IfOk result (λ one. (sources : List (List ℕ)) (bounds : List (Option ℕ)) →
        slice_get sources header ≡ Some from.now → slice_get bounds header ≡ Some (Some bound) →
        IsLoopAt addresses.now reverse.now sources bounds header one) }
    ensures unmarked { OnOk result (AreUnmarked (length reverse.now) marks.new) }
{
    let positions = body_of(alloc, reverse, from, header, marks)?;
    let body = addresses_in(alloc, addresses, positions)?;
    Ok(Loop {
        header: addresses[header],
        body,
        bound,
    })
}

/// Lists the loops by rising headers up to the first one without a bound; no position is marked yet.
fn list_each(
    alloc: Global,
    addresses: &[u32],
    reverse: &[List<usize>],
    sources: &[List<usize>],
    bounds: &[Option<u32>],
    marks: &mut [bool],
) -> Result<Listed, AllocError>
    requires rising { AllPairs (λ a b. a < b) addresses.now }
    requires count { length addresses.now ≡ length reverse.now }
    requires within { IsWithin reverse.now }
    requires sources { IsWithin sources.now }
    requires headers { length sources.now ≡ length reverse.now }
    requires bounds { length bounds.now ≡ length reverse.now }
    requires unmarked { AreUnmarked (length reverse.now) marks.old }
    ensures { IfOk result (IsListed addresses.now reverse.now sources.now bounds.now) }
{
    let mut loops = List::new(alloc);
    for header in 0..sources.len() {
        let from = steps_at(sources, header);
        if from.is_empty() {
            continue;
        }
        let Some(bound) = bounds[header] else {
            return Ok(Listed::Unbounded(header));
        };
        loops.push(loop_of(alloc, addresses, reverse, from, header, bound, marks)?)?;
    }
    Ok(Listed::Loops(loops))
}

/// The loops of a function by rising headers, or the first header without a bound.
///
/// The time is in proportion to the bodies, but that each is sorted.
pub fn list_loops(
    alloc: Global,
    addresses: &[u32],
    reverse: &[List<usize>],
    sources: &[List<usize>],
    bounds: &[Option<u32>],
) -> Result<Listed, AllocError>
    requires rising { AllPairs (λ a b. a < b) addresses.now }
    requires count { length addresses.now ≡ length reverse.now }
    requires within { IsWithin reverse.now }
    requires sources { IsWithin sources.now }
    requires headers { length sources.now ≡ length reverse.now }
    requires bounds { length bounds.now ≡ length reverse.now }
    ensures { IfOk result (IsListed addresses.now reverse.now sources.now bounds.now) }
{
    let mut marks = vec![in alloc; false; reverse.len()]?;
    list_each(alloc, addresses, reverse, sources, bounds, &mut marks)
}
