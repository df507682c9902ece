//! The index of segments by their addresses.

ghost use Rattle.std.specs.Prelude.{◌≡◌, ◌<◌, ◌≤◌, All, Contains, IfOk, IfSome, IfNone};
ghost use Rattle.std.specs.List.Sorted.{IsPermutation, IsNonDecreasingBy};
ghost use Rattle.elf_mips.specs.Segments.{starts_of};

use crate::segment::{Segment, Start};
use std::alloc::{AllocError, Global};
use wcet_io::List;

/// Where each segment begins, by rising addresses.
pub fn index_of(alloc: Global, segments: &[Segment]) -> Result<List<Start>, AllocError>
    ensures once { IfOk result (IsPermutation (starts_of segments.now)) }
    ensures rising { IfOk result (IsNonDecreasingBy (λ start. start.address)) }
{
    let mut starts = list_starts(alloc, segments)?;
    starts.sort_by_key(|start| start.address)?;
    Ok(List::from_vec(starts))
}

/// Where each segment begins, in the order of the segments.
fn list_starts(alloc: Global, segments: &[Segment]) -> Result<Vec<Start>, AllocError>
    ensures { IfOk result (λ starts. starts.items ≡ starts_of segments.now) }
{
    segments
        .iter()
        .enumerate()
        .map(|(number, segment)| Start {
            address: segment.address,
            number,
        })
        .collect(alloc)
}

/// The last start at an address or below it.
pub fn last_start(starts: &[Start], address: u32) -> Option<Start>
    requires { IsNonDecreasingBy (λ start. start.address) starts.now }
    ensures item { IfSome result (Contains starts.now) }
    ensures below { IfSome result (λ start. start.address ≤ address) }
    ensures last { IfSome result
        (λ last. All (λ s. s.address ≤ address → s.address ≤ last.address) starts.now) }
    ensures none { IfNone result (All (λ other. address < other.address) starts.now) }
{
    let front = starts.partition_point(|start| start.address <= address);
    if front == 0 {
        return None;
    }
    Some(starts[front - 1])
}
