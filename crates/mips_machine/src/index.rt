//! The index of regions by their addresses.

ghost use Rattle.std.specs.Prelude.{◌≡◌, IfOk};
ghost use Rattle.std.specs.List.Sorted.{IsPermutation, IsNonDecreasingBy};
ghost use Rattle.mips_machine.specs.Index.{spans_of, starts_of};

use crate::region::Region;
use elf_mips::Start;
use std::alloc::{AllocError, Global};

/// Where each region begins, by rising addresses.
pub fn index_of(alloc: Global, regions: &[Region]) -> Result<Vec<Start>, AllocError>
    ensures once { IfOk result
        (λ starts. IsPermutation (starts_of (spans_of regions.now)) starts.items) }
    ensures rising { IfOk result
        (λ starts. IsNonDecreasingBy (λ start. start.address) starts.items) }
{
    let mut starts = list_starts(alloc, regions)?;
    starts.sort_by_key(|start| start.address)?;
    Ok(starts)
}

/// Where each region begins, in the order of the regions.
fn list_starts(alloc: Global, regions: &[Region]) -> Result<Vec<Start>, AllocError>
    ensures { IfOk result (λ starts. starts.items ≡ starts_of (spans_of regions.now)) }
{
    let mut starts = Vec::new(alloc);
    for (number, region) in regions.iter().enumerate() {
        let address = region.start();
        starts.push(Start { address, number })?;
    }
    Ok(starts)
}
