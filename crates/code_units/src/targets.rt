//! The targets that records give to indirect jumps and calls.

ghost use Rattle.std.specs.Prelude.{◌≡◌, ◌==◌, All, Contains, IfOk, filter};
ghost use Rattle.std.specs.List.Sorted.{IsNonDecreasingBy};
ghost use Rattle.code_units.specs.Targets.{AreTargets};

use elf_mips::{Image, Mark};
use std::alloc::{AllocError, Global};
use wcet_io::List;

/// The records of targets, in their order.
fn named_targets(alloc: Global, marks: &[Mark]) -> Result<Vec<Mark>, AllocError>
    ensures { IfOk result (λ named. named.items ≡ filter (λ mark. mark.kind == 2) marks.now) }
{
    marks
        .iter()
        .copied()
        .filter(|mark| mark.kind == 2)
        .collect(alloc)
}

/// The records of targets, by the rising addresses of their jumps and calls.
pub fn targets_of(alloc: Global, image: &Image) -> Result<List<Mark>, AllocError>
    ensures { IfOk result (AreTargets image.now) }
{
    let mut targets = named_targets(alloc, image.marks.as_slice())?;
    targets.sort_by_key(|mark| mark.address)?;
    Ok(List::from_vec(targets))
}

/// The records of the targets of the jump or call at an address, by two searches.
pub fn targets_at(targets: &[Mark], address: u32) -> &[Mark]
    requires { IsNonDecreasingBy (λ mark. mark.address) targets.now }
    ensures within { All (Contains targets.now) result.now }
    ensures sound { All (λ mark. mark.address ≡ address) result.now }
    ensures whole { All (λ mark. mark.address ≡ address → Contains result.now mark) targets.now }
{
    let from = targets.partition_point(|mark| mark.address < address);
    let to = targets.partition_point(|mark| mark.address <= address);
    let (_, rest) = targets.split_at(from);
    let (found, _) = rest.split_at(to - from);
    found
}
