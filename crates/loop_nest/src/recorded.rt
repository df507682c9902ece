//! The bounds that an image's records give, by the addresses at which they stand.

ghost use Rattle.std.specs.Prelude.{◌≡◌, ◌++◌, ◌∷◌, [], List, Some, IfOk, OnOk};
ghost use Rattle.std.specs.BTreeMap.{get};
ghost use Rattle.std.specs.Ordering.{nat_cmp};
ghost use Rattle.loop_nest.specs.Bounds.{AreRecorded, lesser_of};
ghost use Rattle.elf_mips.specs.declared.mark.Mark.{Mark};

use elf_mips::Mark;
use std::alloc::{AllocError, Global};
use std::collections::BTreeMap;

/// The lesser one of a bound, if there is one, and of one more.
pub fn lesser(bound: Option<u32>, x: u32) -> u32
    ensures { Some result ≡ lesser_of bound (Some x) }
{
    match bound {
        Some(bound) => bound.min(x),
        None => x,
    }
}

/// The bound that is recorded at an address, if there is one.
pub fn bound_at(recorded: &BTreeMap<u64, u32>, address: u64) -> Option<u32>
    ensures { result ≡ get nat_cmp recorded.now address }
{
    recorded.get(&address).copied()
}

/// Takes one more record into account.
fn record_one(mark: &Mark, recorded: &mut BTreeMap<u64, u32>) -> Result<(), AllocError>
    ensures { OnOk result ((marks : List Mark) → AreRecorded marks (get nat_cmp recorded.old) →
        AreRecorded (marks ++ mark.now ∷ []) (get nat_cmp recorded.new)) }
{
    if mark.kind != 1 {
        return Ok(());
    }
    let address = u64::from(mark.address);
    let least = lesser(bound_at(recorded, address), mark.x);
    let _ = recorded.insert(address, least)?;
    Ok(())
}

/// For each address the least bound of the records there, in time of the records times a logarithm.
///
/// An address has 64 bits, so that four more bytes fit.
pub fn recorded_bounds(alloc: Global, marks: &[Mark]) -> Result<BTreeMap<u64, u32>, AllocError>
    ensures { IfOk result (λ recorded. AreRecorded marks.now (get nat_cmp recorded)) }
{
    let mut recorded = BTreeMap::new(alloc);
    for mark in marks {
        record_one(mark, &mut recorded)?;
    }
    Ok(recorded)
}
