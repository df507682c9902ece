//! The slots that hold the blocks of a cache: a way after the other, a set after the other.

ghost use Rattle.std.specs.Prelude.{◌≡◌, ◌≢◌, ℕ, ◌+◌, ◌<◌, ◌≤◌, ◌++◌, Some, length, IfNone, IfOk, IfSome, OnOk};
ghost use Rattle.std.specs.List.{flat_map};
ghost use Rattle.lru_concrete.specs.Slots.{block_at, ways_of};

use std::alloc::{AllocError, Global};
use wcet_io::List;

/// Adds the ways of a set that holds these blocks.
fn push_ways(slots: &mut Vec<Option<u32>>, ways: u32, blocks: &[u32]) -> Result<(), AllocError>
    ensures { OnOk result (slots.new.items ≡ slots.old.items ++ ways_of ways blocks.now) }
{
    for way in 0..ways as usize {
        slots.push(blocks.get(way).copied())?;
    }
    Ok(())
}

/// The slots of sets that hold these blocks.
pub(crate) fn slots_holding(
    alloc: Global,
    ways: u32,
    sets: &[List<u32>],
) -> Result<Vec<Option<u32>>, AllocError>
    ensures { IfOk result (λ slots. slots.items ≡ flat_map (ways_of ways) sets.now) }
{
    let mut slots = Vec::new(alloc);
    for blocks in sets {
        push_ways(&mut slots, ways, blocks.as_slice())?;
    }
    Ok(slots)
}

/// The slot that holds a block, among those from the first one up to the end.
///
/// It looks at no more slots than a set has ways.
pub(crate) fn find(slots: &[Option<u32>], first: u32, end: u32, block: u32) -> Option<u32>
    requires { end ≤ length slots.now }
    ensures within { IfSome result (λ slot. (first ≤ slot) × (slot < end)) }
    ensures found { IfSome result (λ slot. block_at slots.now slot ≡ Some block) }
    ensures none { IfNone result ((slot : ℕ) → first ≤ slot → slot < end → block_at slots.now slot ≢ Some block) }
{
    for slot in first..end {
        if slots[slot as usize] == Some(block) {
            return Some(slot);
        }
    }
    None
}
