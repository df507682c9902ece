//! The least address that a loaded segment shares with the memory that a profile gives.

ghost use Rattle.std.specs.Prelude.{◌≡◌, ◌+◌, IfNone, IfSome, length};
ghost use Rattle.mips_machine.specs.Image.{HasNoClash, region_of, zeros_at};
ghost use Rattle.mips_machine.specs.Clash.{FindsLeast, IsClash, IsShared, IsSharedBy, given_regions, lesser_of};

use cache_config::{AREA_ABOVE, Profile, Region};
use elf_mips::{Image, Segment};

/// The lesser of two addresses.
fn lesser_of(address: Option<u32>, other: Option<u32>) -> Option<u32>
    ensures { result ≡ lesser_of address other }
{
    match (address, other) {
        (None, _) => other,
        (Some(_), None) => address,
        (Some(address), Some(other)) => Some(address.min(other)),
    }
}

/// The least address that lies in the segment and in the span.
fn shared_with(segment: &Segment, start: u32, size: u32) -> Option<u32>
    requires { length segment.now.bytes ≡ segment.now.size }
    ensures { FindsLeast (IsShared (region_of segment.now) (zeros_at start size)) result }
{
    let first = segment.address.max(start);
    let end = u64::from(segment.address) + u64::from(segment.size);
    let other_end = u64::from(start) + u64::from(size);
    if u64::from(first) < end.min(other_end) {
        Some(first)
    } else {
        None
    }
}

/// The least address that lies in the segment, and in the stack or a region of the profile.
fn shared_by(segment: &Segment, profile: &Profile) -> Option<u32>
    requires { length segment.now.bytes ≡ segment.now.size }
    ensures { FindsLeast (IsSharedBy (region_of segment.now) (given_regions profile.now)) result }
{
    let stack = profile.stack_top - profile.stack_size;
    let mut least = shared_with(segment, stack, profile.stack_size + AREA_ABOVE as u32);
    for area in profile.regions.as_slice() {
        least = lesser_of(least, shared_with(segment, area.start, area.size));
    }
    least
}

/// The least address that a loaded segment shares with the stack or a region of the profile; none where all of them lie
/// apart, as a machine's start asks. The stack has the area of its caller's arguments above its top.
///
/// It takes no memory.
pub fn clash_place(image: &Image, profile: &Profile) -> Option<u32>
    ensures least { FindsLeast (IsClash image.now profile.now) result }
    ensures apart { IfNone result (HasNoClash image.now profile.now) }
    ensures clash { IfSome result (λ address. HasNoClash image.now profile.now → ⊥) }
{
    let mut least = None;
    for segment in image.segments.as_slice() {
        least = lesser_of(least, shared_by(segment, profile));
    }
    least
}
