//! Whether what a start is to put into memory has its place there.

ghost use Rattle.std.specs.Prelude.{◌≡◌, ◌+◌, ◌&&◌, ◌||◌, nat_le, All, length, map};
ghost use Rattle.std.specs.Bool.{OnFalse, OnTrue};
ghost use Rattle.std.specs.List.{list_any};
ghost use Rattle.mips_machine.specs.Image.{IsFillable, area_of, region_of, regions_of, stack_of, takes_fill, zeros_at};

use crate::fill::Fill;
use cache_config::{AREA_ABOVE, Profile, Region};
use elf_mips::{Image, Segment};

/// Whether all bytes of a fill lie among so many bytes from a start on.
fn lies_in(fill: &Fill, start: u32, size: u32) -> bool
    ensures { result ≡ (nat_le start fill.now.address
        && nat_le (fill.now.address + length fill.now.bytes) (start + size)) }
{
    let fill_end = u64::from(fill.address) + fill.bytes.as_slice().len() as u64;
    start <= fill.address && fill_end <= u64::from(start) + u64::from(size)
}

/// Whether a segment can be written and holds all bytes of a fill.
fn segment_takes(segment: &Segment, fill: &Fill) -> bool
    requires { length segment.now.bytes ≡ segment.now.size }
    ensures { result ≡ takes_fill fill.now (region_of segment.now) }
{
    segment.flags / 2 % 2 == 1 && lies_in(fill, segment.address, segment.size)
}

/// Whether one of an image's segments takes a fill.
fn segments_take(image: &Image, fill: &Fill) -> bool
    ensures { result ≡ list_any (takes_fill fill.now) (map region_of image.now.segments) }
{
    for segment in image.segments.as_slice() {
        if segment_takes(segment, fill) {
            return true;
        }
    }
    false
}

/// Whether zeros that can be written hold all bytes of a fill.
fn zeros_take(start: u32, size: u32, fill: &Fill) -> bool
    ensures { result ≡ takes_fill fill.now (zeros_at start size) }
{
    lies_in(fill, start, size)
}

/// Whether one of a profile's regions takes a fill.
fn areas_take(areas: &[Region], fill: &Fill) -> bool
    ensures { result ≡ list_any (takes_fill fill.now) (map area_of areas.now) }
{
    for area in areas {
        if zeros_take(area.start, area.size, fill) {
            return true;
        }
    }
    false
}

/// Whether the stack or one of a profile's regions takes a fill.
fn profile_takes(profile: &Profile, fill: &Fill) -> bool
    ensures { result ≡ (takes_fill fill.now (stack_of profile.now)
        || list_any (takes_fill fill.now) (map area_of profile.now.regions)) }
{
    let stack = profile.stack_top - profile.stack_size;
    zeros_take(stack, profile.stack_size + AREA_ABOVE as u32, fill)
        || areas_take(profile.regions.as_slice(), fill)
}

/// Whether the bytes of a fill, where it has some, lie in one region that can be written.
fn is_fillable(image: &Image, profile: &Profile, fill: &Fill) -> bool
    ensures fits { OnTrue result (IsFillable (regions_of image.now profile.now) fill.now) }
    ensures unfit { OnFalse result (IsFillable (regions_of image.now profile.now) fill.now → ⊥) }
{
    fill.bytes.as_slice().is_empty() || segments_take(image, fill) || profile_takes(profile, fill)
}

/// Whether the bytes of each fill lie in one region that can be written.
///
/// It is the test of what a machine's start asks of what is put into memory. It takes no memory.
pub fn are_fillable(image: &Image, profile: &Profile, memory: &[Fill]) -> bool
    ensures fit { OnTrue result (All (IsFillable (regions_of image.now profile.now)) memory.now) }
    ensures unfit { OnFalse result
        (All (IsFillable (regions_of image.now profile.now)) memory.now → ⊥) }
{
    for fill in memory {
        if !is_fillable(image, profile, fill) {
            return false;
        }
    }
    true
}
