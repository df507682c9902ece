//! The records of ranges, and what they leave to a load or store.

ghost use Rattle.std.specs.Prelude.{◌≡◌, ◌==◌, ◌+◌, ◌<◌, ◌^◌, IfOk, filter};
ghost use Rattle.image_run.specs.Ranges.{AreRanges, IsCut, IsLimits, within};

use code_units::targets_at;
use elf_mips::{Image, Mark};
use mips_decode::Touched;
use std::alloc::{AllocError, Global};
use wcet_io::List;

/// From which address on and before which one all bytes of a load or store have to lie.
#[derive(Clone, Copy, Debug, PartialEq, Eq)]
pub struct Limits {
    pub from: u32,
    pub to: u64,
}

impl Limits {
    /// Whether all bytes of a load or store lie there.
    pub fn hold(&self, access: &Touched) -> bool
        ensures holds { result ≡ within self.now access.now }
        ensures small { access.now.address + access.now.size < 2 ^ 64 }
    {
        let end = u64::from(access.address) + u64::from(access.size);
        self.from <= access.address && end <= self.to
    }
}

/// The records of ranges, in their order.
fn named_ranges(alloc: Global, marks: &[Mark]) -> Result<Vec<Mark>, AllocError>
    ensures { IfOk result (λ named. named.items ≡ filter (λ mark. mark.kind == 3) marks.now) }
{
    marks
        .iter()
        .copied()
        .filter(|mark| mark.kind == 3)
        .collect(alloc)
}

/// The records of ranges, by the rising addresses of their loads and stores.
pub fn ranges_of(alloc: Global, image: &Image) -> Result<List<Mark>, AllocError>
    ensures { IfOk result (AreRanges image.now) }
{
    let mut ranges = named_ranges(alloc, image.marks.as_slice())?;
    ranges.sort_by_key(|mark| mark.address)?;
    Ok(List::from_vec(ranges))
}

/// What these records leave together.
fn cut(marks: &[Mark]) -> Limits
    ensures { IsCut marks.now result }
{
    let mut limits = Limits {
        from: 0,
        to: u64::MAX,
    };
    for mark in marks {
        limits = Limits {
            from: limits.from.max(mark.x),
            to: limits.to.min(u64::from(mark.y)),
        };
    }
    limits
}

/// What the records leave to the load or store of the instruction at an address, by two searches.
pub fn limits_at(image: &Image, ranges: &[Mark], address: u32) -> Limits
    requires { AreRanges image.now ranges.now }
    ensures { IsLimits image.now address result }
{
    cut(targets_at(ranges, address))
}
