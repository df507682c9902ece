//! The segments read so far, in the order of their program headers.

ghost use Rattle.std.specs.Prelude.{◌≡◌, ◌+◌, ◌-◌, ◌<◌, ◌≤◌, ◌++◌, ◌∷◌, [], false, All, AllPairs, IfOk, IfErr};
ghost use Rattle.std.specs.List.{list_any};
ghost use Rattle.std.specs.BTreeMap.{get};
ghost use Rattle.std.specs.Ordering.{nat_cmp};
ghost use Rattle.std.proofs.Props.{props};
ghost use Rattle.elf_mips.specs.Segments.{IsFilled, EndsLow, AreApart, AreLawful, total_size, HasEnd, AreBegun, shares};

use crate::ends::last_before;
use crate::fault::ElfFault;
use crate::segment::Segment;
use std::alloc::Global;
use std::collections::BTreeMap;
use wcet_io::List;

/// The segments read so far.
#[derive(Drop)]
pub struct Loader {
    /// The segments, in the order of their program headers.
    pub segments: List<Segment>,
    /// Where each segment ends, by where it begins.
    pub ends: BTreeMap<u32, u32>,
    /// The bytes of all segments.
    pub total: u32,
    ghost filled: { All IsFilled segments },
    ghost low: { All EndsLow segments },
    ghost apart: { AllPairs AreApart segments },
    ghost summed: { total ≡ total_size segments },
    ghost fits: { total ≤ 67108864 },
    ghost ended: { All (HasEnd (get nat_cmp ends)) segments } by { Prim.hlevel props },
    ghost begun: { AreBegun (get nat_cmp ends) segments },
}

impl Loader {
    /// No segments yet.
    pub fn new(alloc: Global) -> Loader
        ensures { result.segments ≡ [] }
    {
        Loader {
            segments: List::new(alloc),
            ends: BTreeMap::new(alloc),
            total: 0,
        }
    }

    /// Whether a segment shares an address with those from `address` to below `end`.
    pub fn overlaps(&self, address: u32, end: u32) -> bool
        requires { address < end }
        ensures { result ≡ list_any (shares address end) self.now.segments }
    {
        match last_before(&self.ends, end) {
            Some((_, last_end)) => address < last_end,
            None => false,
        }
    }

    /// How many bytes more the segments may have.
    pub fn rest(&self) -> u32
        ensures { result ≡ 67108864 - total_size self.now.segments }
    {
        67_108_864 - self.total
    }

    /// The segments.
    pub fn into_segments(self) -> List<Segment>
        ensures same { result ≡ self.segments }
        ensures lawful { AreLawful result }
    {
        self.segments
    }

    /// Adds a segment.
    pub fn add(self, segment: Segment) -> Result<Loader, ElfFault>
        requires filled { IsFilled segment }
        requires low { EndsLow segment }
        requires apart { list_any (shares segment.address (segment.address + segment.size))
            self.segments ≡ false }
        requires fits { total_size self.segments + segment.size ≤ 67108864 }
        ensures ok { IfOk result (λ l. l.segments ≡ self.segments ++ segment ∷ []) }
        ensures err { IfErr result (λ e. e ≡ ElfFault.Memory) }
    {
        let Loader {
            mut segments,
            mut ends,
            total,
        } = self;
        let total = total + segment.size;
        let _ = ends.insert(segment.address, segment.address + segment.size)?;
        segments.push(segment)?;
        Ok(Loader {
            segments,
            ends,
            total,
        })
    }
}
