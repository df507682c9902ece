//! The machine's memory: its regions, the executable words, and loads and stores.

ghost use Rattle.std.specs.Prelude.{◌≡◌, ℕ, ◌+◌, ◌%◌, ◌<◌, ◌≤◌, ◌^◌, List, length, map, IfNone, IfOk, IfErr, OnOk, IfSome, OnSome, OnErr, All, false, Some};
ghost use Rattle.mips_decode.specs.State.{code_at, covers, return_address};
ghost use Rattle.mips_decode.specs.State.{Region, State};
ghost use Rattle.mips_decode.specs.Effect.{Does, Traps, loaded, reg, stored, with_reg};
ghost use Rattle.mips_decode.specs.Memory.{IsSize};
ghost use Rattle.mips_decode.specs.Start.{AreRegionsAtStart};
ghost use Rattle.mips_machine.specs.Image.{HasBytes, HasNoClash, IsFillable, area_of, region_of, regions_of, stack_of, takes_fill, with_fill};
ghost use Rattle.mips_machine.specs.Places.{IsOnlyPlace, StandsAt};

use crate::fill::Fill;
use crate::index::index_of;
use crate::region::Region;
use cache_config::{AREA_ABOVE, Profile};
use elf_mips::{Image, Start, last_start};
use mips_decode::{LoadOp, StoreOp, Touched, TrapKind};
use std::alloc::{AllocError, Global};
use std::marker::Model;

/// The regions of memory, which lie apart.
///
/// A fetch, a load and a store find their region by bisection of the index, in `place_at`, and touch
/// only its own bytes.
#[derive(Debug, Drop)]
pub struct Memory {
    regions: Vec<Region>,
    /// Where each region begins, by rising addresses.
    by_address: Vec<Start>,
}

impl Model for Memory {
    ghost use Rattle.std.specs.Prelude.{List};
    ghost use Rattle.mips_decode.specs.State.{Region};
    ghost use Rattle.mips_machine.specs.Index.{IsIndexed, spans_of};

    ghost Value = { List Region };

    ghost view = { λ m. m.regions.items };

    ghost invariant = { λ m. IsIndexed (spans_of m.regions.items) m.by_address.items };
}

/// The place of the first region that can be written and holds all bytes of a fill.
fn first_place(regions: &[Region], fill: &Fill) -> Option<usize>
    ensures place { IfSome result (StandsAt (takes_fill fill.now) regions.now) }
    ensures none { IfNone result (All (λ region. takes_fill fill.now region ≡ false) regions.now) }
{
    for (place, region) in regions.iter().enumerate() {
        if region.takes(fill) {
            return Some(place);
        }
    }
    None
}

/// The regions of an image's loaded segments, in order, each with a copy of its bytes.
fn segment_regions(alloc: Global, image: &Image) -> Result<Vec<Region>, AllocError>
    ensures regions { IfOk result (λ regions. regions.items ≡ map region_of image.now.segments) }
    ensures bytes { OnOk result (All HasBytes image.now.segments) }
{
    let segments = image.segments.as_slice();
    let mut regions = Vec::new(alloc);
    for segment in segments {
        regions.push(Region::of_segment(alloc, segment)?)?;
    }
    Ok(regions)
}

/// The regions of an image and a profile: the loaded segments, the stack and the profile's regions.
fn start_regions(alloc: Global, image: &Image, profile: &Profile) -> Result<Vec<Region>, AllocError>
    ensures regions { IfOk result (λ r. r.items ≡ regions_of image.now profile.now) }
    ensures start { OnOk result (AreRegionsAtStart
        (regions_of image.now profile.now) (regions_of image.now profile.now)) }
{
    let mut regions = segment_regions(alloc, image)?;
    let stack = profile.stack_top - profile.stack_size;
    regions.push(Region::zeros(alloc, stack, profile.stack_size + AREA_ABOVE as u32)?)?;
    for area in profile.regions.as_slice() {
        regions.push(Region::zeros(alloc, area.start, area.size)?)?;
    }
    Ok(regions)
}

impl Memory {
    /// The memory of an image and a profile: the loaded segments, the stack and the profile's regions.
    pub fn of_image(alloc: Global, image: &Image, profile: &Profile) -> Result<Memory, AllocError>
        requires { HasNoClash image.now profile.now }
        ensures regions { IfOk result (λ m. m ≡ regions_of image.now profile.now) }
        ensures start { OnOk result (AreRegionsAtStart
            (regions_of image.now profile.now) (regions_of image.now profile.now)) }
    {
        let regions = start_regions(alloc, image, profile)?;
        let by_address = index_of(alloc, &regions)?;
        Ok(Memory {
            regions,
            by_address,
        })
    }

    /// The place of the only region that can cover an address: the last one that begins there or
    /// before, found by bisection.
    fn place_at(&self, address: u32) -> Option<usize>
        ensures only { IfSome result (IsOnlyPlace address self.now) }
        ensures none { IfNone result (All (λ region. covers address 1 region ≡ false) self.now) }
    {
        match last_start(&self.by_address, address) {
            Some(start) => Some(start.number),
            None => None,
        }
    }

    /// The place of the region that holds all bytes of a load or store.
    fn place_of(&self, access: &Touched) -> Option<usize>
        requires { IsSize access.now.size }
        ensures place { IfSome result
            (StandsAt (covers access.now.address access.now.size) self.now) }
        ensures none { IfNone result
            (All (λ region. covers access.now.address access.now.size region ≡ false) self.now) }
    {
        let Some(place) = self.place_at(access.address) else {
            return None;
        };
        if !self.regions[place].covers(access.address, u64::from(access.size)) {
            return None;
        }
        Some(place)
    }

    /// Puts bytes into the region that can be written and holds them all.
    ///
    /// A fill without bytes changes nothing, wherever it stands.
    pub fn fill(&mut self, fill: &Fill)
        requires { IsFillable self.old fill.now }
        ensures regions { self.new ≡ with_fill fill.now self.old }
        ensures bytes { All (λ byte. byte < 256) fill.now.bytes }
    {
        let Some(place) = first_place(&self.regions, fill) else {
            return;
        };
        let region = &mut self.regions[place];
        region.fill(fill);
    }

    /// The executable word at an address; none where there is no such word.
    pub fn code(&self, address: u32) -> Option<u32>
        ensures word { result ≡ code_at self.now address }
        ensures low { OnSome result (address + 4 ≤ return_address) }
    {
        if !(address % 4 == 0) {
            return None;
        }
        let Some(place) = self.place_at(address) else {
            return None;
        };
        let region = &self.regions[place];
        if !region.has_code(address) {
            return None;
        }
        Some(region.word(address))
    }

    /// The register after a load, with the access that was made, or the trap.
    ///
    /// `old` is the register before: LWL and LWR keep a part of it.
    pub fn load(&self, op: LoadOp, address: u32, old: u32) -> Result<(Touched, u32), TrapKind>
        ensures done { IfOk result (λ done. (s : State) (rt : ℕ) →
            s.regions ≡ self.now → reg s.regs rt ≡ old → loaded s op rt address
            ≡ Does (Some done.0) (record s { regs = with_reg s.regs rt done.1 })) }
        ensures trap { IfErr result (λ kind. (s : State) (rt : ℕ) →
            s.regions ≡ self.now → loaded s op rt address ≡ Traps kind) }
    {
        let access = mips_decode::load_touched(op, address);
        if access.address % access.size != 0 {
            return Err(TrapKind::Misaligned);
        }
        let Some(place) = self.place_of(&access) else {
            return Err(TrapKind::Outside);
        };
        let number = self.regions[place].number(&access);
        let value = mips_decode::load_value(op, address % 4, old, number);
        Ok((access, value))
    }

    /// Stores a register's number: the access that was made, or the trap, which changes nothing.
    pub fn store(&mut self, op: StoreOp, address: u32, number: u32) -> Result<Touched, TrapKind>
        ensures done { IfOk result (λ access. (s : State) (rt : ℕ) →
            s.regions ≡ self.old → reg s.regs rt ≡ number → stored s op rt address
            ≡ Does (Some access) (record s { regions = self.new })) }
        ensures trap { IfErr result (λ kind. (s : State) (rt : ℕ) →
            s.regions ≡ self.old → stored s op rt address ≡ Traps kind) }
        ensures kept { OnErr result (self.new ≡ self.old) }
    {
        let access = mips_decode::store_touched(op, address);
        if access.address % access.size != 0 {
            return Err(TrapKind::Misaligned);
        }
        let Some(place) = self.place_of(&access) else {
            return Err(TrapKind::Outside);
        };
        let region = &mut self.regions[place];
        if !region.is_writable() {
            return Err(TrapKind::ReadOnly);
        }
        let old = region.number(&access);
        region.put(
            &access,
            mips_decode::store_value(op, address % 4, old, number),
        );
        Ok(access)
    }
}
