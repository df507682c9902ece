//! What a run needs to know of the unit at each place of a net.

ghost use Rattle.std.specs.Prelude.{◌≡◌, ◌+◌, ◌<◌, ◌^◌, IfOk};
ghost use Rattle.code_units.specs.Targets.{AreTargets};
ghost use Rattle.mips_decode.specs.Records.{needs_target};
ghost use Rattle.net_model.specs.Net.{HasUnits};
ghost use Rattle.image_run.specs.Ranges.{AreRanges};
ghost use Rattle.image_run.specs.Road.{AreSpots, HasUnitAt, IsSpotAt, IsSpotOf, site_by};

use crate::link::{Link, link_of};
use crate::ranges::{Limits, limits_at, ranges_of};
use code_units::unit_at;
use elf_mips::{Image, Mark};
use flow_net::Net;
use mips_decode::Instr;
use net_model::{CodeUnit, Content};
use std::alloc::{AllocError, Global};

/// The unit of a place.
#[derive(Clone, Copy, Debug, PartialEq, Eq)]
pub struct Spot {
    /// Whether it calls or returns.
    pub link: Link,
    /// Whether it goes to recorded targets: JALR, and JR of another register than 31.
    pub indirect: bool,
    /// Whether it has a delay slot.
    pub slot: bool,
    /// What the records leave to its load or store.
    pub limits: Limits,
}

/// The address of the instruction that loads or stores, where one does: that of the slot, if there is one.
pub fn site_by(slot: bool, address: u32) -> u32
    requires { address + 8 < 2 ^ 32 }
    ensures { result ≡ site_by slot address }
{
    if slot { address + 4 } else { address }
}

/// Whether an instruction goes to recorded targets: JALR, and JR of another register than 31.
fn needs_target(instr: &Instr) -> bool
    ensures { result ≡ needs_target instr.now }
{
    match *instr {
        Instr::JumpReg { rs } => !(rs.number() == 31),
        Instr::JumpLink { .. } => true,
        _ => false,
    }
}

/// What a run needs to know of a unit at an address.
fn spot_of(image: &Image, ranges: &[Mark], unit: &CodeUnit, address: u32) -> Spot
    requires ranges { AreRanges image.now ranges.now }
    requires low { address + 8 < 2 ^ 32 }
    ensures { IsSpotOf image.now unit.now address result }
{
    let slot = unit.slot.is_some();
    Spot {
        link: link_of(&unit.instr),
        indirect: needs_target(&unit.instr),
        slot,
        limits: limits_at(image, ranges, site_by(slot, address)),
    }
}

/// The same for an address where a unit stands.
fn spot_at(image: &Image, targets: &[Mark], ranges: &[Mark], address: u32) -> Spot
    requires targets { AreTargets image.now targets.now }
    requires ranges { AreRanges image.now ranges.now }
    requires unit { HasUnitAt image.now address }
    ensures { IsSpotAt image.now address result }
{
    match unit_at(image, targets, address) {
        Content::Unit(unit) => spot_of(image, ranges, &unit, address),
        Content::Fault { .. } => unreachable!(),
    }
}

/// The spots of a net's places, in their order.
pub fn spots_of(
    alloc: Global,
    image: &Image,
    net: &Net,
    targets: &[Mark],
) -> Result<Vec<Spot>, AllocError>
    requires units { HasUnits image.now net.now }
    requires targets { AreTargets image.now targets.now }
    ensures { IfOk result (λ spots. AreSpots image.now net.now.places spots.items) }
{
    let ranges = ranges_of(alloc, image)?;
    let mut spots = Vec::new(alloc);
    for place in net.places.as_slice() {
        spots.push(spot_at(image, targets, ranges.as_slice(), place.address))?;
    }
    Ok(spots)
}
