//! The units of a program, by what the records say of its indirect jumps and calls.

ghost use Rattle.std.specs.Prelude.{◌≡◌, ◌+◌, ◌<◌, ◌^◌};
ghost use Rattle.mips_decode.specs.Records.{needs_target};
ghost use Rattle.net_model.specs.Targets.{is_none, linked, links_elsewhere, targets_at, unit_at};
ghost use Rattle.code_units.specs.Targets.{AreTargets};
ghost use Rattle.code_units.specs.Ways.{IfPlaced, IsPlaced};

use crate::content::content_at;
use crate::targets::targets_at;
use elf_mips::{Image, Mark};
use mips_decode::Instr;
use net_model::{CodeKind, CodeUnit, Content};

/// Whether an instruction goes to recorded targets: JALR, and JR of another register than 31.
fn needs_target(instr: &Instr) -> bool
    ensures { result ≡ needs_target instr.now }
{
    match *instr {
        Instr::JumpReg { rs } => !(rs.number() == 31),
        Instr::JumpLink { .. } => true,
        _ => false,
    }
}

/// Whether an instruction is a JALR that links to another register than 31.
fn links_elsewhere(instr: &Instr) -> bool
    ensures { result ≡ links_elsewhere instr.now }
{
    match *instr {
        Instr::JumpLink { rd, .. } => !(rd.number() == 31),
        _ => false,
    }
}

/// Whether no target is recorded for the address.
fn has_no_target(image: &Image, targets: &[Mark], address: u32) -> bool
    requires { AreTargets image.now targets.now }
    ensures { result ≡ is_none (targets_at image.now address) }
{
    targets_at(targets, address).is_empty()
}

/// The unit, or the fault of its transfer.
fn linked(image: &Image, targets: &[Mark], address: u32, unit: CodeUnit) -> Content
    requires targets { AreTargets image.now targets.now }
    requires placed { IsPlaced unit address }
    ensures exact { result ≡ linked image.now address unit }
    ensures placed { IfPlaced result address }
{
    if needs_target(&unit.instr) && has_no_target(image, targets, address) {
        return Content::Fault {
            kind: CodeKind::UnknownTarget,
            place: address,
        };
    }
    if links_elsewhere(&unit.instr) {
        return Content::Fault {
            kind: CodeKind::LinkRegister,
            place: address,
        };
    }
    Content::Unit(unit)
}

/// What stands at an address of a program: a unit, or its fault with its place.
pub fn unit_at(image: &Image, targets: &[Mark], address: u32) -> Content
    requires { AreTargets image.now targets.now }
    ensures exact { result ≡ unit_at image.now address }
    ensures placed { IfPlaced result address }
{
    match content_at(image, address) {
        Content::Unit(unit) => linked(image, targets, address, unit),
        Content::Fault { kind, place } => Content::Fault { kind, place },
    }
}
