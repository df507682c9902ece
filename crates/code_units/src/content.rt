//! What stands at an address of an image.

ghost use Rattle.std.specs.Prelude.{◌≡◌, ◌+◌, ◌<◌, ◌^◌, true, IfErr, IfOk, IfSome, IfNone, OnOk, OnSome};
ghost use Rattle.elf_mips.specs.Segments.{code_at};
ghost use Rattle.mips_decode.specs.Step.{fetched, Found};
ghost use Rattle.mips_decode.specs.Table.{IsValid};
ghost use Rattle.net_model.specs.Units.{content_at, is_transfer, known, with_slot, word_at, Holds, Lacks};
ghost use Rattle.net_model.specs.declared.unit.CodeKind.TheVariants.{UnknownWord};
ghost use Rattle.code_units.specs.Ways.{IfPlaced};

use elf_mips::Image;
use mips_decode::Instr;
use net_model::{CodeKind, CodeUnit, Content};

/// Whether an instruction has a delay slot: just those that decide where the next unit stands.
fn is_transfer(instr: &Instr) -> bool
    ensures { result ≡ is_transfer instr.now }
{
    mips_decode::is_transfer(instr)
}

/// The instruction of the executable word at an address; none without such a word or such an
/// instruction.
fn instr_at(image: &Image, address: u32) -> Option<Instr>
    ensures found { IfSome result (λ i. known (fetched (code_at image.now.segments) address) ≡ Holds i) }
    ensures none { IfNone result (known (fetched (code_at image.now.segments) address) ≡ Lacks UnknownWord) }
    ensures valid { IfSome result IsValid }
    ensures low { OnSome result (address + 8 < 2 ^ 32) }
{
    let word = image.word_at(address)?;
    mips_decode::decode(word)
}

/// The instruction at an address, or the fault of its word.
fn word_at(image: &Image, address: u32) -> Result<Instr, CodeKind>
    ensures holds { IfOk result (λ i. word_at image.now address ≡ Holds i) }
    ensures lacks { IfErr result (λ kind. word_at image.now address ≡ Lacks kind) }
    ensures valid { IfOk result IsValid }
    ensures low { OnOk result (address + 8 < 2 ^ 32) }
{
    if image.is_writable_word(address) {
        return Err(CodeKind::WritableCode);
    }
    instr_at(image, address).ok_or(CodeKind::UnknownWord)
}

/// What stands at the address of a jump or branch, whose slot is the next word.
fn slot_content(image: &Image, instr: Instr, address: u32) -> Content
    requires valid { IsValid instr }
    requires transfer { is_transfer instr ≡ true }
    requires low { address + 8 < 2 ^ 32 }
    ensures exact { result ≡ with_slot instr (address + 4) (word_at image.now (address + 4)) }
    ensures placed { IfPlaced result address }
{
    let place = address + 4;
    let slot = match word_at(image, place) {
        Ok(slot) => slot,
        Err(kind) => return Content::Fault { kind, place },
    };
    if is_transfer(&slot) {
        return Content::Fault {
            kind: CodeKind::TransferInSlot,
            place,
        };
    }
    Content::Unit(CodeUnit {
        instr,
        slot: Some(slot),
    })
}

/// What stands at an address: a unit, or its fault with its place.
pub fn content_at(image: &Image, address: u32) -> Content
    ensures exact { result ≡ content_at image.now address }
    ensures placed { IfPlaced result address }
{
    let instr = match word_at(image, address) {
        Ok(instr) => instr,
        Err(kind) => return Content::Fault {
            kind,
            place: address,
        },
    };
    if is_transfer(&instr) {
        return slot_content(image, instr, address);
    }
    Content::Unit(CodeUnit { instr, slot: None })
}
