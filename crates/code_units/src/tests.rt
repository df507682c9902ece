//! What units do and where they go, worked out by the MIPS I manual, and the units of a program with recorded targets.

ghost use Rattle.std.specs.Prelude.{IfOk};
ghost use Rattle.mips_decode.specs.Table.{IsValid};

use crate::{
    Ways, content_at, is_indirect, is_link_passed, is_register_call, load_of, own_callee, own_ways,
    returns, stops, targets_at, targets_of, unit_at,
};
use elf_mips::{Image, read_image};
use mips_decode::{Instr, decode};
use net_model::{CodeKind, CodeUnit, Content};
use std::alloc::{AllocError, Global};
use std::test::Fail;

/// Where the code begins.
const START: u32 = 0x0040_0000;

/// jr $31, jr $8, and jalr $2, $3.
const RETURN: u32 = 0x03E0_0008;

const JUMP_REG: u32 = 0x0100_0008;

const CALL_REG: u32 = 0x0060_1009;

fn instr_of(word: u32) -> Result<Instr, Fail>
    ensures { IfOk result IsValid }
{
    match decode(word) {
        Some(instr) => Ok(instr),
        None => Err("no instruction".into()),
    }
}

fn unit_of(word: u32, slot: u32) -> Result<CodeUnit, Fail> {
    let instr = instr_of(word)?;
    let slot = instr_of(slot)?;
    Ok(CodeUnit {
        instr,
        slot: Some(slot),
    })
}

#[test]
fn tells_what_a_unit_does(rt: HostRuntime) -> Result<(), Fail> {
    // The words of a unit; whether it returns or stops, and where it loads.
    let cases: [([u32; 2], bool, bool, Option<u32>); 6] = [
        ([0x0C10_0000, 0], false, false, None),
        ([0x0C10_0000, 0x0000_000C], false, true, None),
        ([RETURN, 0], true, false, None),
        ([RETURN, 0x0000_000D], false, true, None),
        ([RETURN, 0x8C82_0000], true, false, Some(0x0040_0004)),
        ([RETURN, 0xAC82_0000], true, false, None),
    ];
    for (words, back, stop, load) in cases {
        let unit = unit_of(words[0], words[1])?;
        let told = (returns(&unit), stops(&unit), load_of(&unit, START));
        assert_eq!(rt; told, (back, stop, load), "at {words:?}");
    }
    let jump = instr_of(JUMP_REG)?;
    let call = instr_of(CALL_REG)?;
    let back = instr_of(RETURN)?;
    assert!(rt; is_indirect(&jump) && !is_indirect(&call) && !is_indirect(&back));
    assert!(rt; is_register_call(&call) && !is_register_call(&jump));
    // bltzal $0 and bgezal $0.
    assert!(rt; is_link_passed(&instr_of(0x0410_0003)?));
    assert!(rt; !is_link_passed(&instr_of(0x0411_0003)?));
    Ok(())
}

#[test]
fn tells_where_a_unit_goes(rt: HostRuntime) -> Result<(), Fail> {
    // The word, where it goes on by itself, and what it calls.
    let cases: [(u32, Ways, Ways); 9] = [
        // jal and j to the start, and jr $31.
        (0x0C10_0000, Ways::Nowhere, Ways::One(START)),
        (0x0810_0000, Ways::One(START), Ways::Nowhere),
        (RETURN, Ways::Nowhere, Ways::Nowhere),
        // bltzal $4, bltzal $0 and bgezal $0 by 3 words.
        (0x0490_0003, Ways::One(0x0040_0008), Ways::One(0x0040_0010)),
        (0x0410_0003, Ways::One(0x0040_0008), Ways::Nowhere),
        (0x0411_0003, Ways::Nowhere, Ways::One(0x0040_0010)),
        // beq $4, $0 to itself, bne $0, $0, and addiu $8, $8, 1.
        (0x1080_FFFF, Ways::Two(START, 0x0040_0008), Ways::Nowhere),
        (0x1400_0004, Ways::One(0x0040_0008), Ways::Nowhere),
        (0x2508_0001, Ways::One(0x0040_0004), Ways::Nowhere),
    ];
    for (word, ways, callee) in cases {
        let instr = instr_of(word)?;
        if is_indirect(&instr) || is_register_call(&instr) {
            return Err("a recorded target is needed".into());
        }
        let told = (own_ways(&instr, START), own_callee(&instr, START));
        assert_eq!(rt; told, (ways, callee), "at {word:08x}");
    }
    Ok(())
}

fn push_words(file: &mut Vec<u8>, words: &[u32]) -> Result<(), AllocError> {
    for word in words {
        file.extend_from_slice(&word.to_be_bytes())?;
    }
    Ok(())
}

/// A big-endian MIPS I executable of six words, with three records of targets: addresses and targets.
fn image_of(alloc: Global, words: &[u32; 6], targets: &[[u32; 2]; 3]) -> Result<Image, Fail> {
    let mut file = Vec::new(alloc);
    push_words(
        &mut file,
        &[0x7F45_4C46, 0x0102_0100, 0, 0, 0x0002_0008, 1, START, 52],
    )?;
    push_words(&mut file, &[173, 0, 0x0034_0020, 0x0001_0028, 0x0003_0002])?;
    push_words(&mut file, &[1, 84, START, START, 24, 24, 5, 4])?;
    push_words(&mut file, words)?;
    for [address, target] in targets {
        push_words(&mut file, &[2, *address, *target, 0])?;
    }
    file.extend_from_slice(b"\0.wcet\0.shstrtab\0")?;
    push_words(&mut file, &[0; 10])?;
    push_words(&mut file, &[1, 1, 0, 0, 108, 48, 0, 0, 0, 0])?;
    push_words(&mut file, &[7, 3, 0, 0, 156, 17, 0, 0, 0, 0])?;
    if file.len() > 1000 {
        return Err("a long file".into());
    }
    Ok(read_image(alloc, &file)?)
}

#[test]
fn finds_units_by_recorded_targets(rt: HostRuntime) -> Result<(), Fail> {
    let alloc = rt.alloc();
    // jr $8, then jalr $2, $3 at 8, and jr $31 at 16. The records of jr $8 aren't in order, and the one at 16
    // names nothing.
    let words = [JUMP_REG, 0, CALL_REG, 0, RETURN, 0];
    let records = [
        [0x0040_0010, START],
        [START, 0x0040_0010],
        [START, 0x0040_0008],
    ];
    let image = image_of(alloc, &words, &records)?;
    let targets = targets_of(alloc, &image)?;
    let [first, second] = targets_at(targets.as_slice(), START) else {
        return Err("not two targets".into());
    };
    assert_eq!(rt; first.x.min(second.x), 0x0040_0008);
    assert_eq!(rt; first.x.max(second.x), 0x0040_0010);
    let jump = Content::Unit(unit_of(JUMP_REG, 0)?);
    let call = Content::Fault {
        kind: CodeKind::UnknownTarget,
        place: 0x0040_0008,
    };
    let back = Content::Unit(unit_of(RETURN, 0)?);
    assert_eq!(rt; unit_at(&image, targets.as_slice(), START), jump);
    assert_eq!(rt; unit_at(&image, targets.as_slice(), 0x0040_0008), call);
    assert_eq!(rt; unit_at(&image, targets.as_slice(), 0x0040_0010), back);
    // By its words alone a unit stands there.
    let words_alone = Content::Unit(unit_of(CALL_REG, 0)?);
    assert_eq!(rt; content_at(&image, 0x0040_0008), words_alone);
    // With a target JALR still links to register 2.
    let records = [[0x0040_0008, START], [START, START], [START, START]];
    let image = image_of(alloc, &words, &records)?;
    let targets = targets_of(alloc, &image)?;
    let link = Content::Fault {
        kind: CodeKind::LinkRegister,
        place: 0x0040_0008,
    };
    assert_eq!(rt; unit_at(&image, targets.as_slice(), 0x0040_0008), link);
    Ok(())
}
