//! Graphs of short functions without calls, with their onward units worked out by the MIPS I manual, and each order of
//! faults.

use crate::{CodeFault, CodeKind, Graphs, Unit, function_graphs};
use elf_mips::{Image, read_image};
use std::alloc::{AllocError, Global};
use std::test::Fail;

/// Where the first segment begins.
const START: u32 = 0x0040_0000;

/// A segment: its address, its flags and its words.
type Part<'a> = (u32, u32, &'a [u32]);

/// jr $31, and a word of no instruction.
const RETURN: u32 = 0x03E0_0008;

const NONE: u32 = 0xFFFF_FFFF;

/// What a node must say, but that it calls nothing.
#[derive(Clone, Copy)]
struct Row<'a> {
    address: u32,
    slot: bool,
    returns: bool,
    skips: bool,
    load: Option<u32>,
    onward: &'a [u32],
}

/// The row of a unit with a slot.
fn slotted(address: u32, onward: &[u32]) -> Row {
    Row {
        address,
        slot: true,
        returns: false,
        skips: false,
        load: None,
        onward,
    }
}

/// The row of `jr $31`.
fn leaving(address: u32) -> Row<'static> {
    Row {
        address,
        slot: true,
        returns: true,
        skips: false,
        load: None,
        onward: &[],
    }
}

fn push_words(file: &mut Vec<u8>, words: &[u32]) -> Result<(), AllocError> {
    for word in words {
        file.extend_from_slice(&word.to_be_bytes())?;
    }
    Ok(())
}

/// A big-endian MIPS I executable with these segments.
fn file_of(alloc: Global, parts: &[Part]) -> Result<Vec<u8>, Fail> {
    let count = u32::try_from(parts.len())?;
    let mut file = Vec::new(alloc);
    push_words(
        &mut file,
        &[0x7F45_4C46, 0x0102_0100, 0, 0, 0x0002_0008, 1, START, 52],
    )?;
    push_words(&mut file, &[0, 0, 0x0034_0020, (count << 16) | 0x28, 0])?;
    let mut offset = count.wrapping_mul(32).wrapping_add(52);
    for (address, flags, words) in parts {
        let size = u32::try_from(words.len())?.wrapping_mul(4);
        push_words(
            &mut file,
            &[1, offset, *address, *address, size, size, *flags, 4],
        )?;
        offset = offset.wrapping_add(size);
    }
    for (_, _, words) in parts {
        push_words(&mut file, words)?;
    }
    Ok(file)
}

fn image_of(alloc: Global, parts: &[Part]) -> Result<Image, Fail> {
    let file = file_of(alloc, parts)?;
    if file.len() > 1_000_000 {
        return Err("a long file".into());
    }
    Ok(read_image(alloc, &file)?)
}

/// The fault of the function at an address of an image of these segments, if it has one.
fn fault_of(alloc: Global, parts: &[Part], entry: u32) -> Result<Option<CodeFault>, Fail> {
    let image = image_of(alloc, parts)?;
    Ok(function_graphs(alloc, &image, entry).err())
}

/// Whether a node is as the row says, and calls nothing.
fn is_row(unit: &Unit, row: &Row) -> bool {
    unit.address == row.address
        && unit.slot == row.slot
        && unit.returns == row.returns
        && unit.skips == row.skips
        && unit.load == row.load
        && unit.onward.as_slice() == row.onward
        && unit.calls.as_slice().is_empty()
}

/// Whether the only graph begins at the start and its nodes are these.
fn is_graph(graphs: &Graphs, can_return: bool, rows: &[Row]) -> bool {
    let [graph] = graphs.graphs.as_slice() else {
        return false;
    };
    let units = graph.units.as_slice();
    if graph.entry != START || graph.can_return != can_return || units.len() != rows.len() {
        return false;
    }
    for (unit, row) in units.iter().zip(rows) {
        if !is_row(unit, row) {
            return false;
        }
    }
    true
}

/// Whether the graph of these words, which have no fault, has these nodes.
fn draws(alloc: Global, words: &[u32], can_return: bool, rows: &[Row]) -> Result<bool, Fail> {
    let image = image_of(alloc, &[(START, 5, words)])?;
    match function_graphs(alloc, &image, START) {
        Ok(graphs) => Ok(is_graph(&graphs, can_return, rows)),
        Err(_) => Err("a fault".into()),
    }
}

#[test]
fn answers_the_first_fault_of_the_code(rt: HostRuntime) -> Result<(), Fail> {
    let alloc = rt.alloc();
    let writable = CodeKind::WritableCode;
    let unknown = CodeKind::UnknownWord;
    // The words, the segment's flags, the entry, and the fault with its place.
    let cases: [(&[u32], u32, u32, CodeKind, u32); 14] = [
        // A word that may change isn't looked at further, but an address between words is unknown.
        (&[NONE], 7, START, writable, START),
        (&[RETURN, 0], 7, START, writable, START),
        (&[RETURN, 0], 7, 0x0040_0002, unknown, 0x0040_0002),
        (&[RETURN, 0], 5, 0x0040_0002, unknown, 0x0040_0002),
        // A word of no instruction, one that can't be executed, and no word at all.
        (&[NONE], 5, START, unknown, START),
        (&[RETURN, 0], 4, START, unknown, START),
        (&[], 5, START, unknown, START),
        // A jump in a slot, and a slot behind the segment.
        (
            &[RETURN, RETURN],
            5,
            START,
            CodeKind::TransferInSlot,
            0x0040_0004,
        ),
        (&[RETURN], 5, START, unknown, 0x0040_0004),
        // beq $0, $0 by -32768 words, and j to 0.
        (&[0x1000_8000, 0], 5, START, unknown, 0x003E_0004),
        (&[0x0800_0000, 0], 5, START, unknown, 0),
        // A fall-through and a branch to the address behind the segment.
        (&[0], 5, START, unknown, 0x0040_0004),
        (&[0x1080_0003, 0, RETURN, 0], 5, START, unknown, 0x0040_0010),
        // A jump in a slot, and an unknown word at a greater address, whose kind comes first.
        (
            &[0x1080_0004, 0, RETURN, RETURN, 0, NONE],
            5,
            START,
            unknown,
            0x0040_0014,
        ),
    ];
    for (words, flags, entry, kind, address) in cases {
        let fault = fault_of(alloc, &[(START, flags, words)], entry)?;
        let first = Some(CodeFault::Bad { kind, address });
        assert_eq!(rt; fault, first, "at {address}");
    }
    Ok(())
}

#[test]
fn answers_the_least_address_of_a_kind(rt: HostRuntime) -> Result<(), Fail> {
    let alloc = rt.alloc();
    let kind = CodeKind::UnknownWord;
    // beq $4, $0 forwards over one unknown word to another one.
    let forwards: [u32; 5] = [0x1080_0003, 0, NONE, 0, NONE];
    let fault = fault_of(alloc, &[(START, 5, &forwards)], START)?;
    let address = 0x0040_0008;
    assert_eq!(rt; fault, Some(CodeFault::Bad { kind, address }));
    // beq $4, $0 backwards to one, before another one.
    let backwards: [u32; 5] = [NONE, 0, 0x1080_FFFD, 0, NONE];
    let fault = fault_of(alloc, &[(START, 5, &backwards)], 0x0040_0008)?;
    let address = START;
    assert_eq!(rt; fault, Some(CodeFault::Bad { kind, address }));
    // A word behind the return isn't reached.
    let fault = fault_of(alloc, &[(START, 5, &[RETURN, 0, NONE])], START)?;
    assert_eq!(rt; fault, None);
    // The slot of a jump lies in a segment that is writable.
    let parts: [Part; 2] = [(START, 5, &[RETURN]), (0x0040_0004, 7, &[0])];
    let fault = fault_of(alloc, &parts, START)?;
    let kind = CodeKind::WritableCode;
    let address = 0x0040_0004;
    assert_eq!(rt; fault, Some(CodeFault::Bad { kind, address }));
    Ok(())
}

#[test]
fn draws_branches(rt: HostRuntime) -> Result<(), Fail> {
    let alloc = rt.alloc();
    // beq $4, $0 to its own slot, addiu $8, $8, 1, which is a unit too.
    let own: [Row; 3] = [
        slotted(START, &[0x0040_0004, 0x0040_0008]),
        Row {
            address: 0x0040_0004,
            slot: false,
            returns: false,
            skips: false,
            load: None,
            onward: &[0x0040_0008],
        },
        leaving(0x0040_0008),
    ];
    assert!(rt; draws(alloc, &[0x1080_0000, 0x2508_0001, RETURN, 0], true, &own)?);
    // beq $0, $0 goes to its target alone, over a unit, and bne $0, $0 behind its slot alone.
    let far: [Row; 2] = [slotted(START, &[0x0040_000C]), leaving(0x0040_000C)];
    assert!(rt; draws(alloc, &[0x1000_0002, 0, 0, RETURN, 0], true, &far)?);
    let near: [Row; 2] = [slotted(START, &[0x0040_0008]), leaving(0x0040_0008)];
    assert!(rt; draws(alloc, &[0x1400_0004, 0, RETURN, 0], true, &near)?);
    // bne $4, $0 to the address behind its slot has one onward unit; j over a unit.
    assert!(rt; draws(alloc, &[0x1480_0001, 0, RETURN, 0], true, &near)?);
    assert!(rt; draws(alloc, &[0x0810_0003, 0, 0, RETURN, 0], true, &far)?);
    // beq $0, $0 to itself.
    assert!(rt; draws(alloc, &[0x1000_FFFF, 0], false, &[slotted(START, &[START])])?);
    Ok(())
}

#[test]
fn draws_stops_and_loads(rt: HostRuntime) -> Result<(), Fail> {
    let alloc = rt.alloc();
    // Units with syscall or break in the slot go nowhere.
    let ends: [[u32; 2]; 3] = [
        [RETURN, 0x0000_000C],
        [0x1000_FFFF, 0x0000_000D],
        [0x0C10_0000, 0x0000_000D],
    ];
    for words in ends {
        let first = words[0];
        assert!(rt;
            draws(alloc, &words, false, &[slotted(START, &[])])?,
            "at {first}"
        );
    }
    // bltzal $0 never calls, and may be not taken.
    let mut skips = slotted(START, &[0x0040_0008]);
    skips.skips = true;
    let passed: [Row; 2] = [skips, leaving(0x0040_0008)];
    assert!(rt; draws(alloc, &[0x0410_0003, 0, RETURN, 0], true, &passed)?);
    // break alone; lw $2, 0($4) before jr $31 and in its slot; sw $2, 0($4) doesn't load.
    let mut plain = slotted(START, &[]);
    plain.slot = false;
    assert!(rt; draws(alloc, &[0x0000_000D], false, &[plain])?);
    plain.load = Some(START);
    plain.onward = &[0x0040_0004];
    let mut last = leaving(0x0040_0004);
    last.load = Some(0x0040_0008);
    assert!(rt;
        draws(
            alloc,
            &[0x8C82_0000, RETURN, 0x8C82_0000],
            true,
            &[plain, last]
        )?
    );
    assert!(rt; draws(alloc, &[RETURN, 0xAC82_0000], true, &[leaving(START)])?);
    Ok(())
}

#[test]
fn follows_65000_units_in_a_line(rt: HostRuntime) -> Result<(), Fail> {
    let alloc = rt.alloc();
    let mut words: Vec<u32> = Vec::new(alloc);
    for _ in 0..65_000 {
        words.push(0x2508_0001)?;
    }
    words.push(RETURN)?;
    words.push(0)?;
    let image = image_of(alloc, &[(START, 5, words.as_slice())])?;
    let Ok(graphs) = function_graphs(alloc, &image, START) else {
        return Err("a fault".into());
    };
    let [graph] = graphs.graphs.as_slice() else {
        return Err("not one graph".into());
    };
    assert_eq!(rt; graph.units.as_slice().len(), 65_001);
    let Some(last) = graph.units.as_slice().last() else {
        return Err("no unit".into());
    };
    // 65,000 words of 4 bytes stand before it.
    assert!(rt; is_row(last, &leaving(0x0043_F7A0)));
    Ok(())
}
