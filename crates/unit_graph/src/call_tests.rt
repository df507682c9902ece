//! Graphs of programs with calls and recorded targets, worked out by hand, and the faults that come with them.

use crate::{CodeFault, CodeKind, Graph, Graphs, function_graphs};
use elf_mips::{Image, read_image};
use std::alloc::{AllocError, Global};
use std::test::Fail;

/// Where the code begins.
const START: u32 = 0x0040_0000;

/// jr $31, jr $8, jalr $31, $8, and break.
const RETURN: u32 = 0x03E0_0008;

const JUMP_REG: u32 = 0x0100_0008;

const CALL_REG: u32 = 0x0100_F809;

const BREAK: u32 = 0x0000_000D;

/// A record of kind 2: the address of the transfer, and its target.
type Target = (u32, u32);

/// What a node must say: its address, its onward units and what it calls.
type Row<'a> = (u32, &'a [u32], &'a [u32]);

/// What a graph must say: its entry, whether it can return, and its nodes.
type Function<'a> = (u32, bool, &'a [Row<'a>]);

fn push_words(file: &mut Vec<u8>, words: &[u32]) -> Result<(), AllocError> {
    for word in words {
        file.extend_from_slice(&word.to_be_bytes())?;
    }
    Ok(())
}

/// A big-endian MIPS I executable of these words, with these records.
fn file_of(alloc: Global, words: &[u32], targets: &[Target]) -> Result<Vec<u8>, Fail> {
    if words.len() > 100_000 || targets.len() > 1000 {
        return Err("a large file".into());
    }
    let size = 4 * words.len() as u32;
    let marks = 16 * targets.len() as u32;
    let sections = size + marks + 101;
    let mut file = Vec::new(alloc);
    push_words(
        &mut file,
        &[0x7F45_4C46, 0x0102_0100, 0, 0, 0x0002_0008, 1, START, 52],
    )?;
    push_words(
        &mut file,
        &[sections, 0, 0x0034_0020, 0x0001_0028, 0x0003_0002],
    )?;
    push_words(&mut file, &[1, 84, START, START, size, size, 5, 4])?;
    push_words(&mut file, words)?;
    for (address, target) in targets {
        push_words(&mut file, &[2, *address, *target, 0])?;
    }
    file.extend_from_slice(b"\0.wcet\0.shstrtab\0")?;
    push_words(&mut file, &[0; 10])?;
    push_words(&mut file, &[1, 1, 0, 0, size + 84, marks, 0, 0, 0, 0])?;
    push_words(&mut file, &[7, 3, 0, 0, size + marks + 84, 17, 0, 0, 0, 0])?;
    Ok(file)
}

fn image_of(alloc: Global, words: &[u32], targets: &[Target]) -> Result<Image, Fail> {
    let file = file_of(alloc, words, targets)?;
    if file.len() > 1_000_000 {
        return Err("a long file".into());
    }
    Ok(read_image(alloc, &file)?)
}

/// Whether a graph is as the function says.
fn is_function(graph: &Graph, function: &Function) -> bool {
    let (entry, can_return, rows) = function;
    let units = graph.units.as_slice();
    if graph.entry != *entry || graph.can_return != *can_return || units.len() != rows.len() {
        return false;
    }
    for (unit, row) in units.iter().zip(*rows) {
        let (address, onward, calls) = row;
        if unit.address != *address
            || unit.onward.as_slice() != *onward
            || unit.calls.as_slice() != *calls
        {
            return false;
        }
    }
    true
}

/// Whether the graphs of these words are those of the functions, in their order.
fn draws(
    alloc: Global,
    words: &[u32],
    targets: &[Target],
    functions: &[Function],
) -> Result<bool, Fail> {
    let image = image_of(alloc, words, targets)?;
    let Ok(found) = function_graphs(alloc, &image, START) else {
        return Err("a fault".into());
    };
    Ok(are_functions(&found, functions))
}

fn are_functions(found: &Graphs, functions: &[Function]) -> bool {
    let graphs = found.graphs.as_slice();
    if graphs.len() != functions.len() {
        return false;
    }
    for (graph, function) in graphs.iter().zip(functions) {
        if !is_function(graph, function) {
            return false;
        }
    }
    true
}

/// The fault of these words.
fn fault_of(alloc: Global, words: &[u32], targets: &[Target]) -> Result<Option<CodeFault>, Fail> {
    let image = image_of(alloc, words, targets)?;
    Ok(function_graphs(alloc, &image, START).err())
}

#[test]
fn goes_on_behind_a_call_that_returns(rt: HostRuntime) -> Result<(), Fail> {
    let alloc = rt.alloc();
    // jal to jr $31, which stands at 16.
    let calls = [0x0C10_0004, 0, RETURN, 0, RETURN, 0];
    let functions: [Function; 2] = [
        (
            START,
            true,
            &[
                (START, &[0x0040_0008], &[0x0040_0010]),
                (0x0040_0008, &[], &[]),
            ],
        ),
        (0x0040_0010, true, &[(0x0040_0010, &[], &[])]),
    ];
    assert!(rt; draws(alloc, &calls, &[], &functions)?);
    // The same to break: what stands behind the call isn't reached.
    let stuck = [0x0C10_0004, 0, BREAK, 0, BREAK];
    let functions: [Function; 2] = [
        (START, false, &[(START, &[], &[0x0040_0010])]),
        (0x0040_0010, false, &[(0x0040_0010, &[], &[])]),
    ];
    assert!(rt; draws(alloc, &stuck, &[], &functions)?);
    // break in the slot of the call: it calls nothing, and no word behind it is looked at.
    let stopped = [0x0C10_0004, BREAK, 0xFFFF_FFFF];
    assert!(rt;
        draws(
            alloc,
            &stopped,
            &[],
            &[(START, false, &[(START, &[], &[])])]
        )?
    );
    Ok(())
}

#[test]
fn follows_recorded_targets(rt: HostRuntime) -> Result<(), Fail> {
    let alloc = rt.alloc();
    // jalr $31, $8 to jr $31 at 16 and at 28, and to break at 24.
    let words = [CALL_REG, 0, RETURN, 0, RETURN, 0, BREAK, RETURN, 0];
    let targets = [
        (START, 0x0040_001C),
        (START, 0x0040_0010),
        (START, 0x0040_0018),
        (START, 0x0040_0010),
    ];
    let calls: [u32; 3] = [0x0040_0010, 0x0040_0018, 0x0040_001C];
    let functions: [Function; 4] = [
        (
            START,
            true,
            &[(START, &[0x0040_0008], &calls), (0x0040_0008, &[], &[])],
        ),
        (0x0040_0010, true, &[(0x0040_0010, &[], &[])]),
        (0x0040_0018, false, &[(0x0040_0018, &[], &[])]),
        (0x0040_001C, true, &[(0x0040_001C, &[], &[])]),
    ];
    assert!(rt; draws(alloc, &words, &targets, &functions)?);
    // jr $8 to both jr $31, and a record at jr $31 itself, which names nothing.
    let jumps = [JUMP_REG, 0, RETURN, 0, RETURN, 0];
    let targets = [
        (START, 0x0040_0010),
        (START, 0x0040_0008),
        (0x0040_0008, START),
    ];
    let rows: [Row; 3] = [
        (START, &[0x0040_0008, 0x0040_0010], &[]),
        (0x0040_0008, &[], &[]),
        (0x0040_0010, &[], &[]),
    ];
    assert!(rt; draws(alloc, &jumps, &targets, &[(START, true, &rows)])?);
    Ok(())
}

#[test]
fn follows_linking_branches(rt: HostRuntime) -> Result<(), Fail> {
    let alloc = rt.alloc();
    // bltzal $4 to break: it may be not taken.
    let words = [0x0490_0003, 0, RETURN, 0, BREAK];
    let end: Row = (0x0040_0008, &[], &[]);
    let functions: [Function; 2] = [
        (START, true, &[(START, &[0x0040_0008], &[0x0040_0010]), end]),
        (0x0040_0010, false, &[(0x0040_0010, &[], &[])]),
    ];
    assert!(rt; draws(alloc, &words, &[], &functions)?);
    // bltzal $0 is never taken, so that it calls nothing.
    let never = [0x0410_0003, 0, RETURN, 0, BREAK];
    let rows: [Row; 2] = [(START, &[0x0040_0008], &[]), end];
    assert!(rt; draws(alloc, &never, &[], &[(START, true, &rows)])?);
    // bgezal $0 is always taken, so that nothing behind it is reached where the function doesn't return.
    let always = [0x0411_0003, 0, RETURN, 0, BREAK];
    let functions: [Function; 2] = [
        (START, false, &[(START, &[], &[0x0040_0010])]),
        (0x0040_0010, false, &[(0x0040_0010, &[], &[])]),
    ];
    assert!(rt; draws(alloc, &always, &[], &functions)?);
    Ok(())
}

#[test]
fn shares_code_between_functions(rt: HostRuntime) -> Result<(), Fail> {
    let alloc = rt.alloc();
    // jal 24, jal 32, jr $31; at 24 a tail call by j 32; at 32 jr $31.
    let words = [
        0x0C10_0006,
        0,
        0x0C10_0008,
        0,
        RETURN,
        0,
        0x0810_0008,
        0,
        RETURN,
        0,
    ];
    let functions: [Function; 3] = [
        (
            START,
            true,
            &[
                (START, &[0x0040_0008], &[0x0040_0018]),
                (0x0040_0008, &[0x0040_0010], &[0x0040_0020]),
                (0x0040_0010, &[], &[]),
            ],
        ),
        (
            0x0040_0018,
            true,
            &[(0x0040_0018, &[0x0040_0020], &[]), (0x0040_0020, &[], &[])],
        ),
        (0x0040_0020, true, &[(0x0040_0020, &[], &[])]),
    ];
    assert!(rt; draws(alloc, &words, &[], &functions)?);
    Ok(())
}

#[test]
fn answers_faults_of_calls(rt: HostRuntime) -> Result<(), Fail> {
    let alloc = rt.alloc();
    let to_end: [Target; 1] = [(START, 0x0040_0008)];
    // The words, the records, and the fault with its place.
    let cases: [(&[u32], &[Target], CodeKind, u32); 7] = [
        // jalr $2, $3 with a target and without one.
        (
            &[0x0060_1009, 0, RETURN, 0],
            &to_end,
            CodeKind::LinkRegister,
            START,
        ),
        (
            &[0x0060_1009, 0, RETURN, 0],
            &[],
            CodeKind::UnknownTarget,
            START,
        ),
        // jr $8 without a target, also where break stands in its slot.
        (&[JUMP_REG, 0], &[], CodeKind::UnknownTarget, START),
        (&[JUMP_REG, BREAK], &[], CodeKind::UnknownTarget, START),
        // A target at which no word stands.
        (&[JUMP_REG, 0], &to_end, CodeKind::UnknownWord, 0x0040_0008),
        // jal to itself.
        (
            &[0x0C10_0000, 0, RETURN, 0],
            &[],
            CodeKind::Recursion,
            START,
        ),
        // The function at 16 calls that at 32, which calls that at 48, which calls that at 16; the entry
        // calls that at 32.
        (
            &[
                0x0C10_0008,
                0,
                RETURN,
                0,
                0x0C10_0008,
                0,
                RETURN,
                0,
                0x0C10_000C,
                0,
                RETURN,
                0,
                0x0C10_0004,
                0,
                RETURN,
                0,
            ],
            &[],
            CodeKind::Recursion,
            0x0040_0010,
        ),
    ];
    for (words, targets, kind, address) in cases {
        let fault = fault_of(alloc, words, targets)?;
        let first = Some(CodeFault::Bad { kind, address });
        assert_eq!(rt; fault, first, "at {address}");
    }
    Ok(())
}
