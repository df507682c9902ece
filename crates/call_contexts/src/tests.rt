//! How many contexts and places programs have, and programs without a net.

mod layouts;
mod shapes;

use crate::{NetFault, expand};
use elf_mips::{Image, read_image};
use flow_net::Net;
use loop_nest::find_loops;
use std::alloc::{AllocError, Global};
use std::test::Fail;
use unit_graph::function_graphs;

/// Where the code begins.
const START: u32 = 0x0040_0000;

/// jr $31, and break.
const RETURN: u32 = 0x03E0_0008;

const BREAK: u32 = 0x0000_000D;

/// jal to the start; a jump to a word behind it adds that word's number.
const CALL: u32 = 0x0C10_0000;

/// A record: its kind, its address, and x.
type Record = (u32, u32, u32);

fn push_words(file: &mut Vec<u8>, words: &[u32]) -> Result<(), AllocError> {
    for word in words {
        file.extend_from_slice(&word.to_be_bytes())?;
    }
    Ok(())
}

/// A big-endian MIPS I executable of these words, with these records.
fn file_of(alloc: Global, words: &[u32], records: &[Record]) -> Result<Vec<u8>, Fail> {
    if words.len() > 100_000 || records.len() > 1000 {
        return Err("a large file".into());
    }
    let size = 4 * words.len() as u32;
    let marks = 16 * records.len() as u32;
    let sections = size + marks + 101;
    let mut file = Vec::new(alloc);
    push_words(
        &mut file,
        &[0x7F45_4C46, 0x0102_0100, 0, 0, 0x0002_0008, 1, START, 52],
    )?;
    push_words(
        &mut file,
        &[sections, 0, 0x0034_0020, 0x0001_0028, 0x0003_0002],
    )?;
    push_words(&mut file, &[1, 84, START, START, size, size, 5, 4])?;
    push_words(&mut file, words)?;
    for (kind, address, x) in records {
        push_words(&mut file, &[*kind, *address, *x, 0])?;
    }
    file.extend_from_slice(b"\0.wcet\0.shstrtab\0")?;
    push_words(&mut file, &[0; 10])?;
    push_words(&mut file, &[1, 1, 0, 0, size + 84, marks, 0, 0, 0, 0])?;
    push_words(&mut file, &[7, 3, 0, 0, size + marks + 84, 17, 0, 0, 0, 0])?;
    Ok(file)
}

/// The image of these words, with these records.
fn image_of(alloc: Global, words: &[u32], records: &[Record]) -> Result<Image, Fail> {
    let file = file_of(alloc, words, records)?;
    if file.len() > 1_000_000 {
        return Err("a long file".into());
    }
    Ok(read_image(alloc, &file)?)
}

/// The net of these words, or why there is none.
fn net_of(alloc: Global, words: &[u32], records: &[Record]) -> Result<Result<Net, NetFault>, Fail> {
    let image = image_of(alloc, words, records)?;
    let Ok(graphs) = function_graphs(alloc, &image, START) else {
        return Err("a fault of the code".into());
    };
    let Ok(nests) = find_loops(alloc, &graphs, &image) else {
        return Err("a fault of the loops".into());
    };
    Ok(expand(alloc, &graphs, &nests))
}

/// So many functions in a chain, each of which calls the next one twice; the last one calls nothing, and the
/// first one ends with the given word.
fn chain(alloc: Global, count: u32, last: u32) -> Result<Vec<u32>, Fail> {
    let mut words = Vec::new(alloc);
    for function in 1..count {
        let call = CALL.wrapping_add(function.wrapping_mul(6));
        let end = if function == 1 { last } else { RETURN };
        words.extend_from_slice(&[call, 0, call, 0, end, 0])?;
    }
    words.extend_from_slice(&[RETURN, 0])?;
    Ok(words)
}

/// How many contexts, places and arcs the net of a chain has, or why there is none.
fn sizes_of(
    alloc: Global,
    functions: u32,
) -> Result<Result<(usize, usize, usize), NetFault>, Fail> {
    let words = chain(alloc, functions, RETURN)?;
    match net_of(alloc, &words, &[])? {
        Ok(net) => Ok(Ok((
            net.contexts.as_slice().len(),
            net.places.as_slice().len(),
            net.arcs.as_slice().len(),
        ))),
        Err(fault) => Ok(Err(fault)),
    }
}

#[test]
fn counts_contexts_and_places(rt: HostRuntime) -> Result<(), Fail> {
    let alloc = rt.alloc();
    assert_eq!(rt; sizes_of(alloc, 14)?, Ok((16_383, 32_765, 32_766)));
    assert_eq!(rt;
        sizes_of(alloc, 15)?,
        Err(NetFault::TooMany {
            contexts: 32_767,
            places: 65_533,
        })
    );
    // 2^60 - 1 and 2^61 - 3, counted and not made.
    assert_eq!(rt;
        sizes_of(alloc, 60)?,
        Err(NetFault::TooMany {
            contexts: 1_152_921_504_606_846_975,
            places: 2_305_843_009_213_693_949,
        })
    );
    Ok(())
}

#[test]
fn refuses_an_entry_that_never_returns(rt: HostRuntime) -> Result<(), Fail> {
    let alloc = rt.alloc();
    let found = net_of(alloc, &[BREAK], &[])?;
    assert!(rt; matches!(found, Err(NetFault::NeverReturns)));
    Ok(())
}
