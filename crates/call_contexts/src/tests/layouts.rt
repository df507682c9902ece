//! Contexts of short programs, worked out by hand, and how many those of chains of functions are.

use super::{CALL, RETURN, Record, START, chain, image_of};
use crate::fault::NetFault;
use crate::layout::{Layout, layout_of};
use flow_net::Context;
use std::alloc::Global;
use std::test::Fail;
use unit_graph::function_graphs;

/// beq $0, $0 to itself.
const STAY: u32 = 0x1000_FFFF;

/// The layout of the program of these words, or its fault.
fn layout_from(
    alloc: Global,
    words: &[u32],
    records: &[Record],
) -> Result<Result<Layout, NetFault>, Fail> {
    let image = image_of(alloc, words, records)?;
    match function_graphs(alloc, &image, START) {
        Ok(graphs) => Ok(layout_of(alloc, &graphs)),
        Err(_) => Err("no graph".into()),
    }
}

/// The context that a call makes.
fn made(parent: u32, site: u32, target: u32) -> Context {
    Context {
        parent,
        site,
        target,
    }
}

/// Whether the program of these words has these contexts, graphs and first places.
fn lays_out(
    alloc: Global,
    words: &[u32],
    records: &[Record],
    contexts: &[Context],
    functions: &[usize],
    bases: &[u32],
) -> Result<bool, Fail> {
    match layout_from(alloc, words, records)? {
        Ok(layout) => Ok(
            layout.contexts.as_slice() == contexts
                && layout.functions.as_slice() == functions
                && layout.bases.as_slice() == bases,
        ),
        Err(_) => Err("a fault".into()),
    }
}

/// The fault of a chain, or the numbers of its contexts and of the next place.
fn counts(alloc: Global, count: u32, last: u32) -> Result<Result<(usize, u32), NetFault>, Fail> {
    let words = chain(alloc, count, last)?;
    match layout_from(alloc, &words, &[])? {
        Ok(layout) => match layout.bases.last() {
            Some(next) => Ok(Ok((layout.contexts.len(), *next))),
            None => Err("no base".into()),
        },
        Err(fault) => Ok(Err(fault)),
    }
}

#[test]
fn numbers_contexts_in_the_order_of_their_parents(rt: HostRuntime) -> Result<(), Fail> {
    let alloc = rt.alloc();
    let root = made(0, 0, START);
    assert!(rt; lays_out(alloc, &[RETURN, 0], &[], &[root], &[0], &[1, 2])?);
    // The entry calls f, g and f once more, and f calls g: all contexts of the entry's calls come before those
    // of f's.
    let f = 0x0040_0020;
    let g = 0x0040_0030;
    let words: [u32; 14] = [
        CALL + 8,
        0,
        CALL + 12,
        0,
        CALL + 8,
        0,
        RETURN,
        0,
        CALL + 12,
        0,
        RETURN,
        0,
        RETURN,
        0,
    ];
    let contexts = [
        root,
        made(0, START, f),
        made(0, 0x0040_0008, g),
        made(0, 0x0040_0010, f),
        made(1, f, g),
        made(3, f, g),
    ];
    assert!(rt;
        lays_out(
            alloc,
            &words,
            &[],
            &contexts,
            &[0, 1, 2, 1, 2, 2],
            &[1, 5, 7, 8, 10, 11, 12]
        )?
    );
    Ok(())
}

#[test]
fn makes_a_context_for_each_target(rt: HostRuntime) -> Result<(), Fail> {
    let alloc = rt.alloc();
    // jalr $8 goes to both functions behind the entry's, whatever the order of the records.
    let words: [u32; 8] = [0x0100_F809, 0, RETURN, 0, RETURN, 0, RETURN, 0];
    let f = 0x0040_0010;
    let g = 0x0040_0018;
    let contexts = [made(0, 0, START), made(0, START, f), made(0, START, g)];
    for records in [
        [(2, START, f), (2, START, g)],
        [(2, START, g), (2, START, f)],
    ] {
        assert!(rt;
            lays_out(
                alloc,
                &words,
                &records,
                &contexts,
                &[0, 1, 2],
                &[1, 3, 4, 5]
            )?
        );
    }
    Ok(())
}

#[test]
fn counts_before_it_makes_contexts(rt: HostRuntime) -> Result<(), Fail> {
    let alloc = rt.alloc();
    assert_eq!(rt; counts(alloc, 1, RETURN)?, Ok((1, 2)));
    assert_eq!(rt; counts(alloc, 3, RETURN)?, Ok((7, 14)));
    assert_eq!(rt; counts(alloc, 14, RETURN)?, Ok((16_383, 32_766)));
    // Of n functions there are 2^n - 1 contexts with 2^(n + 1) - 3 places, told as at most 2^63.
    let many: [(u32, u64, u64); 4] = [
        (15, 32_767, 65_533),
        (60, 1_152_921_504_606_846_975, 2_305_843_009_213_693_949),
        (63, 9_223_372_036_854_775_807, 9_223_372_036_854_775_808),
        (70, 9_223_372_036_854_775_808, 9_223_372_036_854_775_808),
    ];
    for (count, contexts, places) in many {
        let fault = NetFault::TooMany { contexts, places };
        assert_eq!(rt; counts(alloc, count, RETURN)?, Err(fault), "of {count}");
    }
    // That the entry never returns comes first.
    assert_eq!(rt; counts(alloc, 2, STAY)?, Err(NetFault::NeverReturns));
    assert_eq!(rt; counts(alloc, 60, STAY)?, Err(NetFault::NeverReturns));
    Ok(())
}
