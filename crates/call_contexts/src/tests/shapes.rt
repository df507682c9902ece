//! Nets of short programs, with their contexts, places, arcs and loop instances worked out by hand.

use super::{BREAK, RETURN, Record, START, net_of};
use flow_net::Net;
use std::alloc::Global;
use std::test::Fail;

/// A context: its parent, its site and its function.
type Called = (u32, u32, u32);

/// A place: its context, its address and its scope.
type Stop = (u32, u32, u32);

/// A loop instance: its header's place, its bound and the scope round it.
type Turn = (u32, u32, u32);

/// What a net must say: its contexts, places, arcs and loop instances, and how many accesses it has.
#[derive(Drop)]
struct Shape<'a> {
    contexts: &'a [Called],
    places: &'a [Stop],
    arcs: &'a [(u32, u32)],
    loops: &'a [Turn],
    accesses: usize,
}

fn are_contexts(net: &Net, wanted: &[Called]) -> bool {
    let found = net.contexts.as_slice();
    if found.len() != wanted.len() {
        return false;
    }
    for (context, called) in found.iter().zip(wanted) {
        if (context.parent, context.site, context.target) != *called {
            return false;
        }
    }
    true
}

fn are_places(net: &Net, wanted: &[Stop]) -> bool {
    let found = net.places.as_slice();
    if found.len() != wanted.len() {
        return false;
    }
    for (place, stop) in found.iter().zip(wanted) {
        if (place.context, place.address, place.scope) != *stop {
            return false;
        }
    }
    true
}

fn are_arcs(net: &Net, wanted: &[(u32, u32)]) -> bool {
    let found = net.arcs.as_slice();
    if found.len() != wanted.len() {
        return false;
    }
    for (arc, ends) in found.iter().zip(wanted) {
        if (arc.from, arc.to) != *ends {
            return false;
        }
    }
    true
}

fn are_loops(net: &Net, wanted: &[Turn]) -> bool {
    let found = net.loops.as_slice();
    if found.len() != wanted.len() {
        return false;
    }
    for (inst, turn) in found.iter().zip(wanted) {
        if (inst.header, inst.bound, inst.outer) != *turn {
            return false;
        }
    }
    true
}

/// Whether the words have a net of this shape.
fn has_shape(
    alloc: Global,
    words: &[u32],
    records: &[Record],
    shape: &Shape,
) -> Result<bool, Fail> {
    let Ok(net) = net_of(alloc, words, records)? else {
        return Ok(false);
    };
    Ok(
        are_contexts(&net, shape.contexts)
            && are_places(&net, shape.places)
            && are_arcs(&net, shape.arcs)
            && are_loops(&net, shape.loops)
            && net.accesses.as_slice().len() == shape.accesses,
    )
}

/// A loop that calls a function with a loop.
const CALLED_LOOP: [u32; 15] = [
    0x03E0_8821,
    0x2410_0002,
    0x0C10_000A,
    0,
    0x2610_FFFF,
    0x1600_FFFC,
    0,
    0x0220_F821,
    RETURN,
    0,
    0x2508_FFFF,
    0x1500_FFFE,
    0,
    RETURN,
    0,
];

#[test]
fn expands_a_call_in_a_loop(rt: HostRuntime) -> Result<(), Fail> {
    let alloc = rt.alloc();
    let shape = Shape {
        contexts: &[(0, 0, START), (0, 0x0040_0008, 0x0040_0028)],
        places: &[
            (0, START, 0),
            (0, 0x0040_0004, 0),
            (0, 0x0040_0008, 1),
            (0, 0x0040_0010, 1),
            (0, 0x0040_0014, 1),
            (0, 0x0040_001C, 0),
            (0, 0x0040_0020, 0),
            (1, 0x0040_0028, 2),
            (1, 0x0040_002C, 2),
            (1, 0x0040_0034, 1),
        ],
        arcs: &[
            (0, 1),
            (1, 2),
            (2, 3),
            (3, 8),
            (4, 5),
            (5, 3),
            (5, 6),
            (6, 7),
            (7, 0),
            (8, 9),
            (9, 8),
            (9, 10),
            (10, 4),
        ],
        loops: &[(3, 2, 0), (8, 3, 1)],
        accesses: 15,
    };
    // The record of a call names the loop that holds the call, as one of its other units does.
    let records: [(u32, u32, u32); 2] = [(1, 0x0040_0008, 2), (1, 0x0040_0028, 3)];
    assert!(rt; has_shape(alloc, &CALLED_LOOP, &records, &shape)?);
    let others: [(u32, u32, u32); 2] = [(1, 0x0040_0014, 2), (1, 0x0040_002C, 3)];
    assert!(rt; has_shape(alloc, &CALLED_LOOP, &others, &shape)?);
    Ok(())
}

/// Two loops that each call one function.
const TWO_LOOPS: [u32; 14] = [
    0x0C10_000C,
    0,
    0x1600_FFFD,
    0,
    0x0C10_000C,
    0,
    0x1600_FFFD,
    0,
    RETURN,
    0,
    0,
    0,
    RETURN,
    0,
];

#[test]
fn expands_each_call_apart(rt: HostRuntime) -> Result<(), Fail> {
    let alloc = rt.alloc();
    let shape = Shape {
        contexts: &[
            (0, 0, START),
            (0, START, 0x0040_0030),
            (0, 0x0040_0010, 0x0040_0030),
        ],
        places: &[
            (0, START, 1),
            (0, 0x0040_0008, 1),
            (0, 0x0040_0010, 2),
            (0, 0x0040_0018, 2),
            (0, 0x0040_0020, 0),
            (1, 0x0040_0030, 1),
            (2, 0x0040_0030, 2),
        ],
        arcs: &[
            (0, 1),
            (1, 6),
            (2, 1),
            (2, 3),
            (3, 7),
            (4, 3),
            (4, 5),
            (5, 0),
            (6, 2),
            (7, 4),
        ],
        loops: &[(1, 7, 0), (3, 8, 0)],
        accesses: 14,
    };
    let records: [(u32, u32, u32); 2] = [(1, START, 7), (1, 0x0040_0010, 8)];
    assert!(rt; has_shape(alloc, &TWO_LOOPS, &records, &shape)?);
    Ok(())
}

/// A call by register of two functions, the second of which jumps by register.
const BY_REGISTER: [u32; 12] = [
    0x0100_F809,
    0,
    RETURN,
    0,
    RETURN,
    0,
    0x0100_0008,
    0,
    RETURN,
    0,
    RETURN,
    0,
];

#[test]
fn expands_recorded_targets(rt: HostRuntime) -> Result<(), Fail> {
    let alloc = rt.alloc();
    let shape = Shape {
        contexts: &[
            (0, 0, START),
            (0, START, 0x0040_0010),
            (0, START, 0x0040_0018),
        ],
        places: &[
            (0, START, 0),
            (0, 0x0040_0008, 0),
            (1, 0x0040_0010, 0),
            (2, 0x0040_0018, 0),
            (2, 0x0040_0020, 0),
            (2, 0x0040_0028, 0),
        ],
        arcs: &[
            (0, 1),
            (1, 3),
            (1, 4),
            (2, 0),
            (3, 2),
            (4, 5),
            (4, 6),
            (5, 2),
            (6, 2),
        ],
        loops: &[],
        accesses: 12,
    };
    // In no order, and one of them twice.
    let records: [(u32, u32, u32); 5] = [
        (2, START, 0x0040_0018),
        (2, START, 0x0040_0010),
        (2, START, 0x0040_0018),
        (2, 0x0040_0018, 0x0040_0028),
        (2, 0x0040_0018, 0x0040_0020),
    ];
    assert!(rt; has_shape(alloc, &BY_REGISTER, &records, &shape)?);
    Ok(())
}

/// A function that sums an array in a loop, called with a stack frame.
const SUM: [u32; 25] = [
    0x27BD_FFE0,
    0xAFBF_001C,
    0xAFBE_0018,
    0x03A0_F021,
    0xAFC4_0020,
    0x3C04_0040,
    0x0C10_0010,
    0x2484_0080,
    0x8FC4_0020,
    0x0044_1021,
    0x03C0_E821,
    0x8FBF_001C,
    0x8FBE_0018,
    RETURN,
    0x27BD_0020,
    0,
    0x0000_1021,
    0x2485_0010,
    0x8C83_0000,
    0x2484_0004,
    0x0043_1021,
    0x1485_FFFC,
    0,
    RETURN,
    0,
];

#[test]
fn expands_a_loop_in_a_called_function(rt: HostRuntime) -> Result<(), Fail> {
    let alloc = rt.alloc();
    let shape = Shape {
        contexts: &[(0, 0, START), (0, 0x0040_0018, 0x0040_0040)],
        places: &[
            (0, START, 0),
            (0, 0x0040_0004, 0),
            (0, 0x0040_0008, 0),
            (0, 0x0040_000C, 0),
            (0, 0x0040_0010, 0),
            (0, 0x0040_0014, 0),
            (0, 0x0040_0018, 0),
            (0, 0x0040_0020, 0),
            (0, 0x0040_0024, 0),
            (0, 0x0040_0028, 0),
            (0, 0x0040_002C, 0),
            (0, 0x0040_0030, 0),
            (0, 0x0040_0034, 0),
            (1, 0x0040_0040, 0),
            (1, 0x0040_0044, 0),
            (1, 0x0040_0048, 1),
            (1, 0x0040_004C, 1),
            (1, 0x0040_0050, 1),
            (1, 0x0040_0054, 1),
            (1, 0x0040_005C, 0),
        ],
        arcs: &[
            (0, 1),
            (1, 2),
            (2, 3),
            (3, 4),
            (4, 5),
            (5, 6),
            (6, 7),
            (7, 14),
            (8, 9),
            (9, 10),
            (10, 11),
            (11, 12),
            (12, 13),
            (13, 0),
            (14, 15),
            (15, 16),
            (16, 17),
            (17, 18),
            (18, 19),
            (19, 16),
            (19, 20),
            (20, 8),
        ],
        loops: &[(16, 4, 0)],
        accesses: 28,
    };
    assert!(rt; has_shape(alloc, &SUM, &[(1, 0x0040_0048, 4)], &shape)?);
    Ok(())
}

/// A loop with a BGEZAL of $4 that may be not taken, and calls a function that never returns.
const NEVER_BACK: [u32; 7] = [0x0491_0005, 0, 0x1600_FFFD, 0, RETURN, 0, BREAK];

/// A div, a bne, a break, a beq, a return, and a call of a break.
const DEAD_ENDS: [u32; 11] = [
    0x0085_001A,
    0x14A0_0002,
    0,
    0x0007_000D,
    0x1080_0003,
    0,
    RETURN,
    0x0000_1012,
    0x0C10_000A,
    0,
    BREAK,
];

#[test]
fn expands_calls_that_never_return(rt: HostRuntime) -> Result<(), Fail> {
    let alloc = rt.alloc();
    // The loop holds the place of the function that it calls.
    let never_back = Shape {
        contexts: &[(0, 0, START), (0, START, 0x0040_0018)],
        places: &[
            (0, START, 1),
            (0, 0x0040_0008, 1),
            (0, 0x0040_0010, 0),
            (1, 0x0040_0018, 1),
        ],
        arcs: &[(0, 1), (1, 2), (1, 4), (2, 1), (2, 3), (3, 0)],
        loops: &[(1, 6, 0)],
        accesses: 7,
    };
    assert!(rt; has_shape(alloc, &NEVER_BACK, &[(1, START, 6)], &never_back)?);
    let dead_ends = Shape {
        contexts: &[(0, 0, START), (0, 0x0040_0020, 0x0040_0028)],
        places: &[
            (0, START, 0),
            (0, 0x0040_0004, 0),
            (0, 0x0040_000C, 0),
            (0, 0x0040_0010, 0),
            (0, 0x0040_0018, 0),
            (0, 0x0040_0020, 0),
            (1, 0x0040_0028, 0),
        ],
        arcs: &[
            (0, 1),
            (1, 2),
            (2, 3),
            (2, 4),
            (4, 5),
            (4, 6),
            (5, 0),
            (6, 7),
        ],
        loops: &[],
        accesses: 11,
    };
    assert!(rt; has_shape(alloc, &DEAD_ENDS, &[], &dead_ends)?);
    Ok(())
}
