//! The greatest value of a loop within a loop, worked out by hand.

ghost use Rattle.std.specs.Prelude.{◌≤◌, ◌^◌, IfOk, length};
ghost use Rattle.flow_net.specs.Nested.{IsNested};
ghost use Rattle.nest_solver.specs.Nets.{IsProgramOfNet};

use crate::{nest_bound, nest_counts};
use flow_net::{Access, Context, LoopInst, Net, NetArc, Place, Role};
use ipet_program::{Program, Row, Term};
use std::alloc::{AllocError, Global};
use std::test::Fail;
use wcet_io::List;

/// A net and its program.
#[derive(Drop)]
struct Pair {
    net: Net,
    program: Program,
}

/// Place 1 is the header of loop 1 of bound 3, place 2 that of loop 2 of bound 4 inside it, which repeats itself; a run
/// ends from place 1. Place 1 costs 10 cycles, place 2 costs 100.
fn two_loops(alloc: Global) -> Result<Pair, AllocError>
    ensures { IfOk result (λ pair. IsNested pair.net × (length pair.net.arcs ≤ 2 ^ 28)
        × IsProgramOfNet pair.net pair.program) }
{
    let contexts = vec![in alloc;
        Context {
            parent: 0,
            site: 0,
            target: 0x0040_0000
        },
    ]?;
    let places = vec![in alloc;
        Place {
            context: 0,
            address: 0x0040_0000,
            scope: 1
        },
        Place {
            context: 0,
            address: 0x0040_0004,
            scope: 2
        },
    ]?;
    let arcs = vec![in alloc;
        NetArc { from: 0, to: 1 },
        NetArc { from: 1, to: 2 },
        NetArc { from: 2, to: 2 },
        NetArc { from: 2, to: 1 },
        NetArc { from: 1, to: 0 },
    ]?;
    let loops = vec![in alloc;
        LoopInst {
            header: 1,
            bound: 3,
            outer: 0
        },
        LoopInst {
            header: 2,
            bound: 4,
            outer: 1
        },
    ]?;
    let accesses = vec![in alloc;
        Access {
            place: 2,
            role: Role::Fetch,
            at: 0x0040_0004
        },
    ]?;
    let entry = vec![in alloc;
        Term {
            column: 1,
            factor: 1
        },
    ]?;
    let first = vec![in alloc;
        Term {
            column: 1,
            factor: 1
        },
        Term {
            column: 2,
            factor: -1
        },
        Term {
            column: 4,
            factor: 1
        },
        Term {
            column: 5,
            factor: -1
        },
    ]?;
    let second = vec![in alloc;
        Term {
            column: 2,
            factor: 1
        },
        Term {
            column: 4,
            factor: -1
        },
    ]?;
    let outer = vec![in alloc;
        Term {
            column: 1,
            factor: -2
        },
        Term {
            column: 4,
            factor: 1
        },
    ]?;
    let inner = vec![in alloc;
        Term {
            column: 2,
            factor: -3
        },
        Term {
            column: 3,
            factor: 1
        },
    ]?;
    let rows = vec![in alloc;
        Row {
            equal: true,
            terms: List::from_vec(entry),
            right: 1
        },
        Row {
            equal: true,
            terms: List::from_vec(first),
            right: 0
        },
        Row {
            equal: true,
            terms: List::from_vec(second),
            right: 0
        },
        Row {
            equal: false,
            terms: List::from_vec(outer),
            right: 0
        },
        Row {
            equal: false,
            terms: List::from_vec(inner),
            right: 0
        },
    ]?;
    let value = vec![in alloc; 10, 100, 100, 10, 0]?;
    let caps = vec![in alloc; 1, 3, 12, 12, 3]?;
    Ok(Pair {
        net: Net {
            contexts: List::from_vec(contexts),
            places: List::from_vec(places),
            arcs: List::from_vec(arcs),
            loops: List::from_vec(loops),
            accesses: List::from_vec(accesses),
        },
        program: Program {
            columns: 5,
            rows: List::from_vec(rows),
            value: List::from_vec(value),
            caps: List::from_vec(caps),
            stages: List::new(alloc),
        },
    })
}

/// The header of loop 1 comes 3 times at most, so that loop 2 is entered twice and its header comes 8 times: 3 times 10
/// and 8 times 100 cycles.
#[test]
fn inner_loop_is_entered_from_each_turn_but_the_last(rt: HostRuntime) -> Result<(), Fail> {
    let pair = two_loops(rt.alloc())?;
    let leaf = nest_bound(rt.alloc(), &pair.program, &pair.net)?;
    let weights = leaf.weights.as_slice();
    assert!(rt; !weights.is_empty());
    assert_eq!(rt; weights[0].row, 1);
    assert_eq!(rt; weights[0].times, 830);
    assert_eq!(rt; leaf.denom, 1);
    Ok(())
}

/// The arcs of such a run: the entry, twice from the outer header to the inner one, six times round the inner loop, twice
/// back, and the end.
#[test]
fn arcs_are_counted_by_the_turns(rt: HostRuntime) -> Result<(), Fail> {
    let pair = two_loops(rt.alloc())?;
    let listed = nest_counts(rt.alloc(), &pair.program, &pair.net)?;
    let counts = listed.as_slice();
    assert_eq!(rt; counts.len(), 5);
    assert_eq!(rt; counts[0].column, 1);
    assert_eq!(rt; counts[0].number, 1);
    assert_eq!(rt; counts[1].number, 2);
    assert_eq!(rt; counts[2].number, 6);
    assert_eq!(rt; counts[3].number, 2);
    assert_eq!(rt; counts[4].number, 1);
    assert_eq!(rt; counts[4].column, 5);
    Ok(())
}
