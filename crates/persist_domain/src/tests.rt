//! Touches and joins of conflicts, worked by hand.

ghost use Rattle.persist_domain.specs.States.{IsConflicting};
ghost use Rattle.std.specs.Prelude.{IfOk};

use crate::Conflicts;
use age_model::Candidates;
use domain_laws::{Lattice, Widen};
use std::alloc::{AllocError, Global};
use std::test::Fail;

/// A touched block, and the number of conflicts of block 1 after it in a set with 3 ways.
const TOUCHES: [(u32, u32); 9] = [
    (2, 1),
    (2, 1),
    (3, 2),
    (1, 0),
    (4, 1),
    (3, 2),
    (2, 3),
    (5, 3),
    (1, 0),
];

/// The conflicts of block 1 in a set with 3 ways after a touch of another block.
fn touched(alloc: Global, block: u32) -> Result<Conflicts, AllocError>
    ensures { IfOk result (IsConflicting 3 1) }
{
    let mut state = Conflicts::entering(alloc, 3, 1);
    state.sure(block)?;
    Ok(state)
}

#[test]
fn conflicts_follow_a_list(rt: HostRuntime) -> Result<(), Fail> {
    let mut state = Conflicts::entering(rt.alloc(), 3, 1);
    assert_eq!(rt; state.count(), 0);
    for (block, after) in &TOUCHES {
        state.sure(*block)?;
        assert_eq!(rt; state.count(), *after);
    }
    Ok(())
}

#[test]
fn as_many_conflicts_as_ways_are_all(rt: HostRuntime) -> Result<(), Fail> {
    for ways in 1..=16 {
        let mut state = Conflicts::entering(rt.alloc(), ways, 100);
        for other in 0..ways {
            assert_eq!(rt; state.count(), other);
            state.sure(other)?;
        }
        assert_eq!(rt; state.count(), ways);
        state.sure(99)?;
        assert_eq!(rt; state.count(), ways);
        state.sure(100)?;
        assert_eq!(rt; state.count(), 0);
    }
    Ok(())
}

#[test]
fn doubtful_touches_only_add(rt: HostRuntime) -> Result<(), Fail> {
    let mut state = touched(rt.alloc(), 2)?;
    // The block itself, which may not be touched.
    let own = Candidates {
        first: 1,
        last: 1,
        step: 1,
    };
    state.doubtful(&own)?;
    assert_eq!(rt; state.count(), 1);
    // The block itself, or block 3.
    let either = Candidates {
        first: 1,
        last: 3,
        step: 2,
    };
    state.doubtful(&either)?;
    assert_eq!(rt; state.count(), 2);
    // Any block of a set of which every fourth block is one.
    let all = Candidates {
        first: 1,
        last: 0xffff_ffff,
        step: 4,
    };
    state.doubtful(&all)?;
    assert_eq!(rt; state.count(), 3);
    Ok(())
}

#[test]
fn joins_keep_the_conflicts_of_both(rt: HostRuntime) -> Result<(), Fail> {
    let mut state = touched(rt.alloc(), 2)?;
    let copy = state.copy()?;
    assert_eq!(rt; state.join(&copy)?, false);
    let other = touched(rt.alloc(), 3)?;
    assert_eq!(rt; other.leq(&state), false);
    assert_eq!(rt; state.widen(&other)?, true);
    assert_eq!(rt; state.count(), 2);
    assert_eq!(rt; copy.leq(&state), true);
    Ok(())
}
