//! Touches and joins of upper ages, worked by hand on lists of the blocks of a set.

ghost use Rattle.must_domain.specs.States.{IsUpper};
ghost use Rattle.std.specs.Prelude.{IfOk};

use crate::Upper;
use age_model::Candidates;
use domain_laws::{Lattice, Widen};
use std::alloc::{AllocError, Global};
use std::test::Fail;

/// A touched block, and the ages of the blocks 1 to 4 after it in a set with 3 ways.
const TOUCHES: [(u32, (u32, u32, u32, u32)); 8] = [
    (1, (0, 3, 3, 3)),
    (2, (1, 0, 3, 3)),
    (3, (2, 1, 0, 3)),
    (1, (0, 2, 1, 3)),
    (4, (1, 3, 2, 0)),
    (4, (1, 3, 2, 0)),
    (2, (2, 0, 3, 1)),
    (1, (0, 1, 3, 2)),
];

/// The ages of the blocks 1 to 4.
fn ages(state: &Upper) -> (u32, u32, u32, u32) {
    (state.age(1), state.age(2), state.age(3), state.age(4))
}

/// Touches of two blocks in a set with 3 ways.
fn touched(alloc: Global, first: u32, second: u32) -> Result<Upper, AllocError>
    ensures { IfOk result (IsUpper 3) }
{
    let mut state = Upper::unknown(alloc, 3);
    state.sure(first)?;
    state.sure(second)?;
    Ok(state)
}

#[test]
fn ages_follow_a_list(rt: HostRuntime) -> Result<(), Fail> {
    let mut state = Upper::unknown(rt.alloc(), 3);
    for (block, after) in &TOUCHES {
        state.sure(*block)?;
        assert_eq!(rt; ages(&state), *after);
    }
    Ok(())
}

#[test]
fn blocks_leave_after_as_many_others_as_ways(rt: HostRuntime) -> Result<(), Fail> {
    for ways in 1..=16 {
        let mut state = Upper::unknown(rt.alloc(), ways);
        state.sure(100)?;
        for other in 0..ways {
            assert_eq!(rt; state.age(100), other);
            state.sure(other)?;
        }
        assert_eq!(rt; state.age(100), ways);
    }
    Ok(())
}

#[test]
fn doubtful_touches_age_blocks_below_the_oldest(rt: HostRuntime) -> Result<(), Fail> {
    let mut state = touched(rt.alloc(), 1, 2)?;
    // Block 2 alone is as young as any candidate: nothing is below it.
    let own = Candidates {
        first: 2,
        last: 2,
        step: 1,
    };
    state.doubtful(&own)?;
    assert_eq!(rt; ages(&state), (1, 0, 3, 3));
    // Block 1 is older than block 2.
    let both = Candidates {
        first: 1,
        last: 2,
        step: 1,
    };
    state.doubtful(&both)?;
    assert_eq!(rt; ages(&state), (1, 1, 3, 3));
    // Any block of a set of which every fourth block is one.
    let all = Candidates {
        first: 0,
        last: 0xffff_ffff,
        step: 4,
    };
    state.doubtful(&all)?;
    assert_eq!(rt; ages(&state), (2, 2, 3, 3));
    Ok(())
}

#[test]
fn joins_keep_the_greater_ages(rt: HostRuntime) -> Result<(), Fail> {
    let mut state = touched(rt.alloc(), 1, 2)?;
    let copy = state.copy()?;
    assert_eq!(rt; state.join(&copy)?, false);
    let other = touched(rt.alloc(), 2, 3)?;
    assert_eq!(rt; other.leq(&state), false);
    assert_eq!(rt; state.widen(&other)?, true);
    assert_eq!(rt; ages(&state), (3, 1, 3, 3));
    assert_eq!(rt; copy.leq(&state), true);
    Ok(())
}
