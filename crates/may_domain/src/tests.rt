//! Touches and joins of lower ages, worked by hand on lists of the blocks of a set.

ghost use Rattle.may_domain.specs.States.{IsNamed};
ghost use Rattle.std.specs.Prelude.{IfOk, [], ◌∷◌};

use crate::Lower;
use age_model::Candidates;
use domain_laws::{Lattice, Widen};
use std::alloc::{AllocError, Global};
use std::test::Fail;

/// A touched block, and the bounds of the blocks 1 to 4 after it in a set with 3 ways, of which nothing was known. The
/// block 4 shares its bound with all others before its touch.
const TOUCHES: [(u32, (u32, u32, u32, u32)); 8] = [
    (1, (0, 1, 1, 1)),
    (2, (1, 0, 2, 2)),
    (3, (2, 1, 0, 3)),
    (1, (0, 2, 1, 3)),
    (4, (1, 3, 2, 0)),
    (4, (1, 3, 2, 0)),
    (2, (2, 0, 3, 1)),
    (1, (0, 1, 3, 2)),
];

/// The bounds of the blocks 1 to 4.
fn ages(state: &Lower) -> (u32, u32, u32, u32) {
    (state.age(1), state.age(2), state.age(3), state.age(4))
}

#[test]
fn ages_follow_a_list(rt: HostRuntime) -> Result<(), Fail> {
    let mut state = Lower::unknown(rt.alloc(), 3);
    assert_eq!(rt; ages(&state), (0, 0, 0, 0));
    for (block, after) in &TOUCHES {
        state.sure(*block)?;
        assert_eq!(rt; ages(&state), *after);
    }
    Ok(())
}

#[test]
fn blocks_are_absent_after_as_many_others_as_ways(rt: HostRuntime) -> Result<(), Fail> {
    for ways in 1..=16 {
        let mut state = Lower::unknown(rt.alloc(), ways);
        for other in 0..ways {
            assert_eq!(rt; state.age(100), other);
            state.sure(other)?;
        }
        assert_eq!(rt; state.age(100), ways);
    }
    Ok(())
}

#[test]
fn doubtful_touches_bring_candidates_back(rt: HostRuntime) -> Result<(), Fail> {
    let mut state = Lower::unknown(rt.alloc(), 3);
    state.sure(1)?;
    state.sure(2)?;
    assert_eq!(rt; ages(&state), (1, 0, 2, 2));
    // Blocks 1 and 2 have names: all others keep their bound.
    let named = Candidates {
        first: 1,
        last: 2,
        step: 1,
    };
    state.doubtful(&named)?;
    assert_eq!(rt; ages(&state), (0, 0, 2, 2));
    // Block 3 alone gets a name.
    let one = Candidates {
        first: 3,
        last: 3,
        step: 1,
    };
    state.doubtful(&one)?;
    assert_eq!(rt; ages(&state), (0, 0, 0, 2));
    // Any block of a set of which every fourth block is one.
    let all = Candidates {
        first: 0,
        last: 0xffff_ffff,
        step: 4,
    };
    state.doubtful(&all)?;
    assert_eq!(rt; ages(&state), (0, 0, 0, 0));
    Ok(())
}

#[test]
fn names_change_no_bound(rt: HostRuntime) -> Result<(), Fail> {
    let mut state = Lower::unknown(rt.alloc(), 3);
    state.sure(1)?;
    state.name(2)?;
    state.name(1)?;
    assert_eq!(rt; ages(&state), (0, 1, 1, 1));
    // Block 3 shares its bound with block 4, and block 2 doesn't.
    let two = Candidates {
        first: 3,
        last: 4,
        step: 1,
    };
    state.doubtful(&two)?;
    assert_eq!(rt; ages(&state), (0, 1, 0, 0));
    Ok(())
}
