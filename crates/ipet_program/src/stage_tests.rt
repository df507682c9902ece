//! Programs of small nets under profiles with caches, with every row, value and cap worked out by hand.

use crate::Program;
use crate::tests::{COUNTED, Line, Plan, START, are_rows, built_under};
use cache_config::{Profile, read_profile};
use flow_net::{Class, Letter, Level2, Role};
use std::alloc::Global;
use std::test::Fail;

/// A cache of instructions, 4 sets of 2 ways.
const ONE: &str = "[[cache]]\nserves = 'fetch'\nsets = 4\nways = 2\nline = 16\nlatency = 1\n";

/// The same, and a cache of all accesses, 16 sets of 4 ways.
const TWO: &str = "\
    [[cache]]\nserves = 'fetch'\nsets = 4\nways = 2\nline = 16\nlatency = 1\n\
    [[cache]]\nserves = 'both'\nsets = 16\nways = 4\nline = 16\nlatency = 5\n";

/// A cache of instructions of one line, and a cache of all accesses, 4 sets of 2 ways.
const SMALL: &str = "\
    [[cache]]\nserves = 'fetch'\nsets = 1\nways = 1\nline = 16\nlatency = 1\n\
    [[cache]]\nserves = 'both'\nsets = 4\nways = 2\nline = 16\nlatency = 5\n";

/// addiu $8, $0, 3; addiu $8, $8, -1; nop; nop; bne $8, $0, back to the second; nop; jr $31; nop.
const TWO_LINES: [u32; 8] = [
    0x2408_0003,
    0x2508_FFFF,
    0,
    0,
    0x1500_FFFC,
    0,
    0x03E0_0008,
    0,
];

const HIT: Level2 = Level2 {
    letter: Letter::Always,
    class: Class::Hit,
};

const MISS: Level2 = Level2 {
    letter: Letter::Always,
    class: Class::Miss,
};

const NONE: Level2 = Level2 {
    letter: Letter::Always,
    class: Class::Unclassified,
};

const NEVER: Level2 = Level2 {
    letter: Letter::Never,
    class: Class::Unclassified,
};

/// Each time it arrives, with at most one miss in each stay in the scope.
const fn first(scope: u32) -> Level2 {
    Level2 {
        letter: Letter::Always,
        class: Class::First(scope),
    }
}

/// It may arrive, with at most one miss in the run.
const PERHAPS: Level2 = Level2 {
    letter: Letter::Uncertain,
    class: Class::First(0),
};

fn profile_of(alloc: Global, text: &str) -> Result<Profile, Fail> {
    match read_profile(alloc, text.as_bytes()) {
        Ok(profile) => Ok(profile),
        Err(_) => Err("the profile isn't read".into()),
    }
}

/// Whether the program has these values and caps, and a stage for each column from this one on.
fn has_columns(program: &Program, first: usize, value: &[i64], caps: &[u64]) -> bool {
    program.value.as_slice() == value
        && program.caps.as_slice() == caps
        && program.columns as usize == caps.len()
        && program.stages.as_slice().len().checked_add(first) == caps.len().checked_add(1)
}

/// The counted loop, bound 5, with the accesses of its units.
fn counted<'a>(accesses: &'a [(u32, Role, &'a [Level2])]) -> Plan<'a> {
    Plan {
        places: &[(START, 0), (START + 4, 1), (START + 8, 1), (START + 16, 0)],
        arcs: &[(0, 1), (1, 2), (2, 3), (3, 2), (3, 4), (4, 0)],
        loops: &[(2, 5, 0)],
        accesses,
    }
}

#[test]
fn builds_the_counted_loop_with_one_cache(rt: HostRuntime) -> Result<(), Fail> {
    // The lines at the first and the fourth place are read once; all other fetches find theirs.
    let once = [first(0)];
    let hit = [HIT];
    let accesses: [(u32, Role, &[Level2]); 6] = [
        (1, Role::Fetch, &once),
        (2, Role::Fetch, &hit),
        (3, Role::Fetch, &hit),
        (3, Role::Slot, &hit),
        (4, Role::Fetch, &once),
        (4, Role::Slot, &hit),
    ];
    let plan = counted(&accesses);
    let profile = profile_of(rt.alloc(), ONE)?;
    let program = built_under(rt.alloc(), &COUNTED, &plan, &profile)??;
    let lines: [Line; 18] = [
        (true, &[(1, 1)], 1),
        (true, &[(1, 1), (2, -1)], 0),
        (true, &[(2, 1), (3, -1), (4, 1)], 0),
        (true, &[(3, 1), (4, -1), (5, -1)], 0),
        (true, &[(5, 1), (6, -1)], 0),
        (false, &[(2, -4), (4, 1)], 0),
        (false, &[(1, -1), (7, 1)], 0),
        (false, &[(1, -1), (7, 1)], 0),
        (false, &[(2, -1), (4, -1), (8, 1)], 0),
        (false, &[(8, 1)], 0),
        (false, &[(3, -1), (9, 1)], 0),
        (false, &[(9, 1)], 0),
        (false, &[(3, -1), (10, 1)], 0),
        (false, &[(10, 1)], 0),
        (false, &[(5, -1), (11, 1)], 0),
        (false, &[(1, -1), (11, 1)], 0),
        (false, &[(5, -1), (12, 1)], 0),
        (false, &[(12, 1)], 0),
    ];
    assert!(rt; are_rows(&program, &lines));
    let value = [2, 2, 4, 2, 4, 0, 10, 10, 10, 10, 10, 10];
    let caps = [1, 1, 5, 5, 5, 1, 1, 5, 5, 5, 1, 1];
    assert!(rt; has_columns(&program, 7, &value, &caps));
    Ok(())
}

#[test]
fn builds_the_counted_loop_with_two_caches(rt: HostRuntime) -> Result<(), Fail> {
    let once = [first(0), PERHAPS];
    let never = [HIT, NEVER];
    let accesses: [(u32, Role, &[Level2]); 6] = [
        (1, Role::Fetch, &once),
        (2, Role::Fetch, &never),
        (3, Role::Fetch, &never),
        (3, Role::Slot, &never),
        (4, Role::Fetch, &once),
        (4, Role::Slot, &never),
    ];
    let plan = counted(&accesses);
    let profile = profile_of(rt.alloc(), TWO)?;
    let program = built_under(rt.alloc(), &COUNTED, &plan, &profile)??;
    let lines: [Line; 30] = [
        (true, &[(1, 1)], 1),
        (true, &[(1, 1), (2, -1)], 0),
        (true, &[(2, 1), (3, -1), (4, 1)], 0),
        (true, &[(3, 1), (4, -1), (5, -1)], 0),
        (true, &[(5, 1), (6, -1)], 0),
        (false, &[(2, -4), (4, 1)], 0),
        (false, &[(1, -1), (7, 1)], 0),
        (false, &[(1, -1), (7, 1)], 0),
        (false, &[(7, -1), (8, 1)], 0),
        (false, &[(1, -1), (8, 1)], 0),
        (false, &[(2, -1), (4, -1), (9, 1)], 0),
        (false, &[(9, 1)], 0),
        (false, &[(9, -1), (10, 1)], 0),
        (false, &[(10, 1)], 0),
        (false, &[(3, -1), (11, 1)], 0),
        (false, &[(11, 1)], 0),
        (false, &[(11, -1), (12, 1)], 0),
        (false, &[(12, 1)], 0),
        (false, &[(3, -1), (13, 1)], 0),
        (false, &[(13, 1)], 0),
        (false, &[(13, -1), (14, 1)], 0),
        (false, &[(14, 1)], 0),
        (false, &[(5, -1), (15, 1)], 0),
        (false, &[(1, -1), (15, 1)], 0),
        (false, &[(15, -1), (16, 1)], 0),
        (false, &[(1, -1), (16, 1)], 0),
        (false, &[(5, -1), (17, 1)], 0),
        (false, &[(17, 1)], 0),
        (false, &[(17, -1), (18, 1)], 0),
        (false, &[(18, 1)], 0),
    ];
    assert!(rt; are_rows(&program, &lines));
    let value = [2, 2, 4, 2, 4, 0, 5, 10, 5, 10, 5, 10, 5, 10, 5, 10, 5, 10];
    let caps = [1, 1, 5, 5, 5, 1, 1, 1, 5, 5, 5, 5, 5, 5, 1, 1, 1, 1];
    assert!(rt; has_columns(&program, 7, &value, &caps));
    Ok(())
}

#[test]
fn builds_a_loop_over_two_lines(rt: HostRuntime) -> Result<(), Fail> {
    // The second cache keeps both lines. In the first one each turn reads both anew: its second line surely misses.
    let never = [HIT, NEVER];
    let plan = Plan {
        places: &[
            (START, 0),
            (START + 4, 1),
            (START + 8, 1),
            (START + 12, 1),
            (START + 16, 1),
            (START + 24, 0),
        ],
        arcs: &[
            (0, 1),
            (1, 2),
            (2, 3),
            (3, 4),
            (4, 5),
            (5, 2),
            (5, 6),
            (6, 0),
        ],
        loops: &[(2, 3, 0)],
        accesses: &[
            (1, Role::Fetch, &[first(0), PERHAPS]),
            (2, Role::Fetch, &[NONE, PERHAPS]),
            (3, Role::Fetch, &never),
            (4, Role::Fetch, &never),
            (5, Role::Fetch, &[MISS, first(0)]),
            (5, Role::Slot, &never),
            (6, Role::Fetch, &never),
            (6, Role::Slot, &never),
        ],
    };
    let profile = profile_of(rt.alloc(), SMALL)?;
    let program = built_under(rt.alloc(), &TWO_LINES, &plan, &profile)??;
    let lines: [Line; 40] = [
        (true, &[(1, 1)], 1),
        (true, &[(1, 1), (2, -1)], 0),
        (true, &[(2, 1), (3, -1), (6, 1)], 0),
        (true, &[(3, 1), (4, -1)], 0),
        (true, &[(4, 1), (5, -1)], 0),
        (true, &[(5, 1), (6, -1), (7, -1)], 0),
        (true, &[(7, 1), (8, -1)], 0),
        (false, &[(2, -2), (6, 1)], 0),
        (false, &[(1, -1), (9, 1)], 0),
        (false, &[(1, -1), (9, 1)], 0),
        (false, &[(9, -1), (10, 1)], 0),
        (false, &[(1, -1), (10, 1)], 0),
        (false, &[(2, -1), (6, -1), (11, 1)], 0),
        (false, &[(11, -1), (12, 1)], 0),
        (false, &[(1, -1), (12, 1)], 0),
        (false, &[(2, -1), (12, 1)], 0),
        (false, &[(3, -1), (13, 1)], 0),
        (false, &[(13, 1)], 0),
        (false, &[(13, -1), (14, 1)], 0),
        (false, &[(14, 1)], 0),
        (false, &[(4, -1), (15, 1)], 0),
        (false, &[(15, 1)], 0),
        (false, &[(15, -1), (16, 1)], 0),
        (false, &[(16, 1)], 0),
        (false, &[(5, -1), (17, 1)], 0),
        (false, &[(17, -1), (18, 1)], 0),
        (false, &[(1, -1), (18, 1)], 0),
        (false, &[(2, -1), (18, 1)], 0),
        (false, &[(5, -1), (19, 1)], 0),
        (false, &[(19, 1)], 0),
        (false, &[(19, -1), (20, 1)], 0),
        (false, &[(20, 1)], 0),
        (false, &[(7, -1), (21, 1)], 0),
        (false, &[(21, 1)], 0),
        (false, &[(21, -1), (22, 1)], 0),
        (false, &[(22, 1)], 0),
        (false, &[(7, -1), (23, 1)], 0),
        (false, &[(23, 1)], 0),
        (false, &[(23, -1), (24, 1)], 0),
        (false, &[(24, 1)], 0),
    ];
    assert!(rt; are_rows(&program, &lines));
    let value = [
        2, 2, 2, 2, 4, 2, 4, 0, 5, 10, 5, 10, 5, 10, 5, 10, 5, 10, 5, 10, 5, 10, 5, 10,
    ];
    let caps = [
        1, 1, 3, 3, 3, 3, 3, 1, 1, 1, 3, 3, 3, 3, 3, 3, 3, 3, 3, 3, 1, 1, 1, 1,
    ];
    assert!(rt; has_columns(&program, 9, &value, &caps));
    Ok(())
}

#[test]
fn tells_apart_the_arcs_that_enter(rt: HostRuntime) -> Result<(), Fail> {
    // The entry heads loop 1, and loop 2 lies in it. Arc 5 leaves both, and enters loop 3.
    let plan = Plan {
        places: &[(START, 1), (START, 2), (START, 3)],
        arcs: &[(0, 1), (1, 2), (2, 2), (2, 1), (2, 3), (3, 3), (3, 0)],
        loops: &[(1, 3, 0), (2, 2, 1), (3, 4, 0)],
        accesses: &[
            (1, Role::Fetch, &[first(1)]),
            (2, Role::Fetch, &[first(0)]),
            (3, Role::Fetch, &[first(3)]),
        ],
    };
    let profile = profile_of(rt.alloc(), ONE)?;
    let program = built_under(rt.alloc(), &COUNTED, &plan, &profile)??;
    let lines: [Line; 15] = [
        (true, &[(1, 1)], 1),
        (true, &[(1, 1), (2, -1), (4, 1)], 0),
        (true, &[(2, 1), (4, -1), (5, -1)], 0),
        (true, &[(5, 1), (7, -1)], 0),
        (false, &[(1, -2), (4, 1)], 0),
        (false, &[(2, -1), (3, 1)], 0),
        (false, &[(5, -3), (6, 1)], 0),
        (false, &[(1, -1), (4, -1), (8, 1)], 0),
        (false, &[(1, -1), (8, 1)], 0),
        (false, &[(2, -1), (3, -1), (9, 1)], 0),
        (false, &[(1, -1), (9, 1)], 0),
        (false, &[(1, -1), (9, 1)], 0),
        (false, &[(2, -1), (9, 1)], 0),
        (false, &[(5, -1), (6, -1), (10, 1)], 0),
        (false, &[(5, -1), (10, 1)], 0),
    ];
    assert!(rt; are_rows(&program, &lines));
    let value = [2, 2, 2, 2, 2, 2, 0, 10, 10, 10];
    let caps = [1, 3, 6, 6, 6, 4, 4, 3, 6, 4];
    assert!(rt; has_columns(&program, 8, &value, &caps));
    Ok(())
}
