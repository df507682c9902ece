//! Valid and spoilt leaves and counts of a program that is written out: a run through one place of 5 cycles.

ghost use Rattle.std.specs.Prelude.{◌≡◌, ◌<◌, ◌≤◌, IfOk, pos, unsigned_abs};
ghost use Rattle.ipet_program.specs.Programs.{IsCheckable, IsSmallRow};

use crate::{
    Count, Leaf, LeafFault, Program, Row, Side2, Term, Weight, are_counts, is_split, leaf_fault,
    least_bound, shows_leaf,
};
use std::alloc::{AllocError, Global};
use std::test::Fail;
use wcet_io::List;

/// A row of two terms, in columns 1 and 2.
fn row_of(
    alloc: Global,
    equal: bool,
    first: i64,
    second: i64,
    right: i64,
) -> Result<Row, AllocError>
    requires first { unsigned_abs first ≤ 8 }
    requires second { unsigned_abs second ≤ 8 }
    requires right { unsigned_abs right ≤ 8 }
    ensures { IfOk result (IsSmallRow 2) }
{
    let terms = vec![in alloc;
        Term {
            column: 1,
            factor: first
        },
        Term {
            column: 2,
            factor: second
        },
    ]?;
    Ok(Row {
        equal,
        terms: List::from_vec(terms),
        right,
    })
}

/// Arc 1 is taken once, the place is left as often as it is come to, and it is come to at most 3 times for
/// each entering.
fn program(alloc: Global) -> Result<Program, AllocError>
    ensures { IfOk result (λ program. IsCheckable program × (program.columns ≡ 2)) }
{
    let entry = row_of(alloc, true, 1, 0, 1)?;
    let place = row_of(alloc, true, 1, -1, 0)?;
    let bounded = row_of(alloc, false, -3, 1, 0)?;
    let rows = vec![in alloc; entry, place, bounded]?;
    let value = vec![in alloc; 5, 0]?;
    let caps = vec![in alloc; 1, 1]?;
    Ok(Program {
        columns: 2,
        rows: List::from_vec(rows),
        value: List::from_vec(value),
        caps: List::from_vec(caps),
        stages: List::new(alloc),
    })
}

/// A leaf of one multiplier that shows a bound.
fn one(alloc: Global, denom: i128, row: u64, times: i128) -> Result<Leaf, AllocError>
    requires { times ≡ pos 0 → ⊥ }
{
    let weights = vec![in alloc; Weight { row, times }]?;
    Ok(Leaf {
        denom,
        empty: false,
        weights: List::from_vec(weights),
    })
}

/// A leaf of two multipliers that shows a bound, or that there are no counts.
fn two(alloc: Global, empty: bool, first: Weight, second: Weight) -> Result<Leaf, AllocError>
    requires rising { first.row < second.row }
    requires first { first.times ≡ pos 0 → ⊥ }
    requires second { second.times ≡ pos 0 → ⊥ }
{
    let weights = vec![in alloc; first, second]?;
    Ok(Leaf {
        denom: 1,
        empty,
        weights: List::from_vec(weights),
    })
}

/// A leaf of three multipliers that shows a bound.
fn three(alloc: Global, first: Weight, second: Weight, third: Weight) -> Result<Leaf, AllocError>
    requires rising { (first.row < second.row) × (second.row < third.row) }
    requires first { first.times ≡ pos 0 → ⊥ }
    requires second { second.times ≡ pos 0 → ⊥ }
    requires third { third.times ≡ pos 0 → ⊥ }
{
    let weights = vec![in alloc; first, second, third]?;
    Ok(Leaf {
        denom: 1,
        empty: false,
        weights: List::from_vec(weights),
    })
}

/// A multiplier.
fn times(row: u64, times: i128) -> Weight
    ensures row { result.row ≡ row }
    ensures times { result.times ≡ times }
{
    Weight { row, times }
}

/// The cut of column 1 at a number.
fn cut(at: u64, upper: bool) -> [Side2; 1] {
    [Side2 {
        column: 1,
        at,
        upper,
    }]
}

#[test]
fn leaves_show_bounds(rt: HostRuntime) -> Result<(), Fail> {
    let alloc = rt.alloc();
    let program = program(alloc)?;
    let mut sums: [i128; 2] = [7, 7];
    // Five times the entry's row gives column 1 its value, and 5 on the right.
    let leaf = one(alloc, 1, 1, 5)?;
    assert!(rt; shows_leaf(&program, &[], 5, &leaf, &mut sums));
    assert!(rt; !shows_leaf(&program, &[], 4, &leaf, &mut sums));
    // Ten times of it give twice the values.
    let halves = one(alloc, 2, 1, 10)?;
    assert!(rt; shows_leaf(&program, &[], 5, &halves, &mut sums));
    // Four times of it give too little.
    let little = one(alloc, 1, 1, 4)?;
    assert!(rt; !shows_leaf(&program, &[], 5, &little, &mut sums));
    // A denominator below 1, and a row that isn't there.
    let zero = one(alloc, 0, 1, 5)?;
    assert!(rt; !shows_leaf(&program, &[], 5, &zero, &mut sums));
    let absent = one(alloc, 1, 4, 5)?;
    assert!(rt; !shows_leaf(&program, &[], 5, &absent, &mut sums));
    Ok(())
}

#[test]
fn signs_and_sizes_count(rt: HostRuntime) -> Result<(), Fail> {
    let alloc = rt.alloc();
    let program = program(alloc)?;
    let mut sums: [i128; 2] = [0, 0];
    // Row 2 may be taken a negative number of times, row 3 not.
    let equal = two(alloc, false, times(1, 6), times(2, -1))?;
    assert!(rt; shows_leaf(&program, &[], 6, &equal, &mut sums));
    let negative = two(alloc, false, times(1, 5), times(3, -1))?;
    assert!(rt; !shows_leaf(&program, &[], 9, &negative, &mut sums));
    // A product, and a sum of the first parts, that don't fit.
    let product = two(alloc, false, times(1, 5), times(3, i128::MAX))?;
    assert!(rt; !shows_leaf(&program, &[], 9, &product, &mut sums));
    let partial = two(alloc, false, times(1, i128::MAX), times(2, 1))?;
    assert!(rt; !shows_leaf(&program, &[], 9, &partial, &mut sums));
    Ok(())
}

#[test]
fn leaves_show_that_there_are_no_counts(rt: HostRuntime) -> Result<(), Fail> {
    let alloc = rt.alloc();
    let program = program(alloc)?;
    let mut sums: [i128; 2] = [0, 0];
    // Where column 1 is at most 0, it isn't 1.
    let low = two(alloc, true, times(1, -1), times(4, 1))?;
    assert!(rt; shows_leaf(&program, &cut(0, true), 0, &low, &mut sums));
    assert!(rt; !shows_leaf(&program, &cut(1, true), 0, &low, &mut sums));
    // Where it is at least 2, it isn't 1.
    let high = two(alloc, true, times(1, 1), times(4, 1))?;
    assert!(rt; shows_leaf(&program, &cut(1, false), 0, &high, &mut sums));
    assert!(rt; !shows_leaf(&program, &cut(0, false), 0, &high, &mut sums));
    // A column that gets less than 0.
    let less = two(alloc, true, times(1, -2), times(4, 1))?;
    assert!(rt; !shows_leaf(&program, &cut(0, true), 0, &less, &mut sums));
    Ok(())
}

/// The rule that a leaf breaks first under cuts of the program.
fn fault_of(
    alloc: Global,
    cuts: &[Side2],
    bound: u64,
    leaf: &Leaf,
) -> Result<Option<LeafFault>, AllocError> {
    let program = program(alloc)?;
    let mut sums: [i128; 2] = [7, 7];
    Ok(leaf_fault(&program, cuts, bound, leaf, &mut sums))
}

/// The least bound that a leaf shows under cuts of the program.
fn least_of(alloc: Global, cuts: &[Side2], leaf: &Leaf) -> Result<Option<u64>, AllocError> {
    let program = program(alloc)?;
    let mut sums: [i128; 2] = [7, 7];
    Ok(least_bound(&program, cuts, leaf, &mut sums))
}

/// Whether a split is one of the program under cuts.
fn splits(alloc: Global, cuts: &[Side2], column: u32, at: u64) -> Result<bool, AllocError> {
    let program = program(alloc)?;
    Ok(is_split(&program, cuts, column, at))
}

#[test]
fn rules_of_the_tree_come_first(rt: HostRuntime) -> Result<(), Fail> {
    let alloc = rt.alloc();
    // Row 3 has <=, and row 4 is that of a cut. The sum of column 1 doesn't fit.
    let negative = two(alloc, false, times(1, 5), times(3, -1))?;
    assert_eq!(rt; fault_of(alloc, &[], 9, &negative)?, Some(LeafFault::Tree));
    let both = three(alloc, times(1, i128::MAX), times(2, 1), times(4, 1))?;
    assert_eq!(rt; fault_of(alloc, &[], 9, &both)?, Some(LeafFault::Tree));
    assert_eq!(rt;
        fault_of(alloc, &cut(9, true), 9, &both)?,
        Some(LeafFault::Wide)
    );
    let empty = two(alloc, true, times(1, -1), times(4, -1))?;
    assert_eq!(rt;
        fault_of(alloc, &cut(0, true), 0, &empty)?,
        Some(LeafFault::Tree)
    );
    Ok(())
}

#[test]
fn numbers_fit_before_they_show(rt: HostRuntime) -> Result<(), Fail> {
    let alloc = rt.alloc();
    // The first two parts of column 1 don't fit, all three would.
    let partial = three(alloc, times(1, i128::MAX), times(2, 1), times(3, 1))?;
    assert_eq!(rt; fault_of(alloc, &[], 9, &partial)?, Some(LeafFault::Wide));
    // Six times the denominator doesn't fit; five times it does, and is more than column 1 gets.
    let fifth = one(alloc, i128::MAX / 5, 1, 1)?;
    assert_eq!(rt; fault_of(alloc, &[], 5, &fifth)?, Some(LeafFault::Wide));
    assert_eq!(rt; fault_of(alloc, &[], 4, &fifth)?, Some(LeafFault::Dual));
    Ok(())
}

#[test]
fn bounds_are_the_least(rt: HostRuntime) -> Result<(), Fail> {
    let alloc = rt.alloc();
    // 11 halves are less than 6, and 12 are not.
    let eleven = one(alloc, 2, 1, 11)?;
    assert_eq!(rt; least_of(alloc, &[], &eleven)?, Some(5));
    let twelve = one(alloc, 2, 1, 12)?;
    assert_eq!(rt; least_of(alloc, &[], &twelve)?, Some(6));
    // The next number after those of 64 bits.
    let great = one(alloc, 1, 1, 18_446_744_073_709_551_616)?;
    assert_eq!(rt; least_of(alloc, &[], &great)?, None);
    // A right side of -1.
    let below = two(alloc, false, times(1, -1), times(4, 6))?;
    assert_eq!(rt; least_of(alloc, &cut(0, true), &below)?, Some(0));
    Ok(())
}

#[test]
fn splits_leave_no_part_empty(rt: HostRuntime) -> Result<(), Fail> {
    let alloc = rt.alloc();
    // The caps are 1.
    assert!(rt; splits(alloc, &[], 1, 0)?);
    assert!(rt; !splits(alloc, &[], 1, 1)?);
    assert!(rt; !splits(alloc, &cut(0, false), 1, 0)?);
    assert!(rt; splits(alloc, &cut(0, true), 2, 0)?);
    Ok(())
}

#[test]
fn counts_have_a_value(rt: HostRuntime) -> Result<(), Fail> {
    let alloc = rt.alloc();
    let program = program(alloc)?;
    let once = [
        Count {
            column: 1,
            number: 1,
        },
        Count {
            column: 2,
            number: 1,
        },
    ];
    assert!(rt; are_counts(&program, &once, 5));
    assert!(rt; !are_counts(&program, &once, 4));
    // A row with = is broken, then one with <= too, then a column isn't there.
    assert!(rt;
        !are_counts(
            &program,
            &[Count {
                column: 1,
                number: 1
            }],
            5
        )
    );
    assert!(rt; !are_counts(&program, &[], 0));
    assert!(rt;
        !are_counts(
            &program,
            &[Count {
                column: 3,
                number: 1
            }],
            0
        )
    );
    Ok(())
}
