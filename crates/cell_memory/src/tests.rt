//! Loads, stores, joins and widening worked by hand.

ghost use Rattle.mips_decode.specs.Memory.{IsSize};

use crate::{Cells, Stretch};
use domain_laws::{Lattice, Widen};
use std::alloc::{AllocError, Global};
use std::test::Fail;
use value_domain::Strided;

const DATA: [Stretch; 1] = [Stretch {
    first: 0x1000,
    last: 0x1fff,
}];

/// Words 7 and 9 at the addresses 1000 and 1008.
fn seven_and_nine(alloc: Global) -> Result<Cells, AllocError> {
    let mut cells = Cells::none(alloc);
    cells.store(&DATA, &Strided::one(0x1000), 4, &Strided::one(7))?;
    cells.store(&DATA, &Strided::one(0x1008), 4, &Strided::one(9))?;
    Ok(cells)
}

/// What is known of the words at the addresses 1000 and 1008.
fn both(cells: &Cells) -> (Strided, Strided) {
    (
        cells.load(&Strided::one(0x1000)),
        cells.load(&Strided::one(0x1008)),
    )
}

#[test]
fn words_are_loaded_as_they_were_stored(rt: HostRuntime) -> Result<(), Fail> {
    let cells = seven_and_nine(rt.alloc())?;
    assert_eq!(rt; both(&cells), (Strided::one(7), Strided::one(9)));
    assert_eq!(rt;
        cells.load(&Strided::between(0x1000, 0x1008)),
        Strided::all()
    );
    assert_eq!(rt; cells.load(&Strided::one(0x1002)), Strided::all());
    Ok(())
}

#[test]
fn stores_forget_what_they_may_overlap(rt: HostRuntime) -> Result<(), Fail> {
    let mut cells = seven_and_nine(rt.alloc())?;
    // One of the words at 1004 and 100c.
    let beside = Strided::three(
        mips_decode::Op3::Addu,
        &Strided::one(0x1004),
        &Strided::shift(mips_decode::ShiftOp::Sll, &Strided::between(0, 1), 3),
    );
    cells.store(&DATA, &beside, 4, &Strided::one(1))?;
    assert_eq!(rt; both(&cells), (Strided::one(7), Strided::one(9)));
    // A byte of the first word.
    cells.store(&DATA, &Strided::one(0x1003), 1, &Strided::one(1))?;
    assert_eq!(rt; both(&cells), (Strided::all(), Strided::one(9)));
    // A store anywhere in other memory, and one anywhere in this.
    let other = [Stretch {
        first: 0x2000,
        last: 0x2fff,
    }];
    cells.store(&other, &Strided::all(), 4, &Strided::one(1))?;
    assert_eq!(rt; both(&cells), (Strided::all(), Strided::one(9)));
    cells.store(&DATA, &Strided::all(), 4, &Strided::one(1))?;
    assert_eq!(rt; both(&cells), (Strided::all(), Strided::all()));
    Ok(())
}

/// The join of copies of two values, and whether the first one grew.
fn joined(first: &Cells, second: &Cells) -> Result<(Cells, bool), AllocError> {
    let _shape = (first.load(&Strided::all()), second.load(&Strided::all()));
    let mut cells = first.copy()?;
    let grew = cells.join(second)?;
    Ok((cells, grew))
}

/// The first value widened by the second, and whether it grew.
fn widened(first: &Cells, second: &Cells) -> Result<(Cells, bool), AllocError> {
    let _shape = (first.load(&Strided::all()), second.load(&Strided::all()));
    let mut cells = first.copy()?;
    let grew = cells.widen(second)?;
    Ok((cells, grew))
}

#[test]
fn joins_keep_the_words_that_both_know(rt: HostRuntime) -> Result<(), Fail> {
    let old = seven_and_nine(rt.alloc())?;
    let mut new = Cells::none(rt.alloc());
    new.store(&DATA, &Strided::one(0x1008), 4, &Strided::one(11))?;
    let (join, grew) = joined(&old, &new)?;
    let values = both(&join);
    assert_eq!(rt;
        (values.0, values.1.lo(), values.1.hi(), grew),
        (Strided::all(), 9, 11, true)
    );
    let (wider, _) = widened(&new, &join)?;
    let value = wider.load(&Strided::one(0x1008));
    assert_eq!(rt; (value.lo(), value.hi(), value.step()), (1, 11, 2));
    assert!(rt; wider.leq(&Cells::none(rt.alloc())));
    Ok(())
}
