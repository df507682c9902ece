//! Programs with loops: bounds and counts by hand, and the faults of loops.

use super::{COUNT, COUNTED, RETURN, printed};
use std::test::Fail;

#[test]
fn bounds_a_counted_loop(rt: HostRuntime) -> Result<(), Fail> {
    let alloc = rt.alloc();
    // A plain unit costs 11 cycles, one with a slot 22: 11, then 33 for each turn, then 22. The arcs are those from 0
    // to the start, from there to the header, to the branch, back, on to the return, and to 0. Row 1 has the bound for
    // its multiplier; those of the other rows may be others.
    let rows: [(u32, &str); 3] = [
        (
            5,
            "bound 198\nreached 198\nvalue 1 1\nvalue 2 1\nvalue 3 5\nvalue 4 4\nvalue 5 1\nvalue 6 1\nleaf 1 1:198 ",
        ),
        (
            4,
            "bound 165\nreached 165\nvalue 1 1\nvalue 2 1\nvalue 3 4\nvalue 4 3\nvalue 5 1\nvalue 6 1\nleaf 1 1:165 ",
        ),
        // The back arc isn't taken.
        (
            1,
            "bound 66\nreached 66\nvalue 1 1\nvalue 2 1\nvalue 3 1\nvalue 5 1\nvalue 6 1\nleaf 1 1:66 ",
        ),
    ];
    for (bound, front) in rows {
        let got = printed(alloc, &COUNTED, &[[1, 0x0040_0004, bound, 0]])?;
        assert!(rt; got.begins(front));
        assert!(rt; got.text.as_slice().ends_with(b"\nend\n".as_slice()));
    }
    // Of several records that name the loop the least one holds; one at its slot names it too.
    let records = [
        [1, 0x0040_0004, 9, 0],
        [1, 0x0040_0008, 5, 0],
        [1, 0x0040_000C, 7, 0],
    ];
    assert!(rt; printed(alloc, &COUNTED, &records)?.begins("bound 198\n"));
    Ok(())
}

/// Three loops inside one another, whose headers are the first three units.
const NESTED: [u32; 11] = [
    0,
    0,
    0,
    0x1480_FFFE,
    0,
    0x1480_FFFB,
    0,
    0x1480_FFF8,
    0,
    RETURN,
    0,
];

#[test]
fn bounds_nested_loops(rt: HostRuntime) -> Result<(), Fail> {
    let alloc = rt.alloc();
    // The inner loop takes 4 turns of 33 cycles, the middle one 3 of 33 and those, the outer one 2 of 33 and those.
    let records = [
        [1, 0x0040_0000, 2, 0],
        [1, 0x0040_0004, 3, 0],
        [1, 0x0040_0008, 4, 0],
    ];
    let front =
        "bound 1078\nreached 1078\nvalue 1 1\nvalue 2 2\nvalue 3 6\nvalue 4 24\nvalue 5 18\n";
    assert!(rt; printed(alloc, &NESTED, &records)?.begins(front));
    Ok(())
}

/// The greatest bound of a loop.
const MOST: u32 = 0xFFFF_FFFF;

#[test]
fn refuses_faults_of_loops(rt: HostRuntime) -> Result<(), Fail> {
    let alloc = rt.alloc();
    // A branch into the middle of a loop.
    let crossed = [0x1080_0003, 0, COUNT, 0, 0x1500_FFFD, 0, RETURN, 0];
    // A loop that nothing leaves.
    let endless = [0x1000_FFFF, 0];
    let nest = [
        [1, 0x0040_0000, MOST, 0],
        [1, 0x0040_0004, MOST, 0],
        [1, 0x0040_0008, MOST, 0],
    ];
    let rows: [(&[u32], &[[u32; 4]], &str); 7] = [
        (
            &crossed,
            &[[1, 0x0040_0008, 4, 0]],
            "refused irreducible 00400008\n",
        ),
        // A record at the start names no loop.
        (
            &COUNTED,
            &[[1, 0x0040_0000, 5, 0]],
            "refused no-bound 00400004\n",
        ),
        (
            &COUNTED,
            &[[1, 0x0040_0004, 0, 0]],
            "refused bad-record 0000006C\n",
        ),
        // The middle loop has no bound, and the inner one has none.
        (
            &NESTED,
            &[[1, 0x0040_0000, 2, 0]],
            "refused no-bound 00400004\n",
        ),
        (
            &endless,
            &[[1, 0x0040_0004, 2, 0]],
            "refused never-returns 00400000\n",
        ),
        // A loop without a bound is answered before the missing return.
        (&endless, &[], "refused no-bound 00400000\n"),
        (&NESTED, &nest, "refused bound-too-large 00400000\n"),
    ];
    for (words, records, line) in rows {
        assert!(rt; printed(alloc, words, records)?.refuses(line));
    }
    Ok(())
}
