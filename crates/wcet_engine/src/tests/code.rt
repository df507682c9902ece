//! Programs without calls and loops: bounds by hand, and the faults of their code.

use super::{RETURN, printed};
use std::test::Fail;

#[test]
fn bounds_programs_without_loops(rt: HostRuntime) -> Result<(), Fail> {
    let alloc = rt.alloc();
    // A plain instruction takes 11 cycles, a branch or jump with its slot 22, a load or store 10 more.
    let rows: [(&[u32], &str); 10] = [
        (&[RETURN, 0], "bound 22\n"),
        (&[0x2408_0005, 0, RETURN, 0x2508_0001], "bound 44\n"),
        (&[0x8FA8_0000, RETURN, 0], "bound 43\n"),
        (&[RETURN, 0xAFA8_FFFC], "bound 32\n"),
        // A branch whose slot is its target: the slot is done again on the one way.
        (&[0x1080_0000, 0x2508_0001, RETURN, 0], "bound 55\n"),
        // Three loads.
        (
            &[0x8FA8_0000, 0x8C89_0000, 0x8FAA_0000, RETURN, 0],
            "bound 85\n",
        ),
        // A branch with both ways to one place.
        (&[0x1080_0001, 0, RETURN, 0], "bound 44\n"),
        // A branch that is always taken goes past a BREAK, and one that never is past none.
        (&[0x1000_0002, 0, 0x0000_000D, RETURN, 0], "bound 44\n"),
        (&[0x1400_0003, 0, RETURN, 0, 0x0C10_0000, 0], "bound 44\n"),
        // What stands behind a return isn't reached.
        (&[RETURN, 0, 0x0C10_0000, 0xFFFF_FFFF], "bound 22\n"),
    ];
    for (words, line) in rows {
        assert!(rt; printed(alloc, words, &[])?.begins(line));
    }
    Ok(())
}

#[test]
fn bounds_a_chain_of_diamonds(rt: HostRuntime) -> Result<(), Fail> {
    let alloc = rt.alloc();
    // Twelve times a branch over one instruction: 22 cycles where it is taken, 33 where it isn't.
    let mut words = [0u32; 38];
    for level in 0..12 {
        words[3 * level] = 0x1080_0002;
    }
    words[36] = RETURN;
    assert!(rt; printed(alloc, &words, &[])?.begins("bound 418\nreached 418\n"));
    Ok(())
}

#[test]
fn refuses_faults_of_the_code(rt: HostRuntime) -> Result<(), Fail> {
    let alloc = rt.alloc();
    let rows: [(&[u32], &str); 12] = [
        (&[0xFFFF_FFFF], "refused unknown-word 00400000\n"),
        (&[RETURN], "refused unknown-word 00400004\n"),
        (&[], "refused unknown-word 00400000\n"),
        // Branches and jumps to addresses without code.
        (&[0x1000_8000, 0], "refused unknown-word 003E0004\n"),
        (&[0x0800_0000, 0], "refused unknown-word 00000000\n"),
        (&[RETURN, RETURN], "refused transfer-in-slot 00400004\n"),
        // The earlier kind is answered, though it stands at the greater address.
        (
            &[0x1080_0002, 0, RETURN, RETURN, 0xFFFF_FFFF],
            "refused unknown-word 00400010\n",
        ),
        (&[0x0000_000D], "refused never-returns 00400000\n"),
        (&[RETURN, 0x0000_000C], "refused never-returns 00400000\n"),
        // An indirect call with BREAK in its slot calls nothing, but needs a recorded target.
        (
            &[0x0100_F809, 0x0000_000D],
            "refused unknown-target 00400000\n",
        ),
        (
            &[0x8C00_0000, 0xFC00_0000],
            "refused unknown-word 00400004\n",
        ),
        (
            &[0x1080_FFFE, 0, RETURN, 0],
            "refused unknown-word 003FFFFC\n",
        ),
    ];
    for (words, line) in rows {
        assert!(rt; printed(alloc, words, &[])?.refuses(line));
    }
    Ok(())
}
