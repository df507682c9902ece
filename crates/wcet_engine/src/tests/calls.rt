//! Programs with calls: bounds by hand, and the faults that calls bring.

use super::{BACK, COUNT, KEEP, REPEAT, RETURN, printed};
use std::test::Fail;

#[test]
fn bounds_calls_without_loops(rt: HostRuntime) -> Result<(), Fail> {
    let alloc = rt.alloc();
    // A plain instruction takes 11 cycles, a branch, jump or call with its slot 22.
    let rows: [(&[u32], &[[u32; 4]], &str); 7] = [
        // A division with its BREAK, and a call of a function that never returns: 11 and three times 22.
        (
            &[
                0x0085_001A,
                0x14A0_0002,
                0,
                0x0007_000D,
                0x1080_0003,
                0,
                RETURN,
                0x0000_1012,
                0x0C10_000A,
                0,
                0x0000_000D,
            ],
            &[],
            "bound 77\nreached 77\n",
        ),
        // The called function jumps to another one, which returns to the caller.
        (
            &[
                KEEP,
                0x0C10_0006,
                0,
                BACK,
                RETURN,
                0,
                COUNT,
                0x0810_0009,
                0,
                RETURN,
                0,
            ],
            &[],
            "bound 121\nreached 121\n",
        ),
        // BLTZAL $4: taken 99, not taken 66.
        (
            &[KEEP, 0x0490_0004, 0, BACK, RETURN, 0, COUNT, RETURN, 0],
            &[],
            "bound 99\nreached 99\n",
        ),
        // BLTZAL $0 is never taken, and its target isn't reached. BGEZAL $0 always is.
        (
            &[KEEP, 0x0410_0004, 0, BACK, RETURN, 0, 0xFFFF_FFFF],
            &[],
            "bound 66\nreached 66\n",
        ),
        (
            &[KEEP, 0x0411_0004, 0, BACK, RETURN, 0, COUNT, RETURN, 0],
            &[],
            "bound 99\nreached 99\n",
        ),
        // BGEZAL $4 to the word behind its slot: that unit is done as a function, and once more.
        (&[0x0491_0001, 0, RETURN, 0], &[], "bound 66\nreached 66\n"),
        // One function is called twice in a row: it has a context for each call.
        (
            &[
                KEEP,
                0x0C10_0008,
                0,
                0x0C10_0008,
                0,
                BACK,
                RETURN,
                0,
                COUNT,
                RETURN,
                0,
            ],
            &[],
            "bound 154\nreached 154\n",
        ),
    ];
    for (words, records, front) in rows {
        assert!(rt; printed(alloc, words, records)?.begins(front));
    }
    Ok(())
}

#[test]
fn bounds_a_callee_that_begins_with_its_loop(rt: HostRuntime) -> Result<(), Fail> {
    let alloc = rt.alloc();
    // A loop of two turns calls the function at 28, whose entry is the header of a loop of three turns: 99 and 22
    // cycles. A turn takes 22, 121 and 33; before the loop there are 22, behind it 33.
    let words = [
        KEEP,
        0x2410_0002,
        0x0C10_000A,
        0,
        0x2610_FFFF,
        0x1600_FFFC,
        0,
        BACK,
        RETURN,
        0,
        COUNT,
        REPEAT,
        0,
        RETURN,
        0,
    ];
    let records = [[1, 0x0040_0008, 2, 0], [1, 0x0040_0028, 3, 0]];
    assert!(rt; printed(alloc, &words, &records)?.begins("bound 407\nreached 407\n"));
    Ok(())
}

#[test]
fn bounds_a_function_called_from_two_loops(rt: HostRuntime) -> Result<(), Fail> {
    let alloc = rt.alloc();
    // The function at 38 takes four turns of 33 cycles, and 22. A turn of either loop takes 22, those 154, and 33: two
    // turns of the first one, three of the second one. Before them there are 11, behind them 33.
    let words = [
        KEEP,
        0x0C10_000E,
        0,
        0x2610_FFFF,
        0x1600_FFFC,
        0,
        0x0C10_000E,
        0,
        0x2610_FFFF,
        0x1600_FFFC,
        0,
        BACK,
        RETURN,
        0,
        COUNT,
        REPEAT,
        0,
        RETURN,
        0,
    ];
    let records = [
        [1, 0x0040_0004, 2, 0],
        [1, 0x0040_0018, 3, 0],
        [1, 0x0040_0038, 4, 0],
    ];
    assert!(rt; printed(alloc, &words, &records)?.begins("bound 1089\nreached 1089\n"));
    Ok(())
}

#[test]
fn bounds_a_call_with_a_frame(rt: HostRuntime) -> Result<(), Fail> {
    let alloc = rt.alloc();
    // A frame with a saved frame pointer and an argument kept in the caller's area; the called function adds the four
    // words of a table. 15 instructions at 11, three stores and three loads at 10 more, 22, four turns of 65, and 22.
    let words = [
        0x27BD_FFE0,
        0xAFBF_001C,
        0xAFBE_0018,
        0x03A0_F021,
        0xAFC4_0020,
        0x3C04_0040,
        0x0C10_0010,
        0x2484_0080,
        0x8FC4_0020,
        0x0044_1021,
        0x03C0_E821,
        0x8FBF_001C,
        0x8FBE_0018,
        RETURN,
        0x27BD_0020,
        0,
        0x0000_1021,
        0x2485_0010,
        0x8C83_0000,
        0x2484_0004,
        0x0043_1021,
        0x1485_FFFC,
        0,
        RETURN,
        0,
        0,
        0,
        0,
        0,
        0,
        0,
        0,
        1,
        2,
        3,
        4,
    ];
    assert!(rt;
        printed(alloc, &words, &[[1, 0x0040_0048, 4, 0]])?.begins("bound 529\nreached 529\n")
    );
    Ok(())
}

#[test]
fn refuses_calls(rt: HostRuntime) -> Result<(), Fail> {
    let alloc = rt.alloc();
    let rows: [(&[u32], &[[u32; 4]], &str); 8] = [
        // A function that calls itself; two that call each other, of which the lesser one is told.
        (
            &[0x0C10_0000, 0, RETURN, 0],
            &[],
            "refused recursion 00400000\n",
        ),
        (
            &[
                0x0C10_0004,
                0,
                RETURN,
                0,
                0x0C10_0008,
                0,
                RETURN,
                0,
                0x0C10_0004,
                0,
                RETURN,
                0,
            ],
            &[],
            "refused recursion 00400010\n",
        ),
        // The earlier kind is answered, though it stands at the greater address.
        (
            &[0x1080_0003, 0, 0x0100_0008, 0, 0x0C10_0000, 0],
            &[],
            "refused unknown-target 00400008\n",
        ),
        (
            &[0x1080_0003, 0, 0x0100_0008, 0, 0x0C10_0006, 0, 0xFFFF_FFFF],
            &[],
            "refused unknown-word 00400018\n",
        ),
        // A loop without a bound before a call of the entry.
        (
            &[0x2408_0005, COUNT, REPEAT, 0, 0x0C10_0000, 0],
            &[],
            "refused recursion 00400000\n",
        ),
        // A loop without a bound in a called function.
        (
            &[
                KEEP,
                0x0C10_0006,
                0,
                BACK,
                RETURN,
                0,
                COUNT,
                REPEAT,
                0,
                RETURN,
                0,
            ],
            &[],
            "refused no-bound 00400018\n",
        ),
        // Behind a call of a function that never returns nothing is reached.
        (
            &[0x0C10_0004, 0, RETURN, 0, 0x0000_000D],
            &[],
            "refused never-returns 00400000\n",
        ),
        // A call whose slot is a BREAK calls nothing.
        (
            &[0x0C10_0004, 0x0000_000D, RETURN, 0, 0xFFFF_FFFF],
            &[],
            "refused never-returns 00400000\n",
        ),
    ];
    for (words, records, line) in rows {
        assert!(rt; printed(alloc, words, records)?.refuses(line));
    }
    Ok(())
}
