//! Programs with indirect jumps and calls: bounds by hand, and targets that aren't recorded.

use super::{BACK, COUNT, KEEP, RETURN, printed};
use std::test::Fail;

#[test]
fn bounds_recorded_targets(rt: HostRuntime) -> Result<(), Fail> {
    let alloc = rt.alloc();
    let rows: [(&[u32], &[[u32; 4]], &str); 2] = [
        // JALR with two recorded targets, the greater of which takes 33 cycles.
        (
            &[
                KEEP,
                0x0060_F809,
                0,
                BACK,
                RETURN,
                0,
                RETURN,
                0,
                COUNT,
                RETURN,
                0,
            ],
            &[
                [2, 0x0040_0004, 0x0040_0018, 0],
                [2, 0x0040_0004, 0x0040_0020, 0],
            ],
            "bound 99\nreached 99\n",
        ),
        // JR $3 with two recorded targets.
        (
            &[0x0060_0008, 0, RETURN, 0, COUNT, RETURN, 0],
            &[
                [2, 0x0040_0000, 0x0040_0008, 0],
                [2, 0x0040_0000, 0x0040_0010, 0],
            ],
            "bound 55\nreached 55\n",
        ),
    ];
    for (words, records, front) in rows {
        assert!(rt; printed(alloc, words, records)?.begins(front));
    }
    Ok(())
}

#[test]
fn bounds_loops_of_recorded_jumps(rt: HostRuntime) -> Result<(), Fail> {
    let alloc = rt.alloc();
    // Three turns of a branch and one of two inner loops, each of two turns over a jump to one of three recorded
    // targets. A turn of an inner loop takes 6 instructions, a turn of the outer one those and 6 more, and the return
    // 2: 56 instructions at 11.
    let words = [
        0x1080_000D,
        0,
        0x0100_0008,
        0,
        0x0810_000A,
        0,
        0x0810_000A,
        0,
        0x0810_000A,
        0,
        0x14C0_FFF7,
        0,
        0x0810_001A,
        0,
        0x0120_0008,
        0,
        0x0810_0016,
        0,
        0x0810_0016,
        0,
        0x0810_0016,
        0,
        0x14C0_FFF7,
        0,
        0x0810_001A,
        0,
        0x14E0_FFE5,
        0,
        RETURN,
        0,
    ];
    let loops = [
        [1, 0x0040_0000, 3, 0],
        [1, 0x0040_0008, 2, 0],
        [1, 0x0040_0038, 2, 0],
    ];
    let records = [
        loops[0],
        loops[1],
        loops[2],
        [2, 0x0040_0008, 0x0040_0010, 0],
        [2, 0x0040_0008, 0x0040_0018, 0],
        [2, 0x0040_0008, 0x0040_0020, 0],
        [2, 0x0040_0038, 0x0040_0040, 0],
        [2, 0x0040_0038, 0x0040_0048, 0],
        [2, 0x0040_0038, 0x0040_0050, 0],
    ];
    assert!(rt; printed(alloc, &words, &records)?.begins("bound 616\nreached 616\n"));
    // Without the targets the first of the jumps is refused.
    assert!(rt; printed(alloc, &words, &loops)?.refuses("refused unknown-target 00400008\n"));
    Ok(())
}

#[test]
fn refuses_indirect_jumps(rt: HostRuntime) -> Result<(), Fail> {
    let alloc = rt.alloc();
    let rows: [(&[u32], &[[u32; 4]], &str); 5] = [
        // JALR that links to register 2, with and without a recorded target.
        (
            &[0x0060_1009, 0, RETURN, 0],
            &[[2, 0x0040_0000, 0x0040_0008, 0]],
            "refused link-register 00400000\n",
        ),
        (
            &[0x0060_1009, 0, RETURN, 0],
            &[],
            "refused unknown-target 00400000\n",
        ),
        // JR and JALR without a recorded target.
        (
            &[0, 0x0100_0008, 0],
            &[],
            "refused unknown-target 00400004\n",
        ),
        (
            &[0, 0x0100_F809, 0],
            &[],
            "refused unknown-target 00400004\n",
        ),
        // The earlier kind is answered, though it stands at the greater address.
        (
            &[0x1080_0003, 0, 0x0060_1009, 0, 0x0060_0008, 0],
            &[[2, 0x0040_0008, 0x0040_0010, 0]],
            "refused unknown-target 00400010\n",
        ),
    ];
    for (words, records, line) in rows {
        assert!(rt; printed(alloc, words, records)?.refuses(line));
    }
    Ok(())
}
