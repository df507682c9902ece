//! Small programs run whole, with their cycles and tallies worked out by hand, and one run for each rule that is
//! broken.

ghost use Rattle.std.specs.Prelude.{◌<◌, ◌^◌, IfOk, length};
ghost use Rattle.flow_net.specs.Nested.{IsNested};
ghost use Rattle.net_model.specs.Net.{HasUnits, IsNet};

use crate::{BrokenKind, RunReport, Stop, Verdict, run_image};
use cache_config::read_profile;
use call_contexts::expand;
use elf_mips::{Image, read_image};
use flow_net::Net;
use loop_nest::find_loops;
use mips_machine::{Tally, TrapKind, clash_place};
use std::alloc::{AllocError, Global};
use std::test::Fail;
use unit_graph::function_graphs;

/// Where the code begins.
const START: u32 = 0x0040_0000;

/// A record: its kind, its address, x and y.
type Record = (u32, u32, u32, u32);

fn push_words(file: &mut Vec<u8>, words: &[u32]) -> Result<(), AllocError> {
    for word in words {
        file.extend_from_slice(&word.to_be_bytes())?;
    }
    Ok(())
}

/// A big-endian MIPS I executable of these words, with these records.
fn file_of(alloc: Global, words: &[u32], records: &[Record]) -> Result<Vec<u8>, Fail> {
    if words.len() > 1000 || records.len() > 100 {
        return Err("a large file".into());
    }
    let size = 4 * words.len() as u32;
    let marks = 16 * records.len() as u32;
    let sections = size + marks + 101;
    let mut file = Vec::new(alloc);
    push_words(
        &mut file,
        &[0x7F45_4C46, 0x0102_0100, 0, 0, 0x0002_0008, 1, START, 52],
    )?;
    push_words(
        &mut file,
        &[sections, 0, 0x0034_0020, 0x0001_0028, 0x0003_0002],
    )?;
    push_words(&mut file, &[1, 84, START, START, size, size, 5, 4])?;
    push_words(&mut file, words)?;
    for (kind, address, x, y) in records {
        push_words(&mut file, &[*kind, *address, *x, *y])?;
    }
    file.extend_from_slice(b"\0.wcet\0.shstrtab\0")?;
    push_words(&mut file, &[0; 10])?;
    push_words(&mut file, &[1, 1, 0, 0, size + 84, marks, 0, 0, 0, 0])?;
    push_words(&mut file, &[7, 3, 0, 0, size + marks + 84, 17, 0, 0, 0, 0])?;
    Ok(file)
}

/// The image of these words, with these records.
fn image_of(alloc: Global, words: &[u32], records: &[Record]) -> Result<Image, Fail> {
    let file = file_of(alloc, words, records)?;
    if file.len() > 1_000_000 {
        return Err("a long file".into());
    }
    Ok(read_image(alloc, &file)?)
}

/// The net of an image from the start on.
fn net_of(alloc: Global, image: &Image) -> Result<Net, Fail>
    ensures net { IfOk result (IsNet image.now START) }
    ensures nested { IfOk result IsNested }
    ensures units { IfOk result (HasUnits image.now) }
    ensures few { IfOk result (λ net. length net.places < 2 ^ 32 × length net.arcs < 2 ^ 32) }
{
    let Ok(graphs) = function_graphs(alloc, image, START) else {
        return Err("a fault of the code".into());
    };
    let Ok(nests) = find_loops(alloc, &graphs, image) else {
        return Err("a fault of the loops".into());
    };
    match expand(alloc, &graphs, &nests) {
        Ok(net) => Ok(net),
        Err(_) => Err("no net".into()),
    }
}

/// The run of these words, with these records, under the profile of a text.
fn run_of(
    alloc: Global,
    words: &[u32],
    records: &[Record],
    profile: &str,
) -> Result<RunReport, Fail> {
    let Ok(profile) = read_profile(alloc, profile.as_bytes()) else {
        return Err("a profile with a fault".into());
    };
    let image = image_of(alloc, words, records)?;
    if let Some(_) = clash_place(&image, &profile) {
        return Err("a clash".into());
    }
    let net = net_of(alloc, &image)?;
    Ok(run_image(alloc, &net, &image, &profile, START)?)
}

/// Five turns of a loop: `addiu $8, $0, 5`, then `addiu $8, $8, -1`, `bne $8, $0` back and `nop`, then `jr $31` and
/// `nop`.
const LOOP: [u32; 6] = [0x2408_0005, 0x2508_FFFF, 0x1500_FFFE, 0, 0x03E0_0008, 0];

const FIVE_TURNS: [Record; 1] = [(1, 0x0040_0004, 5, 0)];

fn broken(kind: BrokenKind, address: u32) -> Verdict {
    Verdict::Broken { kind, address }
}

#[test]
fn loop_misses_its_two_lines_once(rt: HostRuntime) -> Result<(), Fail> {
    let profile = "[[cache]]\nserves = 'fetch'\nsets = 4\nways = 2\nline = 16\nlatency = 1\n";
    let run = run_of(rt.alloc(), &LOOP, &FIVE_TURNS, profile)?;
    // 18 fetches of 1 cycle, two of which go on to memory for 10, and 18 classes of 1.
    assert_eq!(rt; (run.stop, run.cycles, run.steps), (Stop::Returned, 56, 12));
    let tally = Tally {
        hits: 16,
        misses: 2,
    };
    assert_eq!(rt; run.caches.as_slice(), [tally].as_slice());
    assert_eq!(rt; run.verdict, Verdict::Kept);
    Ok(())
}

#[test]
fn loop_turns_too_often(rt: HostRuntime) -> Result<(), Fail> {
    let run = run_of(rt.alloc(), &LOOP, &[(1, 0x0040_0004, 4, 0)], "")?;
    assert_eq!(rt;
        (run.stop, run.cycles, run.steps),
        (Stop::Returned, 198, 12)
    );
    assert_eq!(rt; run.verdict, broken(BrokenKind::Loop, 0x0040_0004));
    Ok(())
}

#[test]
fn stops_behind_its_number_of_units(rt: HostRuntime) -> Result<(), Fail> {
    // The four units cost 11, 11, 22 and 11; the fifth is the branch again.
    let four = run_of(rt.alloc(), &LOOP, &FIVE_TURNS, "steps = 4\n")?;
    assert_eq!(rt; (four.stop, four.cycles, four.steps), (Stop::Steps, 55, 4));
    assert_eq!(rt; four.verdict, Verdict::Kept);
    let five = run_of(rt.alloc(), &LOOP, &FIVE_TURNS, "steps = 5\n")?;
    assert_eq!(rt; (five.stop, five.cycles, five.steps), (Stop::Steps, 77, 5));
    assert_eq!(rt; five.verdict, Verdict::Kept);
    // Behind three units the loop's header comes for the second time, which a bound of 1 forbids: it isn't visited yet.
    let three = run_of(rt.alloc(), &LOOP, &[(1, 0x0040_0004, 1, 0)], "steps = 3\n")?;
    assert_eq!(rt; (three.stop, three.verdict), (Stop::Steps, Verdict::Kept));
    let next = run_of(rt.alloc(), &LOOP, &[(1, 0x0040_0004, 1, 0)], "steps = 4\n")?;
    assert_eq!(rt;
        (next.stop, next.verdict),
        (Stop::Steps, broken(BrokenKind::Loop, 0x0040_0004))
    );
    Ok(())
}

#[test]
fn traps_at_a_break(rt: HostRuntime) -> Result<(), Fail> {
    // A division by zero with its `break 7`, and a call that never returns as the last unit.
    let words = [
        0x0085_001A,
        0x14A0_0002,
        0,
        0x0007_000D,
        0x1080_0003,
        0,
        0x03E0_0008,
        0x0000_1012,
        0x0C10_000A,
        0,
        0x0000_000D,
    ];
    let run = run_of(rt.alloc(), &words, &[], "")?;
    let trap = Stop::Trap {
        kind: TrapKind::Break,
        address: 0x0040_000C,
    };
    assert_eq!(rt; (run.stop, run.cycles, run.steps), (trap, 33, 2));
    assert_eq!(rt; run.verdict, Verdict::Kept);
    Ok(())
}

#[test]
fn calls_a_loop_over_a_table(rt: HostRuntime) -> Result<(), Fail> {
    // A caller with a frame of 32 bytes, and a function that adds up the four words at 00400080.
    let words = [
        0x27BD_FFE0,
        0xAFBF_001C,
        0xAFBE_0018,
        0x03A0_F021,
        0xAFC4_0020,
        0x3C04_0040,
        0x0C10_0010,
        0x2484_0080,
        0x8FC4_0020,
        0x0044_1021,
        0x03C0_E821,
        0x8FBF_001C,
        0x8FBE_0018,
        0x03E0_0008,
        0x27BD_0020,
        0,
        0x0000_1021,
        0x2485_0010,
        0x8C83_0000,
        0x2484_0004,
        0x0043_1021,
        0x1485_FFFC,
        0,
        0x03E0_0008,
        0,
        0,
        0,
        0,
        0,
        0,
        0,
        0,
        1,
        2,
        3,
        4,
    ];
    let turns = (1, 0x0040_0048, 4, 0);
    let run = run_of(rt.alloc(), &words, &[turns], "")?;
    assert_eq!(rt;
        (run.stop, run.cycles, run.steps),
        (Stop::Returned, 529, 32)
    );
    assert_eq!(rt; run.verdict, Verdict::Kept);
    // The load in the loop reads all four words. A range that ends a byte before the last one's end is left in the last
    // turn.
    let whole = (3, 0x0040_0048, 0x0040_0080, 0x0040_0090);
    let run = run_of(rt.alloc(), &words, &[turns, whole], "")?;
    assert_eq!(rt; run.verdict, Verdict::Kept);
    let short = (3, 0x0040_0048, 0x0040_0080, 0x0040_008F);
    let run = run_of(rt.alloc(), &words, &[turns, whole, short], "")?;
    assert_eq!(rt; (run.stop, run.cycles), (Stop::Returned, 529));
    assert_eq!(rt; run.verdict, broken(BrokenKind::Range, 0x0040_0048));
    Ok(())
}

#[test]
fn goes_elsewhere(rt: HostRuntime) -> Result<(), Fail> {
    // `addiu $8, $0, 0x10`, `lui $9, 0x40`, `addu $8, $8, $9`, `jr $8`, `nop`, and twice `jr $31`, `nop`: the jump
    // goes to 00400010, its own slot.
    let jump = [
        0x2408_0010,
        0x3C09_0040,
        0x0109_4021,
        0x0100_0008,
        0,
        0x03E0_0008,
        0,
    ];
    let run = run_of(rt.alloc(), &jump, &[(2, 0x0040_000C, 0x0040_0014, 0)], "")?;
    assert_eq!(rt; (run.stop, run.steps), (Stop::Returned, 6));
    assert_eq!(rt; run.verdict, broken(BrokenKind::Target, 0x0040_000C));
    let run = run_of(rt.alloc(), &jump, &[(2, 0x0040_000C, 0x0040_0010, 0)], "")?;
    assert_eq!(rt; run.verdict, Verdict::Kept);
    // `jal 00400018`, and there `addiu $31, $31, 4` and `jr $31`: it returns a word too far, into the middle of the two
    // instructions that put FFFFFFF0 into register 31.
    let aside = [
        0x0C10_0006,
        0,
        0x3C1F_FFFF,
        0x37FF_FFF0,
        0x03E0_0008,
        0,
        0x27FF_0004,
        0x03E0_0008,
        0,
    ];
    let run = run_of(rt.alloc(), &aside, &[], "")?;
    assert_eq!(rt; run.verdict, broken(BrokenKind::Return, 0x0040_001C));
    Ok(())
}
