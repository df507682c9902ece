//! Small programs run whole, each kind of trap, the edges of memory, and what is put into it.

use crate::{Fill, Machine, Outcome, Regs, Touched, TrapKind, are_fillable, clash_place};
use cache_config::Profile;
use elf_mips::{Image, read_image};
use lru_concrete::Caches;
use mips_decode::Reg;
use std::alloc::{AllocError, Global};
use std::test::Fail;
use wcet_io::List;

/// Where the one segment begins, and its entry.
const ENTRY: u32 = 0x0040_0000;

/// A big-endian MIPS I executable with one program header, behind which the words stand.
const HEADER: [u32; 17] = [
    0x7F45_4C46,
    0x0102_0100,
    0,
    0,
    0x0002_0008,
    1,
    ENTRY,
    52,
    0,
    0,
    0x0034_0020,
    0x0001_0028,
    0,
    1,
    84,
    ENTRY,
    ENTRY,
];

/// An executable whose one segment, of flags 5, has these words and two bytes more.
fn file_of(alloc: Global, words: &[u32]) -> Result<Vec<u8>, Fail> {
    let size = u32::try_from(words.len())?.wrapping_mul(4);
    let mut file = Vec::new(alloc);
    push_words(&mut file, &HEADER)?;
    push_words(&mut file, &[size, size.wrapping_add(2), 5, 4])?;
    push_words(&mut file, words)?;
    Ok(file)
}

fn push_words(file: &mut Vec<u8>, words: &[u32]) -> Result<(), AllocError> {
    for word in words {
        file.extend_from_slice(&word.to_be_bytes())?;
    }
    Ok(())
}

fn image_of(alloc: Global, words: &[u32]) -> Result<Image, Fail> {
    let file = file_of(alloc, words)?;
    if file.len() > 1000 {
        return Err("a long file".into());
    }
    Ok(read_image(alloc, &file)?)
}

/// Bytes that are put into memory from an address on.
fn fill_of(alloc: Global, address: u32, bytes: &[u8]) -> Result<Fill, AllocError> {
    let bytes = Vec::from_slice(alloc, bytes)?;
    Ok(Fill {
        address,
        bytes: List::from_vec(bytes),
    })
}

/// The machine before the first of the words, with zero registers, the plain profile and these fills.
fn machine_with(alloc: Global, words: &[u32], fills: &[Fill]) -> Result<Machine, Fail> {
    machine_under(alloc, words, &Profile::plain(alloc), fills)
}

/// The same under a profile, whose caches hold nothing yet.
pub(crate) fn machine_under(
    alloc: Global,
    words: &[u32],
    profile: &Profile,
    fills: &[Fill],
) -> Result<Machine, Fail> {
    let image = image_of(alloc, words)?;
    if let Some(_) = clash_place(&image, profile) {
        return Err("a clash".into());
    }
    if !are_fillable(&image, profile, fills) {
        return Err("a fill without its place".into());
    }
    let zero = Regs {
        general: [0; 32],
        hi: 0,
        lo: 0,
    };
    let caches = Caches::empty(alloc, profile.levels.as_slice(), profile.memory)?;
    Ok(Machine::start(alloc, &image, profile, ENTRY, &zero, fills, caches)?)
}

/// The same with nothing put into memory.
fn machine_of(alloc: Global, words: &[u32]) -> Result<Machine, Fail> {
    machine_with(alloc, words, &[])
}

/// Does units until the entry returns, a unit traps, or so many are done.
pub(crate) fn run_until(machine: &mut Machine, units: u64) -> Outcome {
    for _ in 0..units {
        if machine.cycles() >= 1 << 62 {
            return Outcome::Going;
        }
        let outcome = machine.step();
        if outcome != Outcome::Going {
            return outcome;
        }
    }
    Outcome::Going
}

/// The numbers of all registers.
fn numbers(machine: &Machine) -> [u32; 32] {
    let mut numbers = [0; 32];
    for (number, place) in numbers.iter_mut().enumerate() {
        *place = machine.reg(Reg::low(number as u32));
    }
    numbers
}

#[test]
fn runs_a_loop_over_words_to_its_return(rt: HostRuntime) -> Result<(), Fail> {
    // A caller with a frame of 32 bytes, and a function that adds up the four words at 00400080.
    let words = [
        0x27BD_FFE0,
        0xAFBF_001C,
        0xAFBE_0018,
        0x03A0_F021,
        0xAFC4_0020,
        0x3C04_0040,
        0x0C10_0010,
        0x2484_0080,
        0x8FC4_0020,
        0x0044_1021,
        0x03C0_E821,
        0x8FBF_001C,
        0x8FBE_0018,
        0x03E0_0008,
        0x27BD_0020,
        0,
        0x0000_1021,
        0x2485_0010,
        0x8C83_0000,
        0x2484_0004,
        0x0043_1021,
        0x1485_FFFC,
        0,
        0x03E0_0008,
        0,
        0,
        0,
        0,
        0,
        0,
        0,
        0,
        1,
        2,
        3,
        4,
    ];
    let mut machine = machine_of(rt.alloc(), &words)?;
    assert_eq!(rt; run_until(&mut machine, 31), Outcome::Going);
    assert_eq!(rt; run_until(&mut machine, 1), Outcome::Returned);
    assert_eq!(rt; (machine.cycles(), machine.reg(Reg::low(2))), (529, 10));
    assert_eq!(rt; (machine.pc(), machine.last_data()), (0xFFFF_FFF0, None));
    Ok(())
}

#[test]
fn traps_leave_all_as_it_was(rt: HostRuntime) -> Result<(), Fail> {
    // The words, the units before the trap, its kind and its address.
    let rows: [(&[u32], u64, TrapKind, u32); 11] = [
        // The branch behind the division isn't taken: its slot is done, and BREAK stands next.
        (
            &[0x0085_001A, 0x14A0_0002, 0, 0x0007_000D, 0x1080_0003],
            2,
            TrapKind::Break,
            12,
        ),
        (
            &[0x3C08_7FFF, 0x3508_FFFF, 0x2102_0001],
            2,
            TrapKind::Overflow,
            8,
        ),
        (&[0x2402_0007, 0x8FA2_0001], 1, TrapKind::Misaligned, 4),
        (&[0x8C02_0000], 0, TrapKind::Outside, 0),
        (&[0x3C08_0040, 0xAD00_0000], 1, TrapKind::ReadOnly, 4),
        (&[0xFC00_0000], 0, TrapKind::Unknown, 0),
        (&[0x0000_000C], 0, TrapKind::Syscall, 0),
        // Past the last word stand two bytes: no word to fetch.
        (&[0x2402_0007], 1, TrapKind::Fetch, 4),
        // A call whose slot traps leaves register 31, and a jump in a slot is unknown.
        (&[0x0C10_0004, 0x0000_000D], 0, TrapKind::Break, 4),
        (&[0x03E0_0008, 0x03E0_0008], 0, TrapKind::Unknown, 4),
        // Half of the word at 00400008 lies behind the segment's end.
        (&[0x3C08_0040, 0x8D02_0008], 1, TrapKind::Outside, 4),
    ];
    for (words, units, kind, offset) in rows {
        let mut machine = machine_of(rt.alloc(), words)?;
        assert_eq!(rt; run_until(&mut machine, units), Outcome::Going);
        let before = (machine.cycles(), machine.pc(), numbers(&machine));
        let address = ENTRY.wrapping_add(offset);
        let trap = Outcome::Trap { kind, address };
        assert_eq!(rt; run_until(&mut machine, 1), trap, "at {kind:?}");
        let after = (machine.cycles(), machine.pc(), numbers(&machine));
        assert_eq!(rt; after, before, "at {kind:?}");
    }
    Ok(())
}

#[test]
fn counts_a_division_and_a_branch(rt: HostRuntime) -> Result<(), Fail> {
    let words = [
        0x0085_001A,
        0x14A0_0002,
        0,
        0x0007_000D,
        0x1080_0003,
        0,
        0x03E0_0008,
        0x0000_1012,
        0x0C10_000A,
        0,
        0x0000_000D,
    ];
    let mut machine = machine_of(rt.alloc(), &words)?;
    let trap = Outcome::Trap {
        kind: TrapKind::Break,
        address: 0x0040_000C,
    };
    assert_eq!(rt; run_until(&mut machine, 100), trap);
    assert_eq!(rt; (machine.cycles(), machine.pc()), (33, 0x0040_000C));
    Ok(())
}

#[test]
fn reaches_the_area_above_the_stack(rt: HostRuntime) -> Result<(), Fail> {
    // Stores at 60 and 64 bytes above the top, with a load between them.
    let mut machine = machine_of(rt.alloc(), &[0xAFBD_003C, 0x8FA2_003C, 0xAFBD_0040])?;
    assert_eq!(rt; run_until(&mut machine, 1), Outcome::Going);
    let stored = Touched {
        address: 0x7FFF_003C,
        size: 4,
        store: true,
    };
    assert_eq!(rt; machine.last_data(), Some(stored));
    assert_eq!(rt; run_until(&mut machine, 1), Outcome::Going);
    assert_eq!(rt; machine.reg(Reg::low(2)), 0x7FFF_0000);
    let trap = Outcome::Trap {
        kind: TrapKind::Outside,
        address: 0x0040_0008,
    };
    assert_eq!(rt; run_until(&mut machine, 1), trap);
    Ok(())
}

#[test]
fn starts_with_fills_of_which_a_later_one_holds(rt: HostRuntime) -> Result<(), Fail> {
    // Loads of the word below the stack's top, of the last word of the area above it, and of a word
    // between them that nothing fills.
    let words = [0x8FA2_FFFC, 0x8FA3_003C, 0x8FA4_0000, 0x03E0_0008, 0];
    let alloc = rt.alloc();
    let fills = [
        fill_of(alloc, 0x7FFE_FFFC, &[0x11, 0x22, 0x33, 0x44])?,
        fill_of(alloc, 0x7FFE_FFFD, &[0xAA, 0xBB])?,
        fill_of(alloc, 0x7FFF_003C, &[1, 2, 3, 4])?,
        // Without bytes: at the program's first word, and at the end of its segment.
        fill_of(alloc, ENTRY, &[])?,
        fill_of(alloc, 0x0040_0016, &[])?,
    ];
    let mut machine = machine_with(alloc, &words, &fills)?;
    assert_eq!(rt; run_until(&mut machine, 4), Outcome::Returned);
    let loaded = [0x11AA_BB44, 0x0102_0304, 0];
    assert_eq!(rt; &numbers(&machine)[2..5], loaded.as_slice());
    Ok(())
}

#[test]
fn tells_which_fills_have_their_place(rt: HostRuntime) -> Result<(), Fail> {
    let alloc = rt.alloc();
    let image = image_of(alloc, &[0x03E0_0008, 0])?;
    let profile = Profile::plain(alloc);
    // An address, and whether three bytes may be put there: among the words, at both ends of the
    // stack, which lies at 7FFE0000 to 7FFF003F, and outside.
    for (address, fits) in [
        (ENTRY, false),
        (0x7FFD_FFFF, false),
        (0x7FFE_0000, true),
        (0x7FFF_003D, true),
        (0x7FFF_003E, false),
        (0xFFFF_FFFE, false),
    ] {
        let fills = [fill_of(alloc, address, &[1, 2, 3])?];
        assert_eq!(rt; are_fillable(&image, &profile, &fills), fits, "{address:x}");
    }
    Ok(())
}

#[test]
fn moves_unaligned_words(rt: HostRuntime) -> Result<(), Fail> {
    // LWL and LWR of the words at 00400030 to 00400033, into registers 8 to 11.
    let loads = [
        0x3C04_0040,
        0x8888_0030,
        0x9888_0033,
        0x8889_0031,
        0x9889_0034,
        0x888A_0032,
        0x988A_0035,
        0x888B_0033,
        0x988B_0036,
        0x03E0_0008,
        0,
        0,
        0x1122_3344,
        0x5566_7788,
    ];
    let mut machine = machine_of(rt.alloc(), &loads)?;
    assert_eq!(rt; run_until(&mut machine, 100), Outcome::Returned);
    let parts = [0x1122_3344, 0x2233_4455, 0x3344_5566, 0x4455_6677];
    assert_eq!(rt; &numbers(&machine)[8..12], parts.as_slice());
    // SWL and SWR of A1B2C3D4 at 0, 9, 18 and 27 bytes in an area of the stack; its eight words
    // are then loaded into registers 9 to 16.
    let stores = [
        0x3C08_A1B2,
        0x3508_C3D4,
        0xABA8_FFE0,
        0xBBA8_FFE3,
        0xABA8_FFE9,
        0xBBA8_FFEC,
        0xABA8_FFF2,
        0xBBA8_FFF5,
        0xABA8_FFFB,
        0xBBA8_FFFE,
        0x8FA9_FFE0,
        0x8FAA_FFE4,
        0x8FAB_FFE8,
        0x8FAC_FFEC,
        0x8FAD_FFF0,
        0x8FAE_FFF4,
        0x8FAF_FFF8,
        0x8FB0_FFFC,
        0x03E0_0008,
        0,
    ];
    let mut machine = machine_of(rt.alloc(), &stores)?;
    assert_eq!(rt; run_until(&mut machine, 100), Outcome::Returned);
    let memory = [
        0xA1B2_C3D4,
        0,
        0x00A1_B2C3,
        0xD400_0000,
        0x0000_A1B2,
        0xC3D4_0000,
        0x0000_00A1,
        0xB2C3_D400,
    ];
    assert_eq!(rt; &numbers(&machine)[9..17], memory.as_slice());
    Ok(())
}
