//! Programs that run through caches, with cycles and tallies worked out by hand.

use crate::tests::{machine_under, run_until};
use crate::{Machine, Outcome, Tally};
use cache_config::read_profile;
use std::alloc::Global;
use std::test::Fail;

/// The machine before the words under the profile of a text.
fn machine_of(alloc: Global, words: &[u32], profile: &str) -> Result<Machine, Fail> {
    let Ok(profile) = read_profile(alloc, profile.as_bytes()) else {
        return Err("a profile with a fault".into());
    };
    machine_under(alloc, words, &profile, &[])
}

/// Five turns of a loop: `addiu $8, $0, 5`, then `addiu $8, $8, -1`, `bne $8, $0` back and `nop`, then `jr $31` and `nop`.
const LOOP: [u32; 6] = [0x2408_0005, 0x2508_FFFF, 0x1500_FFFE, 0, 0x03E0_0008, 0];

#[test]
fn loop_misses_its_two_lines_once(rt: HostRuntime) -> Result<(), Fail> {
    let profile = "[[cache]]\nserves = 'fetch'\nsets = 4\nways = 2\nline = 16\nlatency = 1\n";
    let mut machine = machine_of(rt.alloc(), &LOOP, profile)?;
    assert_eq!(rt; run_until(&mut machine, 12), Outcome::Returned);
    // 18 fetches of 1 cycle, two of which go on to memory for 10, and 18 classes of 1.
    assert_eq!(rt; machine.cycles(), 56);
    if machine.caches() < 1 {
        return Err("no cache".into());
    }
    assert_eq!(rt;
        machine.tally(0),
        Tally {
            hits: 16,
            misses: 2
        }
    );
    Ok(())
}

#[test]
fn misses_go_on_to_the_second_level(rt: HostRuntime) -> Result<(), Fail> {
    let profile = "\
        [[cache]]\nserves = 'fetch'\nsets = 4\nways = 2\nline = 16\nlatency = 1\n\
        [[cache]]\nserves = 'both'\nsets = 16\nways = 4\nline = 16\nlatency = 5\n";
    let mut machine = machine_of(rt.alloc(), &LOOP, profile)?;
    assert_eq!(rt; run_until(&mut machine, 12), Outcome::Returned);
    // The two misses visit the second cache too.
    assert_eq!(rt; machine.cycles(), 66);
    if machine.caches() < 2 {
        return Err("fewer than two caches".into());
    }
    assert_eq!(rt;
        machine.tally(0),
        Tally {
            hits: 16,
            misses: 2
        }
    );
    assert_eq!(rt; machine.tally(1), Tally { hits: 0, misses: 2 });
    Ok(())
}

#[test]
fn second_level_has_longer_lines(rt: HostRuntime) -> Result<(), Fail> {
    let profile = "\
        [[cache]]\nserves = 'fetch'\nsets = 1\nways = 1\nline = 4\nlatency = 1\n\
        [[cache]]\nserves = 'load'\nsets = 1\nways = 1\nline = 4\nlatency = 7\n\
        [[cache]]\nserves = 'fetch'\nsets = 4\nways = 2\nline = 16\nlatency = 5\n";
    // `nop`, `nop`, `jr $31`, `nop`: four fetches of one line of 16 bytes.
    let mut machine = machine_of(rt.alloc(), &[0, 0, 0x03E0_0008, 0], profile)?;
    assert_eq!(rt; run_until(&mut machine, 3), Outcome::Returned);
    // 1 + 5 + 10, then three times 1 + 5, and four classes of 1.
    assert_eq!(rt; machine.cycles(), 38);
    if machine.caches() < 3 {
        return Err("fewer than three caches".into());
    }
    assert_eq!(rt; machine.tally(0), Tally { hits: 0, misses: 4 });
    assert_eq!(rt; machine.tally(1), Tally { hits: 0, misses: 0 });
    assert_eq!(rt; machine.tally(2), Tally { hits: 3, misses: 1 });
    Ok(())
}

#[test]
fn fetches_and_loads_share_a_block(rt: HostRuntime) -> Result<(), Fail> {
    let profile = "[[cache]]\nserves = 'both'\nsets = 1\nways = 1\nline = 256\nlatency = 2\n";
    // `sw $8, 0($29)`, `lw $8, 0($29)`, `jr $31`, `nop`. The store goes through no cache; the load drops the code's block.
    let words = [0xAFA8_0000, 0x8FA8_0000, 0x03E0_0008, 0];
    let mut machine = machine_of(rt.alloc(), &words, profile)?;
    // 1 + 12 and the store's 10.
    assert_eq!(rt; run_until(&mut machine, 1), Outcome::Going);
    assert_eq!(rt; machine.cycles(), 23);
    // 1, a fetch that hits for 2, and a load that misses for 12.
    assert_eq!(rt; run_until(&mut machine, 1), Outcome::Going);
    assert_eq!(rt; machine.cycles(), 38);
    // 2, a fetch that misses for 12, and the slot's that hits for 2.
    assert_eq!(rt; run_until(&mut machine, 1), Outcome::Returned);
    assert_eq!(rt; machine.cycles(), 54);
    if machine.caches() < 1 {
        return Err("no cache".into());
    }
    assert_eq!(rt; machine.tally(0), Tally { hits: 2, misses: 3 });
    Ok(())
}

#[test]
fn unit_that_traps_visits_nothing(rt: HostRuntime) -> Result<(), Fail> {
    let profile = "[[cache]]\nserves = 'both'\nsets = 1024\nways = 16\nline = 4\nlatency = 1\n";
    // `lw $8, 1($29)` is misaligned.
    let mut machine = machine_of(rt.alloc(), &[0x8FA8_0001], profile)?;
    let before = machine.cycles();
    assert!(rt; run_until(&mut machine, 1) != Outcome::Going);
    if machine.caches() < 1 {
        return Err("no cache".into());
    }
    assert_eq!(rt;
        (machine.cycles(), machine.tally(0)),
        (before, Tally { hits: 0, misses: 0 })
    );
    Ok(())
}
