//! Runs a loop of arithmetic units and loads on the machine, for as many units as a line of the input says, and prints
//! the cycles: `bench/machine.sh` times it. A line that begins with `caches` runs it with two levels of caches for
//! fetches and one for loads, the others without caches.
#![tactic(auto)]

ghost use Rattle.std.specs.Prelude.{◌≡◌, ◌<◌, ◌≤◌, IfOk, length};

use anyhow::{Result, bail};
use cache_config::{Profile, read_profile};
use elf_mips::read_image;
use lru_concrete::Caches;
use mips_machine::{Machine, Outcome, Regs, clash_place};
use std::alloc::{AllocError, Global};
use std::io::Stdin;

/// Where the loop begins.
const ENTRY: u32 = 0x0040_0000;

/// An executable of one segment that holds the loop: its ELF header, its program header, and then
///
/// ```text
/// 00400000  lw    $8, -4($29)
/// 00400004  addu  $9, $9, $8
/// 00400008  addiu $10, $10, 1
/// 0040000C  j     00400000
/// 00400010  addiu $11, $11, 3
/// ```
const FILE: [u32; 26] = [
    0x7F45_4C46,
    0x0102_0100,
    0,
    0,
    0x0002_0008,
    1,
    ENTRY,
    52,
    0,
    0,
    0x0034_0020,
    0x0001_0028,
    0,
    1,
    84,
    ENTRY,
    ENTRY,
    20,
    20,
    5,
    4,
    0x8FA8_FFFC,
    0x0128_4821,
    0x254A_0001,
    0x0810_0000,
    0x256B_0003,
];

/// Caches of the sizes that small controllers have.
const CACHES: &str = "\
    [[cache]]\nserves = 'fetch'\nsets = 16\nways = 2\nline = 16\nlatency = 1\n\
    [[cache]]\nserves = 'load'\nsets = 8\nways = 2\nline = 16\nlatency = 1\n\
    [[cache]]\nserves = 'fetch'\nsets = 64\nways = 4\nline = 32\nlatency = 6\n";

fn main(rt: HostRuntime) -> Result<()> {
    for line in rt.lines(rt.alloc()) {
        let line = line?;
        let text = line.as_str().trim();
        let (profile, count) = match text.strip_prefix("caches ") {
            Some(count) => (cached_profile(rt.alloc())?, count),
            None => (Profile::plain(rt.alloc()), text),
        };
        let Ok(units) = count.parse::<u64>() else {
            bail!("a line is a number of units, behind the word `caches` or alone");
        };
        let mut machine = loop_machine(rt.alloc(), &profile)?;
        let done = run(&mut machine, units);
        let cycles = machine.cycles();
        println!(rt; "units {done} cycles {cycles}")?;
    }
    Ok(())
}

/// The profile with caches: two levels for fetches, and one for loads.
fn cached_profile(alloc: Global) -> Result<Profile> {
    let Ok(profile) = read_profile(alloc, CACHES.as_bytes()) else {
        bail!("the profile isn't read");
    };
    Ok(profile)
}

/// The machine before the loop, with zero registers and caches that hold nothing.
fn loop_machine(alloc: Global, profile: &Profile) -> Result<Machine> {
    let file = file_bytes(alloc)?;
    let Ok(image) = read_image(alloc, &file) else {
        bail!("the loop's file isn't read");
    };
    if let Some(_) = clash_place(&image, profile) {
        bail!("the loop lies in the stack");
    }
    let regs = Regs {
        general: [0; 32],
        hi: 0,
        lo: 0,
    };
    let caches = Caches::empty(alloc, profile.levels.as_slice(), profile.memory)?;
    Ok(Machine::start(alloc, &image, profile, ENTRY, &regs, &[], caches)?)
}

/// The bytes of the loop's file.
fn file_bytes(alloc: Global) -> Result<Vec<u8>, AllocError>
    ensures { IfOk result (λ file. length file.items ≤ 104) }
{
    let mut bytes = Vec::new(alloc);
    for word in FILE {
        bytes.extend_from_slice(&u32::to_be_bytes(word))?;
    }
    Ok(bytes)
}

ghost use Rattle.machine_bench.specs.Units.{after, Ends};

/// Does so many units one after the other, or fewer where the machine ends; how many were done.
fn run(machine: &mut Machine, units: u64) -> u64
    ensures few { result ≤ units }
    ensures done { machine.new ≡ after result machine.old }
    ensures ends { result < units → Ends result machine.old }
{
    for unit in 0..units {
        if machine.cycles() >= 1 << 61 {
            return unit;
        }
        match machine.step() {
            Outcome::Going => continue,
            Outcome::Returned => return unit + 1,
            Outcome::Trap { .. } => return unit,
        }
    }
    units
}
