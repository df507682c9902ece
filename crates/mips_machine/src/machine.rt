//! The machine and the step of one unit.

ghost use Rattle.std.specs.Prelude.{◌≡◌, ℕ, ◌+◌, ◌<◌, ◌≤◌, ◌^◌, All, IfErr, IfOk, IfSome, List, OnErr, Option, length, slice_index, slice_index_or};
ghost use Rattle.mips_decode.specs.declared.instr.Instr.{Instr};
ghost use Rattle.mips_decode.specs.declared.step.Touched.{Touched};
ghost use Rattle.mips_decode.specs.State.{State, code_at, return_address};
ghost use Rattle.mips_decode.specs.Start.{AreRegionsAtStart, AreRegistersAtStart};
ghost use Rattle.mips_decode.specs.Step.{plain_done, unit_of};
ghost use Rattle.mips_machine.specs.Image.{HasNoClash, IsFillable, general_at_start, registers_at_start, regions_of, setting_of, with_fills};
ghost use Rattle.mips_decode.specs.Table.{IsValid};

use crate::caches::{TalliedCaches, Tally};
use crate::cost::{plain_cycles, transfer_cycles};
use crate::fill::Fill;
use crate::memory::Memory;
use crate::outcome::Outcome;
use crate::unit::{execute, fetch};
use cache_config::{Cycles, Profile};
use elf_mips::Image;
use lru_concrete::Caches;
use mips_decode::{Instr, RETURN_ADDRESS, Reg, Regs, Touched, TrapKind};
use std::alloc::{AllocError, Global};
use std::marker::Model;

/// A program's registers, program counter, memory and caches, with the cycles since its start.
#[derive(Debug, Drop)]
pub struct Machine {
    regs: Regs,
    pc: u32,
    memory: Memory,
    cycles: u64,
    last: Option<Touched>,
    /// The cycles of each class of instructions.
    classes: Cycles,
    /// The latency of a store.
    store: u64,
    caches: TalliedCaches,
}

impl Model for Machine {
    ghost use Rattle.std.specs.Prelude.{◌*◌, ◌≤◌};
    ghost use Rattle.cache_config.specs.Limits.{most_cycles};
    ghost use Rattle.mips_machine.specs.Machine.{Machine};
    ghost use Rattle.mips_machine.specs.Tallies.{AreAtMost};

    ghost Value = { Machine };

    ghost view = { λ m. record {
      values = record { regs = m.regs; pc = m.pc; regions = m.memory };
      cycles = m.cycles;
      last = m.last;
      classes = m.classes;
      store = m.store;
      caches = m.caches;
    } };

    ghost invariant = { λ m. (m.store ≤ most_cycles) × AreAtMost (3 * m.cycles) m.caches.tallies };
}

/// Sets registers 0, 28, 29 and 31 as a start has them.
fn set_at_start(general: &mut [u32], pointer: Option<u32>, top: u32)
    requires { length general.old ≡ 32 }
    ensures value { general.new ≡ general_at_start pointer top general.old }
    ensures small { All (λ number. number < 2 ^ 32) general.new }
    ensures count { length general.new ≡ 32 }
    ensures zero { slice_index general.new 0 ≡ 0 }
    ensures stack { slice_index general.new 29 ≡ top }
    ensures link { slice_index general.new 31 ≡ RETURN_ADDRESS }
    ensures pointer { IfSome pointer (λ gp. slice_index general.new 28 ≡ gp) }
{
    general[0] = 0;
    general[29] = top;
    general[31] = RETURN_ADDRESS;
    if let Some(pointer) = pointer {
        general[28] = pointer;
    }
}

/// The registers at the start, by the given ones and the profile.
fn start_registers(mut general: [u32; 32], hi: u32, lo: u32, profile: &Profile) -> Regs
    ensures value { result
        ≡ registers_at_start profile.now (record { general = general; hi = hi; lo = lo }) }
    ensures start { (entry : ℕ) → AreRegistersAtStart (setting_of profile.now entry) result }
{
    set_at_start(&mut general, profile.gp, profile.stack_top);
    Regs { general, hi, lo }
}

/// The memory at the start: the image's and the profile's regions with the fills.
fn start_memory(
    alloc: Global,
    image: &Image,
    profile: &Profile,
    fills: &[Fill],
) -> Result<Memory, AllocError>
    requires apart { HasNoClash image.now profile.now }
    requires fills { All (IsFillable (regions_of image.now profile.now)) fills.now }
    ensures filled { IfOk result
        (λ m. m ≡ with_fills fills.now (regions_of image.now profile.now)) }
    ensures start { IfOk result (AreRegionsAtStart (regions_of image.now profile.now)) }
{
    let mut memory = Memory::of_image(alloc, image, profile)?;
    for fill in fills {
        memory.fill(fill);
    }
    Ok(memory)
}

impl Machine {
    ghost use Rattle.mips_machine.specs.Machine.{After, AreCachesOf, IsMachineStart, machine_at_start, moved, whole_step};
    ghost use Rattle.mips_machine.specs.Passing.{no_visits};

    /// The machine before the first unit at the entry.
    ///
    /// Its memory is the image's segments, the profile's stack and its regions, zero but for the file's
    /// bytes and the fills, of which a later one holds. The bytes of a fill lie in one region that can
    /// be written; a fill without bytes may stand anywhere. Registers 0, 28, 29 and 31 are set (zero, the
    /// global pointer where the profile has one, the stack's top, the place of return); the others are
    /// the given ones. The caches are the profile's and hold what they hold; none of them was visited yet.
    ///
    /// It fails only for want of memory. `clash_place` and `are_fillable` test what it asks of the image and of the fills,
    /// `Caches::new` and `Caches::empty` make caches. The registers are as the System V ABI, MIPS processor
    /// supplement, has them where a program begins.
    pub fn start(
        alloc: Global,
        image: &Image,
        profile: &Profile,
        entry: u32,
        regs: &Regs,
        memory: &[Fill],
        caches: Caches,
    ) -> Result<Machine, AllocError>
        requires apart { HasNoClash image.now profile.now }
        requires fills { All (IsFillable (regions_of image.now profile.now)) memory.now }
        requires caches { AreCachesOf profile.now caches }
        ensures state { IfOk result
            (λ m. m ≡ machine_at_start image.now profile.now entry regs.now memory.now caches) }
        ensures start { IfOk result (IsMachineStart image.now profile.now entry) }
    {
        let memory = start_memory(alloc, image, profile, memory)?;
        Ok(Machine {
            regs: start_registers(regs.general, regs.hi, regs.lo, profile),
            pc: entry,
            memory,
            cycles: 0,
            last: None,
            classes: profile.cycles,
            store: profile.store,
            caches: TalliedCaches::new(alloc, caches)?,
        })
    }

    /// Does one unit: a plain instruction, or a jump or branch with its delay slot (MIPS I architecture).
    ///
    /// A unit that traps changes nothing. No memory is taken. A fetch, a load and a store search for
    /// their region by bisection (`Memory::place_at`) and touch only its own bytes.
    pub fn step(&mut self) -> Outcome
        requires { self.old.cycles < 2 ^ 62 }
        ensures whole { record { outcome = result; machine = self.new } ≡ whole_step self.old }
        ensures small { self.new.cycles ≤ self.old.cycles + 2 ^ 26 }
    {
        let pc = self.pc;
        let instr = match fetch(&self.memory, pc) {
            Ok(instr) => instr,
            Err(kind) => return Outcome::Trap { kind, address: pc },
        };
        let mut regs = self.regs;
        let Some(way) = mips_decode::decide(&instr, pc, &mut regs) else {
            let access = match execute(&instr, &mut self.regs, &mut self.memory) {
                Ok(access) => access,
                Err(kind) => return Outcome::Trap { kind, address: pc },
            };
            let cycles = plain_cycles(&self.classes, self.store, &instr, &access);
            self.cycles += cycles + self.caches.plain(pc, &access);
            return self.advance(pc + 4, access);
        };
        let slot = match fetch(&self.memory, pc + 4) {
            Ok(slot) => slot,
            Err(kind) => return Outcome::Trap {
                kind,
                address: pc + 4,
            },
        };
        if mips_decode::is_transfer(&slot) {
            return Outcome::Trap {
                kind: TrapKind::Unknown,
                address: pc + 4,
            };
        }
        let access = match execute(&slot, &mut regs, &mut self.memory) {
            Ok(access) => access,
            Err(kind) => return Outcome::Trap {
                kind,
                address: pc + 4,
            },
        };
        self.regs = regs;
        let cycles = transfer_cycles(&self.classes, self.store, &instr, &slot, &access);
        self.cycles += cycles + self.caches.transfer(pc, &access);
        self.advance(way.next, access)
    }

    /// Goes to the next unit, after this load or store.
    fn advance(&mut self, next: u32, access: Option<Touched>) -> Outcome
        ensures { record { outcome = result; machine = self.new } ≡ moved self.old next access }
    {
        self.pc = next;
        self.last = access;
        if next == RETURN_ADDRESS {
            Outcome::Returned
        } else {
            Outcome::Going
        }
    }

    /// The cycles since the start.
    pub fn cycles(&self) -> u64
        ensures { result ≡ self.now.cycles }
    {
        self.cycles
    }

    /// The address of the next unit.
    pub fn pc(&self) -> u32
        ensures { result ≡ self.now.values.pc }
    {
        self.pc
    }

    /// The number in a register.
    pub fn reg(&self, n: Reg) -> u32
        ensures { result ≡ slice_index self.now.values.regs.general n }
    {
        self.regs.general[n.number() as usize]
    }

    /// The load or store of the last unit that was done; none where it made none, or none was done.
    pub fn last_data(&self) -> Option<Touched>
        ensures { result ≡ self.now.last }
    {
        self.last
    }

    /// How many caches the profile has.
    pub fn caches(&self) -> u32
        ensures { result ≡ length self.now.caches.held }
    {
        self.caches.count()
    }

    /// How often accesses since the start visited a cache of the profile, counted from 0, and found their block there,
    /// and how often they visited it and didn't.
    pub fn tally(&self, cache: u32) -> Tally
        requires { cache < length self.now.caches.held }
        ensures { result ≡ slice_index_or self.now.caches.tallies cache no_visits }
    {
        self.caches.tally(cache)
    }
}
