//! A run on its way: the machine, how many units it did, and how far it is followed.

ghost use Rattle.std.specs.Prelude.{◌≡◌, ◌≤◌, ◌+◌, ◌<◌, ◌^◌, IfOk};
ghost use Rattle.mips_machine.specs.Machine.{After, IsMachineStart, whole_step};
ghost use Rattle.image_run.specs.Course.{IsCourse, IsRunnable, counted, machine_of, most_of_unit};

use crate::report::Verdict;
use crate::turns::Turns;
use cache_config::Profile;
use elf_mips::Image;
use flow_net::Net;
use lru_concrete::Caches;
use mips_decode::Regs;
use mips_machine::{Machine, Outcome};
use std::alloc::{AllocError, Global};

/// What is run: the image and its net from an entry on, under a profile.
#[derive(Drop)]
pub struct Program<'a> {
    pub image: &'a Image,
    pub profile: &'a Profile,
    pub net: &'a Net,
    pub entry: u32,
}

/// A run on its way.
#[derive(Debug, Drop)]
pub struct Course {
    pub machine: Machine,
    /// How many units were done.
    pub steps: u64,
    /// The place of the next unit, as long as all rules were kept.
    pub place: u32,
    pub turns: Turns,
    pub verdict: Verdict,
}

/// The machine before the first unit: zero registers, nothing put into memory, empty caches.
fn first_machine(alloc: Global, program: &Program) -> Result<Machine, AllocError>
    requires { IsRunnable program.now }
    ensures machine { IfOk result (λ m. m ≡ machine_of program.now) }
    ensures start { IfOk result (λ m.
        IsMachineStart program.now.image.now program.now.profile.now program.now.entry m) }
{
    let profile = program.profile;
    let zero = Regs {
        general: [0; 32],
        hi: 0,
        lo: 0,
    };
    let caches = Caches::empty(alloc, profile.levels.as_slice(), profile.memory)?;
    Machine::start(
        alloc,
        program.image,
        profile,
        program.entry,
        &zero,
        &[],
        caches,
    )
}

impl Course {
    /// A run before its first unit.
    pub fn new(alloc: Global, program: &Program) -> Result<Course, AllocError>
        requires { IsRunnable program.now }
        ensures course { IfOk result (IsCourse program.now) }
        ensures none { IfOk result (λ course. course.steps ≡ 0) }
    {
        let machine = first_machine(alloc, program)?;
        let place = program.net.arcs.as_slice()[0].to;
        Ok(Course {
            machine,
            steps: 0,
            place,
            turns: Turns::new(alloc, program.net)?,
            verdict: Verdict::Kept,
        })
    }

    /// Does one unit, and counts it unless it traps.
    pub fn step(&mut self) -> Outcome
        requires cycles { self.old.machine.cycles < 2 ^ 62 }
        requires steps { self.old.steps < 2 ^ 62 }
        ensures machine { record { outcome = result; machine = self.new.machine } ≡ whole_step self.old.machine }
        ensures small { self.new.machine.cycles ≤ self.old.machine.cycles + most_of_unit }
        ensures steps { self.new.steps ≡ counted result self.old.steps }
        ensures place { self.new.place ≡ self.old.place }
        ensures turns { self.new.turns ≡ self.old.turns }
        ensures verdict { self.new.verdict ≡ self.old.verdict }
    {
        let outcome = self.machine.step();
        if let Outcome::Trap { .. } = outcome {
            return outcome;
        }
        self.steps += 1;
        outcome
    }
}
