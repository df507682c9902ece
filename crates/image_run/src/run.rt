//! The run of an image.

ghost use Rattle.std.specs.Prelude.{◌≡◌, ◌<◌, ◌^◌, IfOk, length};
ghost use Rattle.flow_net.specs.Nested.{IsNested};
ghost use Rattle.mips_machine.specs.Image.{HasNoClash};
ghost use Rattle.net_model.specs.Net.{HasUnits, IsNet};
ghost use Rattle.image_run.specs.Reports.{IsHeadlineRun, IsReport};
ghost use Rattle.image_run.specs.declared.report.Stop.{Stop};
ghost use Rattle.image_run.specs.declared.report.Verdict.{Verdict};

use crate::course::{Course, Program};
use crate::report::{RunReport, Stop};
use crate::road::Road;
use cache_config::Profile;
use elf_mips::Image;
use flow_net::Net;
use mips_machine::{Machine, Outcome, Tally};
use std::alloc::{AllocError, Global};
use wcet_io::List;

/// The tallies of a machine's caches, in their order.
fn tallies_of(alloc: Global, machine: &Machine) -> Result<List<Tally>, AllocError>
    requires { length machine.now.caches.tallies ≡ length machine.now.caches.held }
    ensures { IfOk result (λ (tallies : List Tally). tallies ≡ machine.now.caches.tallies) }
{
    let mut tallies = List::new(alloc);
    for cache in 0..machine.caches() {
        tallies.push(machine.tally(cache))?;
    }
    Ok(tallies)
}

impl Course {
    /// What is told of a run that came to its end so.
    fn report(&self, alloc: Global, stop: Stop) -> Result<RunReport, AllocError>
        requires { length self.now.machine.caches.tallies ≡ length self.now.machine.caches.held }
        ensures stop { IfOk result (λ report. report.stop ≡ stop) }
        ensures cycles { IfOk result (λ report. report.cycles ≡ self.now.machine.cycles) }
        ensures steps { IfOk result (λ report. report.steps ≡ self.now.steps) }
        ensures caches { IfOk result (λ report. report.caches ≡ self.now.machine.caches.tallies) }
        ensures verdict { IfOk result (λ report. report.verdict ≡ self.now.verdict) }
    {
        Ok(RunReport {
            stop,
            cycles: self.machine.cycles(),
            steps: self.steps,
            caches: tallies_of(alloc, &self.machine)?,
            verdict: self.verdict,
        })
    }
}

/// Runs an image from an entry on under a profile: from zero registers, the file's bytes, zeros elsewhere and empty
/// caches, until the entry returns, a unit traps, or the profile's number of units is done.
///
/// The verdict is `Kept` exactly where the units that were visited keep the records, those of ranges among them, and
/// return to their callers; else it names the first unit that doesn't. The net is the image's from this entry.
///
/// It takes memory in proportion to the net, once, and none for a unit.
pub fn run_image(
    alloc: Global,
    net: &Net,
    image: &Image,
    profile: &Profile,
    entry: u32,
) -> Result<RunReport, AllocError>
    requires net { IsNet image.now entry net.now }
    requires nested { IsNested net.now }
    requires units { HasUnits image.now net.now }
    requires few { length net.now.places < 2 ^ 32 × length net.now.arcs < 2 ^ 32 }
    requires clash { HasNoClash image.now profile.now }
    ensures report { IfOk result (IsReport image.now profile.now entry) }
    // A run that returned and kept all rules is one that the headline of the bound speaks of.
    ensures spoken { IfOk result (λ report. report.stop ≡ Stop.Returned → report.verdict ≡ Verdict.Kept →
        IsHeadlineRun image.now profile.now entry report) }
{
    let program = Program {
        image,
        profile,
        net,
        entry,
    };
    let road = Road::new(alloc, image, net)?;
    let mut course = Course::new(alloc, &program)?;
    for _ in 0..profile.steps {
        match course.go(&program, &road) {
            Outcome::Going => {}
            Outcome::Returned => return course.report(alloc, Stop::Returned),
            Outcome::Trap { kind, address } => {
                return course.report(alloc, Stop::Trap { kind, address });
            }
        }
    }
    course.report(alloc, Stop::Steps)
}
