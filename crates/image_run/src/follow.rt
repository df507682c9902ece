//! How a run is followed through its net, unit by unit.

ghost use Rattle.std.specs.Prelude.{◌≡◌, ℕ, ◌+◌, ◌<◌, ◌≤◌, ◌^◌, Some, length, slice_get};
ghost use Rattle.std.specs.Bool.{OnFalse, OnTrue};
ghost use Rattle.cache_config.specs.Limits.{most_steps};
ghost use Rattle.flow_net.specs.Numbers.{IsNumberOf, item_at};
ghost use Rattle.flow_net.specs.declared.net.Place.{Place};
ghost use Rattle.image_run.specs.Course.{Goes, GoesBackFrom, IsBackFrom, IsCourse, IsJudged, IsRunnable};
ghost use Rattle.image_run.specs.Course.{StaysInRanges, counted};
ghost use Rattle.image_run.specs.Road.{IsRoad, IsSpotAt, site_by};
ghost use Rattle.image_run.specs.declared.report.Verdict.{Verdict};

use crate::course::{Course, Program};
use crate::report::{BrokenKind, Verdict};
use crate::road::Road;
use crate::spots::{Spot, site_by};
use elf_mips::Image;
use flow_net::{Context, Net};
use mips_decode::{LinkKind, Touched};
use mips_machine::Outcome;

/// The place of return: the entry has returned when the next unit would be here.
const RETURN_ADDRESS: u32 = 0xFFFF_FFF0;

/// Whether a return from a context goes to where the call belongs that made it, or to the place of return.
fn is_back(contexts: &[Context], context: u32, next: u32) -> bool
    requires { context < length contexts.now }
    ensures yes { OnTrue result (IsBackFrom contexts.now context next) }
    ensures no { OnFalse result (IsBackFrom contexts.now context next → ⊥) }
{
    if context == 0 {
        return next == RETURN_ADDRESS;
    }
    let site = contexts[context as usize].site;
    8 <= next && next - 8 == site
}

/// A unit that was done, as the machine shows it.
#[derive(Debug, Drop)]
pub struct Seen {
    pub address: u32,
    pub context: u32,
    pub link: LinkKind,
    pub next: u32,
    pub access: Option<Touched>,
}

/// Whether a unit returns to another place than its caller's.
fn returns_aside(net: &Net, seen: &Seen) -> bool
    requires { seen.now.context < length net.now.contexts }
    ensures yes { OnTrue result (GoesBackFrom net.now.contexts seen.now.context seen.now.link seen.now.next → ⊥) }
    ensures no { OnFalse result (GoesBackFrom net.now.contexts seen.now.context seen.now.link seen.now.next) }
{
    match seen.link {
        LinkKind::Return => !is_back(net.contexts.as_slice(), seen.context, seen.next),
        _ => false,
    }
}

/// Whether a unit's load or store leaves its limits.
fn leaves_range(spot: &Spot, seen: &Seen, image: &Image) -> bool
    requires { IsSpotAt image.now seen.now.address spot.now }
    ensures yes { OnTrue result (StaysInRanges image.now (site_by spot.now.slot seen.now.address) seen.now.access → ⊥) }
    ensures no { OnFalse result (StaysInRanges image.now (site_by spot.now.slot seen.now.address) seen.now.access) }
{
    match seen.access {
        Some(access) => !spot.limits.hold(&access),
        None => false,
    }
}

fn broken(kind: BrokenKind, address: u32) -> Verdict
    ensures { result ≡ Verdict.Broken kind address }
{
    Verdict::Broken { kind, address }
}

/// The first rule that a unit breaks behind its visit.
fn judge(program: &Program, road: &Road, spot: &Spot, seen: &Seen) -> Verdict
    requires road { IsRoad program.now.image.now program.now.net.now road.now }
    requires spot { IsSpotAt program.now.image.now seen.now.address spot.now }
    requires context { seen.now.context < length program.now.net.now.contexts }
    ensures { IsJudged program.now.image.now program.now.net.now spot.now seen.now result }
{
    if spot.indirect && !road.goes_to(program.image, program.net, seen.address, seen.next) {
        return broken(BrokenKind::Target, seen.address);
    }
    if leaves_range(spot, seen, program.image) {
        return broken(BrokenKind::Range, site_by(spot.slot, seen.address));
    }
    if returns_aside(program.net, seen) {
        return broken(BrokenKind::Return, seen.address);
    }
    Verdict::Kept
}

impl Course {
    /// Does one unit, and follows it if the run kept all rules so far.
    ///
    /// It takes no memory, and a few steps beyond the machine's own: at a loop's header one for each loop round it, at
    /// an indirect jump or call two searches in the records of targets, and a look at the arcs that leave the place.
    pub fn go(&mut self, program: &Program, road: &Road) -> Outcome
        requires runnable { IsRunnable program.now }
        requires road { IsRoad program.now.image.now program.now.net.now road.now }
        requires course { IsCourse program.now self.old }
        requires few { self.old.steps < most_steps }
        ensures goes { Goes program.now result self.new }
        ensures counts { self.new.steps ≡ counted result self.old.steps }
    {
        match self.verdict {
            Verdict::Kept => self.follow(program, road),
            Verdict::Broken { .. } => self.step(),
        }
    }

    /// The same for a run that kept all rules so far.
    fn follow(&mut self, program: &Program, road: &Road) -> Outcome
        requires runnable { IsRunnable program.now }
        requires road { IsRoad program.now.image.now program.now.net.now road.now }
        requires course { IsCourse program.now self.old }
        requires few { self.old.steps < most_steps }
        requires kept { self.old.verdict ≡ Verdict.Kept }
        ensures goes { Goes program.now result self.new }
        ensures counts { self.new.steps ≡ counted result self.old.steps }
    {
        let address = self.machine.pc();
        let place = self.place;
        let context = program.net.places.as_slice()[place as usize - 1].context;
        if !self.turns.visit(program.net, place) {
            self.verdict = Verdict::Broken {
                kind: BrokenKind::Loop,
                address,
            };
            return self.step();
        }
        let spot = road.spot(program.image, program.net, place);
        let link = spot.link.kind(&self.machine);
        let outcome = self.step();
        if let Outcome::Trap { .. } = outcome {
            return outcome;
        }
        let next = self.machine.pc();
        let access = self.machine.last_data();
        let seen = Seen {
            address,
            context,
            link,
            next,
            access,
        };
        let verdict = judge(program, road, spot, &seen);
        self.verdict = verdict;
        if let Verdict::Broken { .. } = verdict {
            return outcome;
        }
        if let Outcome::Returned = outcome {
            return outcome;
        }
        self.place = match road.next(program.image, program.net, place, link, next) {
            Some(behind) => behind,
            None => unreachable!(),
        };
        outcome
    }
}
