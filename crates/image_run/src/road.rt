//! The tables by which a run is followed through its net.

ghost use Rattle.std.specs.Prelude.{◌≡◌, ◌==◌, ◌<◌, ◌^◌, ℕ, All, Contains, IfNone, IfOk, IfSome, Some, length};
ghost use Rattle.std.specs.Bool.{OnFalse, OnTrue};
ghost use Rattle.std.specs.List.{list_any};
ghost use Rattle.elf_mips.specs.declared.mark.Mark.{Mark};
ghost use Rattle.code_units.specs.Targets.{AreTargets};
ghost use Rattle.flow_net.specs.Nested.{IsNested};
ghost use Rattle.flow_net.specs.Numbers.{IsNumberOf, item_at};
ghost use Rattle.flow_net.specs.declared.net.NetArc.{NetArc};
ghost use Rattle.flow_net.specs.declared.net.Place.{Place};
ghost use Rattle.mips_decode.specs.Transfer.{linking_of};
ghost use Rattle.net_model.specs.Net.{HasUnits};
ghost use Rattle.net_model.specs.Targets.{targets_at};
ghost use Rattle.image_run.specs.Road.{IsContextBehind, IsNoWay, IsPlaceBehind, IsRoad, IsSpotAt};

use crate::spots::{Spot, spots_of};
use code_units::{targets_at, targets_of};
use elf_mips::{Image, Mark};
use flow_net::{Context, Net, Place};
use mips_decode::LinkKind;
use net_tables::arcs_out;
use std::alloc::{AllocError, Global};
use wcet_io::List;

/// The tables of a net, each made once.
#[derive(Debug, Drop)]
pub struct Road {
    /// The unit of each place, in the places' order.
    pub spots: Vec<Spot>,
    /// The records of targets, by rising addresses.
    pub targets: List<Mark>,
    /// The numbers of the arcs that leave each place, by the place's number.
    pub arcs: Vec<List<u32>>,
}

/// Whether a unit at a place that calls or returns so, and goes to an address, comes to another place.
fn is_behind(contexts: &[Context], from: &Place, link: LinkKind, next: u32, to: &Place) -> bool
    requires from { from.now.context < length contexts.now }
    requires to { to.now.context < length contexts.now }
    ensures yes { OnTrue result ((to.now.address ≡ next)
        × IsContextBehind contexts.now (linking_of link from.now.address next) from.now.context to.now.context) }
    ensures no { OnFalse result ((to.now.address ≡ next)
        × IsContextBehind contexts.now (linking_of link from.now.address next) from.now.context to.now.context → ⊥) }
{
    if to.address != next {
        return false;
    }
    match link {
        LinkKind::Plain => to.context == from.context,
        LinkKind::Call => {
            to.context != 0
                && contexts[to.context as usize]
                    == Context {
                        parent: from.context,
                        site: from.address,
                        target: next,
                    }
        }
        LinkKind::Return => to.context == contexts[from.context as usize].parent,
    }
}

/// The place to which an arc goes, if a unit at a place that calls or returns so comes there.
fn behind_by(net: &Net, from: &Place, link: LinkKind, next: u32, number: u32) -> Option<u32>
    requires nested { IsNested net.now }
    requires from { from.now.context < length net.now.contexts }
    requires number { IsNumberOf net.now.arcs number }
    ensures some { IfSome result
        (IsPlaceBehind net.now (linking_of link from.now.address next) from.now.context next) }
    ensures none { IfNone result
        (IsNoWay net.now (linking_of link from.now.address next) from.now.context next number) }
{
    let to = net.arcs.as_slice()[number as usize - 1].to;
    if to == 0 {
        return None;
    }
    if !is_behind(
        net.contexts.as_slice(),
        from,
        link,
        next,
        &net.places.as_slice()[to as usize - 1],
    ) {
        return None;
    }
    Some(to)
}

/// The first of these arcs' places to which the unit comes.
fn first_behind(net: &Net, from: &Place, link: LinkKind, next: u32, numbers: &[u32]) -> Option<u32>
    requires nested { IsNested net.now }
    requires from { from.now.context < length net.now.contexts }
    requires numbers { All (IsNumberOf net.now.arcs) numbers.now }
    ensures some { IfSome result
        (IsPlaceBehind net.now (linking_of link from.now.address next) from.now.context next) }
    ensures none { IfNone result
        (All (IsNoWay net.now (linking_of link from.now.address next) from.now.context next) numbers.now) }
{
    for number in numbers {
        if let Some(to) = behind_by(net, from, link, next, *number) {
            return Some(to);
        }
    }
    None
}

/// Whether a target is recorded for the JR or JALR at an address, by two searches in the records of targets, and one
/// look at each of those at the address.
fn is_target(image: &Image, targets: &[Mark], address: u32, next: u32) -> bool
    requires { AreTargets image.now targets.now }
    ensures yes { OnTrue result (Contains (targets_at image.now address) next) }
    ensures no { OnFalse result (Contains (targets_at image.now address) next → ⊥) }
{
    has_target(targets_at(targets, address), next)
}

/// Whether one of these records names the target.
fn has_target(marks: &[Mark], next: u32) -> bool
    ensures { result ≡ list_any (λ (mark : Mark). mark.x == next) marks.now }
{
    marks.iter().any(|mark| mark.x == next)
}

impl Road {
    /// The tables of the net of an image.
    pub fn new(alloc: Global, image: &Image, net: &Net) -> Result<Road, AllocError>
        requires nested { IsNested net.now }
        requires units { HasUnits image.now net.now }
        requires few { length net.now.places < 2 ^ 32 × length net.now.arcs < 2 ^ 32 }
        ensures { IfOk result (IsRoad image.now net.now) }
    {
        let targets = targets_of(alloc, image)?;
        let spots = spots_of(alloc, image, net, targets.as_slice())?;
        let arcs = arcs_out(alloc, net)?;
        Ok(Road {
            spots,
            targets,
            arcs,
        })
    }

    /// The unit of a place.
    pub fn spot(&self, image: &Image, net: &Net, place: u32) -> &Spot
        requires road { IsRoad image.now net.now self.now }
        requires place { IsNumberOf net.now.places place }
        ensures { (at : Place) → item_at place net.now.places ≡ Some at → IsSpotAt image.now at.address result.now }
    {
        &self.spots[place as usize - 1]
    }

    /// Whether a target is recorded for the JR or JALR at an address.
    pub fn goes_to(&self, image: &Image, net: &Net, address: u32, next: u32) -> bool
        requires { IsRoad image.now net.now self.now }
        ensures yes { OnTrue result (Contains (targets_at image.now address) next) }
        ensures no { OnFalse result (Contains (targets_at image.now address) next → ⊥) }
    {
        is_target(image, self.targets.as_slice(), address, next)
    }

    /// The place to which the unit of a place goes that calls or returns so, at this address: among those to which the
    /// place's arcs go.
    pub fn next(
        &self,
        image: &Image,
        net: &Net,
        place: u32,
        link: LinkKind,
        next: u32,
    ) -> Option<u32>
        requires nested { IsNested net.now }
        requires road { IsRoad image.now net.now self.now }
        requires place { IsNumberOf net.now.places place }
        ensures some { IfSome result (λ to. (at : Place) → item_at place net.now.places ≡ Some at →
            IsPlaceBehind net.now (linking_of link at.address next) at.context next to) }
        ensures none { IfNone result ((at : Place) → item_at place net.now.places ≡ Some at →
            (number : ℕ) (arc : NetArc) → item_at number net.now.arcs ≡ Some arc → arc.from ≡ place →
            IsPlaceBehind net.now (linking_of link at.address next) at.context next arc.to → ⊥) }
    {
        let from = net.places.as_slice()[place as usize - 1];
        let numbers = self.arcs[place as usize].as_slice();
        first_behind(net, &from, link, next, numbers)
    }
}
