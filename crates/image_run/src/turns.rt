//! How often each loop instance may still come to its header.

ghost use Rattle.std.specs.Prelude.{◌≡◌, ◌≤◌, All, IfOk, IfNone, IfSome, Some, [], length};
ghost use Rattle.std.specs.Bool.{OnFalse, OnTrue};
ghost use Rattle.flow_net.specs.Entering.{IsOutside};
ghost use Rattle.flow_net.specs.Nested.{IsNested};
ghost use Rattle.flow_net.specs.Numbers.{IsNumberOf, IsNumberOrZero, item_at};
ghost use Rattle.flow_net.specs.Scopes.{HasScopes, Holds};
ghost use Rattle.image_run.specs.Turns.{AreTracked, IsNoTurn, IsOver, IsSized, IsTurn, IsVisited};

use flow_net::{LoopInst, Net};
use std::alloc::{AllocError, Global};

/// Where a run was last, and the visits that are left to each loop's header.
#[derive(Debug, Drop)]
pub struct Turns {
    /// The place that was visited last, 0 before the first one.
    pub from: u32,
    /// How often the header of the loop instance of this number may be visited before the loop is entered anew.
    pub left: Vec<u32>,
}

/// Whether the scope doesn't hold the place; none holds 0.
fn is_outside(net: &Net, scope: u32, place: u32) -> bool
    requires place { IsNumberOrZero net.now.places place }
    requires scopes { HasScopes net.now }
    ensures outside { OnTrue result (IsOutside net.now scope place) }
    ensures held { OnFalse result (Holds net.now scope place) }
{
    if place == 0 {
        return true;
    }
    !net.held(place, scope)
}

/// The visits that are left once a loop's header is visited from a place; none where this one is too many.
///
/// It takes a step for each loop round the place.
fn turn(net: &Net, scope: u32, inst: &LoopInst, from: u32, left: u32) -> Option<u32>
    requires scopes { HasScopes net.now }
    requires from { IsNumberOrZero net.now.places from }
    requires bound { 1 ≤ inst.now.bound }
    ensures some { IfSome result (IsTurn net.now scope inst.now from left) }
    ensures none { IfNone result (IsNoTurn net.now scope inst.now from left) }
{
    if is_outside(net, scope, from) {
        return Some(inst.bound - 1);
    }
    if left == 0 {
        return None;
    }
    Some(left - 1)
}

impl Turns {
    /// Before the first visit.
    pub fn new(alloc: Global, net: &Net) -> Result<Turns, AllocError>
        ensures sized { IfOk result (IsSized net.now) }
        ensures tracked { IfOk result (AreTracked net.now []) }
    {
        let left = vec![in alloc; 0; net.loops.as_slice().len() + 1]?;
        Ok(Turns { from: 0, left })
    }

    /// Visits a place. False says that the visit breaks the bound of a loop, whose header the place is.
    ///
    /// It takes no memory, and more than one step only at a loop's header: one for each loop round the last place.
    pub fn visit(&mut self, net: &Net, place: u32) -> bool
        requires nested { IsNested net.now }
        requires sized { IsSized net.now self.old }
        requires place { IsNumberOf net.now.places place }
        ensures sized { IsSized net.now self.new }
        ensures kept { OnTrue result (IsVisited net.now self.old self.new place) }
        ensures broken { OnFalse result (IsOver net.now self.old place) }
    {
        let scope = net.places.as_slice()[place as usize - 1].scope;
        let from = self.from;
        self.from = place;
        if scope == 0 {
            return true;
        }
        let inst = net.loops.as_slice()[scope as usize - 1];
        if inst.header != place {
            return true;
        }
        match turn(net, scope, &inst, from, self.left[scope as usize]) {
            Some(left) => {
                self.left[scope as usize] = left;
                true
            }
            None => false,
        }
    }
}
