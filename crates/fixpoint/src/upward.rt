//! A test of nets: each place is reached by an arc from a lesser one. Such a net can be solved.

ghost use Rattle.std.specs.Prelude.{◌≡◌, ◌<◌, ◌≤◌, ◌+◌, ◌^◌, ℕ, All, true, false, length, IfOk, if◌then◌else◌, nat_lt, slice_set};
ghost use Rattle.std.specs.Bool.{OnTrue};
ghost use Rattle.flow_net.specs.Scopes.{HasScopes};
ghost use Rattle.flow_net.specs.declared.net.LoopInst.{LoopInst};
ghost use Rattle.fixpoint.specs.Solved.{IsSolvable};
ghost use Rattle.fixpoint.specs.Upward.{AreArcs, EachItem, IsArc, IsReached};
ghost use Rattle.fixpoint.specs.Values.{waits};

use flow_net::{LoopInst, Net, NetArc, Place};
use std::alloc::{AllocError, Global};

/// Whether each loop instance lies in one of a lesser number, or in the run.
fn outers_fall(loops: &[LoopInst]) -> bool
    ensures fall { OnTrue result
        (EachItem (λ scope (inst : LoopInst). inst.outer < scope) (length loops.now) loops.now) }
{
    for index in 0..loops.len() {
        if loops[index].outer as usize > index {
            return false;
        }
    }
    true
}

/// Whether each place has the run or one of so many loop instances as its scope.
fn have_scopes(places: &[Place], count: usize) -> bool
    ensures scopes { OnTrue result (All (λ place. place.scope ≤ count) places.now) }
{
    for place in places {
        if place.scope as usize > count {
            return false;
        }
    }
    true
}

/// Whether the scopes are those of the net, and their chains end.
fn has_scopes(net: &Net) -> bool
    ensures scopes { OnTrue result (HasScopes net.now) }
{
    let loops = net.loops.as_slice();
    if !outers_fall(loops) {
        return false;
    }
    if !have_scopes(net.places.as_slice(), loops.len()) {
        return false;
    }
    true
}

/// Whether each arc goes between so many places, or from or to 0, and the first one alone comes from 0, to a place.
fn are_arcs(arcs: &[NetArc], places: usize) -> bool
    ensures arcs { OnTrue result (AreArcs places arcs.now) }
{
    for index in 0..arcs.len() {
        let arc = arcs[index];
        if arc.from as usize > places || arc.to as usize > places {
            return false;
        }
        if (arc.from == 0) != (index == 0) {
            return false;
        }
        if arc.from == 0 && arc.to == 0 {
            return false;
        }
    }
    true
}

/// Marks where an arc goes to, if it comes from a lesser place or from 0.
fn mark_end(arc: NetArc, reached: &mut [bool])
    requires { arc.to < length reached.old }
    ensures { reached.new ≡ (if nat_lt arc.from arc.to then slice_set reached.old arc.to true else reached.old) }
{
    if arc.from < arc.to {
        reached[arc.to as usize] = true;
    }
}

/// Marks the places to which an arc comes from a lesser one, or from 0.
fn mark_ends(arcs: &[NetArc], reached: &mut [bool])
    requires ends { All (λ arc. arc.to < length reached.old) arcs.now }
    requires fresh { (place : ℕ) → waits reached.old place ≡ false }
    ensures size { length reached.new ≡ length reached.old }
    ensures marked { (place : ℕ) → waits reached.new place ≡ true → IsReached arcs.now place }
{
    for arc in arcs {
        mark_end(*arc, reached);
    }
}

/// Whether each number but 0 is marked.
fn are_marked(reached: &[bool]) -> bool
    ensures { OnTrue result ((place : ℕ) → 0 < place → place < length reached.now → waits reached.now place ≡ true) }
{
    for place in 1..reached.len() {
        if !reached[place] {
            return false;
        }
    }
    true
}

/// Whether each place is reached by an arc from a lesser one, or from 0.
fn are_reached(alloc: Global, net: &Net) -> Result<bool, AllocError>
    requires { AreArcs (length net.now.places) net.now.arcs }
    ensures { IfOk result (λ all. OnTrue all ((place : ℕ) → 0 < place → place ≤ length net.now.places →
        IsReached net.now.arcs place)) }
{
    let mut reached = vec![in alloc; false; net.places.as_slice().len() + 1]?;
    mark_ends(net.arcs.as_slice(), &mut reached);
    Ok(are_marked(&reached))
}

/// Whether the net has an arc, and no more places and arcs than the solver takes.
fn is_small(net: &Net) -> bool
    ensures few { OnTrue result (length net.now.places ≤ 65536) }
    ensures less { OnTrue result (length net.now.arcs ≤ 2 ^ 31) }
    ensures some { OnTrue result (0 < length net.now.arcs) }
{
    let places = net.places.as_slice().len();
    let arcs = net.arcs.as_slice().len();
    places <= 65_536 && arcs <= 1 << 31 && arcs > 0
}

/// Whether a look at each part of the net tells that it can be solved: its numbers are its own, loop instances lie in lesser ones,
/// and each place is reached by an arc from a lesser one. Other nets that can be solved may fail the test. It takes a step for
/// each part of the net.
pub fn is_upward(alloc: Global, net: &Net) -> Result<bool, AllocError>
    ensures { IfOk result (λ upward. OnTrue upward (IsSolvable net.now)) }
{
    if !is_small(net) {
        return Ok(false);
    }
    if !has_scopes(net) {
        return Ok(false);
    }
    if !are_arcs(net.arcs.as_slice(), net.places.as_slice().len()) {
        return Ok(false);
    }
    are_reached(alloc, net)
}
