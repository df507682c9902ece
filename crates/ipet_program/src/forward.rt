//! A test of small nets whose places' numbers rise along each arc but the back arcs. They are nested.

ghost use Rattle.std.specs.Prelude.{◌≡◌, ◌<◌, ◌≤◌, ◌+◌, false, [], All, length};
ghost use Rattle.std.specs.Bool.{OnTrue};
ghost use Rattle.flow_net.specs.Nested.{IsBack, IsNested};
ghost use Rattle.flow_net.specs.Numbers.{IsNumberOf, IsNumberOrZero};
ghost use Rattle.flow_net.specs.Scopes.{HasScopes, Holds};
ghost use Rattle.ipet_program.specs.Forward.{EachItem, EntersAt, IsForwardArc, IsForwardLoop, IsForwardPlace};
ghost use Rattle.ipet_program.specs.Forward.{IsLeft, IsReached};
ghost use Rattle.flow_net.specs.declared.net.LoopInst.{LoopInst};

use flow_net::{Context, LoopInst, Net, NetArc, Place};

fn outers_fall(loops: &[LoopInst]) -> bool
    ensures fall { OnTrue result
        (EachItem (λ scope (inst : LoopInst). inst.outer < scope) (length loops.now) loops.now) }
{
    for index in 0..loops.len() {
        if loops[index].outer as usize > index {
            return false;
        }
    }
    true
}

fn have_scopes(places: &[Place], count: usize) -> bool
    ensures scopes { OnTrue result (All (λ place. place.scope ≤ count) places.now) }
{
    for place in places {
        if place.scope as usize > count {
            return false;
        }
    }
    true
}

fn has_scopes(net: &Net) -> bool
    ensures scopes { OnTrue result (HasScopes net.now) }
{
    let loops = net.loops.as_slice();
    if !outers_fall(loops) {
        return false;
    }
    if !have_scopes(net.places.as_slice(), loops.len()) {
        return false;
    }
    true
}

fn have_parents(contexts: &[Context]) -> bool
    ensures parents { OnTrue result (All (λ context. context.parent < length contexts.now) contexts.now) }
{
    for context in contexts {
        if context.parent as usize >= contexts.len() {
            return false;
        }
    }
    true
}

/// Whether an arc comes to the place from a lesser one, or from 0.
fn is_reached(arcs: &[NetArc], place: usize) -> bool
    ensures reached { OnTrue result (IsReached arcs.now place) }
{
    for arc in arcs {
        if arc.to as usize == place && (arc.from as usize) < place {
            return true;
        }
    }
    false
}

fn is_left(arcs: &[NetArc]) -> bool
    ensures left { OnTrue result (IsLeft arcs.now) }
{
    for arc in arcs {
        if arc.to == 0 {
            return true;
        }
    }
    false
}

fn are_places(net: &Net) -> bool
    ensures places { OnTrue result (EachItem (IsForwardPlace net.now) (length net.now.places) net.now.places) }
{
    let places = net.places.as_slice();
    for index in 0..places.len() {
        if places[index].context as usize >= net.contexts.as_slice().len() {
            return false;
        }
        if !is_reached(net.arcs.as_slice(), index + 1) {
            return false;
        }
    }
    true
}

fn is_loop(net: &Net, scope: usize, inst: LoopInst) -> bool
    ensures is { OnTrue result (IsForwardLoop net.now scope inst) }
{
    let places = net.places.as_slice();
    if inst.header == 0 || inst.header as usize > places.len() || inst.bound == 0 {
        return false;
    }
    places[inst.header as usize - 1].scope as usize == scope
}

fn are_loops(net: &Net) -> bool
    ensures loops { OnTrue result (EachItem (IsForwardLoop net.now) (length net.now.loops) net.now.loops) }
{
    let loops = net.loops.as_slice();
    for index in 0..loops.len() {
        if !is_loop(net, index + 1, loops[index]) {
            return false;
        }
    }
    true
}

/// Whether a scope holds a place; none holds 0.
fn holds(net: &Net, scope: u32, place: u32) -> bool
    requires scopes { HasScopes net.now }
    requires place { IsNumberOrZero net.now.places place }
    ensures held { OnTrue result (Holds net.now scope place) }
    ensures free { result ≡ false → Holds net.now scope place → ⊥ }
{
    place != 0 && net.held(place, scope)
}

fn is_back(net: &Net, arc: NetArc) -> bool
    requires scopes { HasScopes net.now }
    requires from { IsNumberOrZero net.now.places arc.from }
    requires to { IsNumberOrZero net.now.places arc.to }
    ensures back { OnTrue result (IsBack net.now arc) }
{
    if arc.to == 0 {
        return false;
    }
    let scope = net.places.as_slice()[arc.to as usize - 1].scope;
    if scope == 0 || net.loops.as_slice()[scope as usize - 1].header != arc.to {
        return false;
    }
    holds(net, scope, arc.from)
}

fn enters_at_headers(net: &Net, arc: NetArc) -> bool
    requires scopes { HasScopes net.now }
    requires from { IsNumberOrZero net.now.places arc.from }
    requires to { IsNumberOrZero net.now.places arc.to }
    ensures enters { OnTrue result (EachItem (EntersAt net.now arc) (length net.now.loops) net.now.loops) }
{
    let loops = net.loops.as_slice();
    if loops.len() > 1000 {
        return false;
    }
    for index in 0..loops.len() {
        let scope = index as u32 + 1;
        if arc.to != loops[index].header
            && holds(net, scope, arc.to)
            && !holds(net, scope, arc.from)
        {
            return false;
        }
    }
    true
}

fn is_arc(net: &Net, number: usize, arc: NetArc) -> bool
    requires scopes { HasScopes net.now }
    ensures is { OnTrue result (IsForwardArc net.now number arc) }
{
    let count = net.places.as_slice().len();
    if arc.from as usize > count || arc.to as usize > count {
        return false;
    }
    if (arc.from == 0) != (number == 1) || arc.from == 0 && arc.to == 0 {
        return false;
    }
    if arc.from >= arc.to && arc.to != 0 && !is_back(net, arc) {
        return false;
    }
    enters_at_headers(net, arc)
}

fn are_arcs(net: &Net) -> bool
    requires scopes { HasScopes net.now }
    ensures arcs { OnTrue result (EachItem (IsForwardArc net.now) (length net.now.arcs) net.now.arcs) }
{
    let arcs = net.arcs.as_slice();
    for index in 0..arcs.len() {
        if !is_arc(net, index + 1, arcs[index]) {
            return false;
        }
    }
    true
}

/// Whether each access is made at a place of the net.
fn have_places(net: &Net) -> bool
    ensures places { OnTrue result (All (λ access. IsNumberOf net.now.places access.place) net.now.accesses) }
{
    for access in net.accesses.as_slice() {
        if access.place == 0 || access.place as usize > net.places.as_slice().len() {
            return false;
        }
    }
    true
}

/// Whether the net is of this kind, and small.
pub fn is_forward(net: &Net) -> bool
    ensures nested { OnTrue result (IsNested net.now) }
    ensures made { OnTrue result (length net.now.accesses ≤ 1000) }
    ensures few { OnTrue result (length net.now.arcs ≤ 1000) }
{
    if net.accesses.as_slice().len() > 1000 {
        return false;
    }
    if net.arcs.as_slice().len() > 1000 {
        return false;
    }
    if !have_places(net) {
        return false;
    }
    if !has_scopes(net) {
        return false;
    }
    if !have_parents(net.contexts.as_slice()) {
        return false;
    }
    if !are_places(net) {
        return false;
    }
    if !are_loops(net) {
        return false;
    }
    if !are_arcs(net) {
        return false;
    }
    if !is_left(net.arcs.as_slice()) {
        return false;
    }
    true
}
