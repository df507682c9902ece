//! What the lists of a net say of a number.

ghost use Rattle.std.specs.Prelude.{◌≡◌, length};
ghost use Rattle.flow_net.specs.Numbers.{item_at};
ghost use Rattle.flow_net.specs.Visits.{target_of};
ghost use Rattle.ipet_program.specs.Scopes.{bound_of};
ghost use Rattle.nest_solver.specs.Nets.{header_of, outer_of, scope_of, source_of};
ghost use Rattle.nest_solver.specs.Shape.{IsUpTo};

use flow_net::Net;

/// Where an arc comes from.
pub fn source(net: &Net, arc: usize) -> usize
    requires { IsUpTo (length net.now.arcs) arc }
    ensures { result ≡ source_of (item_at arc net.now.arcs) }
{
    net.arcs.as_slice()[arc - 1].from as usize
}

/// Where an arc goes to.
pub fn target(net: &Net, arc: usize) -> usize
    requires { IsUpTo (length net.now.arcs) arc }
    ensures { result ≡ target_of (item_at arc net.now.arcs) }
{
    net.arcs.as_slice()[arc - 1].to as usize
}

/// The innermost scope of a place.
pub fn scope(net: &Net, place: usize) -> usize
    requires { IsUpTo (length net.now.places) place }
    ensures { result ≡ scope_of (item_at place net.now.places) }
{
    net.places.as_slice()[place - 1].scope as usize
}

/// The next scope outward.
pub fn outer(net: &Net, scope: usize) -> usize
    requires { IsUpTo (length net.now.loops) scope }
    ensures { result ≡ outer_of (item_at scope net.now.loops) }
{
    net.loops.as_slice()[scope - 1].outer as usize
}

/// The header of a loop instance.
pub fn header(net: &Net, scope: usize) -> usize
    requires { IsUpTo (length net.now.loops) scope }
    ensures { result ≡ header_of (item_at scope net.now.loops) }
{
    net.loops.as_slice()[scope - 1].header as usize
}

/// The bound of a loop instance.
pub fn bound(net: &Net, scope: usize) -> u32
    requires { IsUpTo (length net.now.loops) scope }
    ensures { result ≡ bound_of (item_at scope net.now.loops) }
{
    net.loops.as_slice()[scope - 1].bound
}
