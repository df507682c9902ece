//! The loops of one depth round the scopes of a net.

ghost use Rattle.std.specs.Prelude.{◌≡◌, ℕ, ◌+◌, ◌<◌, ◌≤◌, length};
ghost use Rattle.flow_net.specs.Nested.{IsNested};
ghost use Rattle.flow_net.specs.Numbers.{item_at};
ghost use Rattle.nest_solver.specs.Nets.{AreUp, entry, outer_of, up_step};
ghost use Rattle.nest_solver.specs.Shape.{IsUpTo};
ghost use Rattle.nest_solver.specs.Up.{AreRight, AreScopes};

use crate::reads::outer;
use crate::scopes::Scopes;
use flow_net::Net;

/// The scope of a depth round another one, by what is known of the next scope outward.
fn up_from(net: &Net, scopes: &Scopes, depth: usize, scope: usize, up: &[usize]) -> usize
    requires nested { IsNested net.now }
    requires scopes { AreScopes net.now scopes.now }
    requires scope { IsUpTo (length net.now.loops) scope }
    requires room { length up.now ≡ length net.now.loops + 1 }
    ensures up { result ≡ up_step (entry scopes.now.depths.items scope) depth scope
        (entry up.now (outer_of (item_at scope net.now.loops))) }
{
    let deep = scopes.depths[scope];
    if deep == depth {
        return scope;
    }
    if deep > depth {
        return up[outer(net, scope)];
    }
    0
}

/// Finds the scopes of a depth round the loop instances that lie at a level, behind those of lower levels.
fn up_level(net: &Net, scopes: &Scopes, level: usize, depth: usize, up: &mut [usize])
    requires nested { IsNested net.now }
    requires scopes { AreScopes net.now scopes.now }
    requires level { 0 < level }
    requires within { level < length net.now.loops + 2 }
    requires room { length up.old ≡ length net.now.loops + 1 }
    requires run { entry up.old 0 ≡ 0 }
    requires right { AreRight net.now (entry scopes.now.depths.items) depth (entry up.old) level
        (length net.now.loops) }
    ensures run { entry up.new 0 ≡ 0 }
    ensures right { AreRight net.now (entry scopes.now.depths.items) depth (entry up.new) level 0 }
{
    let mut scope = scopes.heads[level];
    while scope != 0 {
        up[scope] = up_from(net, scopes, depth, scope, up);
        scope = scopes.next[scope];
    }
}

/// Finds the scope of a depth round each scope, in a step for each.
pub fn up_of(net: &Net, scopes: &Scopes, depth: usize, up: &mut [usize])
    requires nested { IsNested net.now }
    requires scopes { AreScopes net.now scopes.now }
    requires room { length up.old ≡ length net.now.loops + 1 }
    ensures up { AreUp net.now (entry scopes.now.depths.items) depth (entry up.new) }
{
    up[0] = 0;
    for level in 1..scopes.heads.len() {
        up_level(net, scopes, level, depth, up);
    }
}
