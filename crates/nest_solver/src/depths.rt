//! How deep the scopes of a net lie.

ghost use Rattle.std.specs.Prelude.{◌≡◌, ℕ, ◌+◌, ◌<◌, ◌≤◌, ◌^◌, IfOk, length, vec_len};
ghost use Rattle.flow_net.specs.Nested.{IsNested};
ghost use Rattle.nest_solver.specs.Depths.{IsDeep};
ghost use Rattle.nest_solver.specs.Nets.{HasDepths, entry};
ghost use Rattle.nest_solver.specs.Tables.{IsFew};

use crate::reads::outer;
use flow_net::Net;
use std::alloc::{AllocError, Global};

/// How many loop instances are round a scope, itself among them, by the chain from it outward.
fn depth_of(net: &Net, inner: usize) -> usize
    requires inner { inner ≤ length net.now.loops }
    requires nested { IsNested net.now }
    requires few { IsFew net.now }
    ensures deep { IsDeep net.now.loops inner result }
    ensures small { result ≤ length net.now.loops + 1 }
{
    let mut depth = 0;
    let mut scope = inner;
    while scope != 0 {
        depth += 1;
        scope = outer(net, scope);
    }
    depth
}

/// The depth of each scope, in a step for each scope round each of them.
pub fn depths_of(alloc: Global, net: &Net) -> Result<Vec<usize>, AllocError>
    requires nested { IsNested net.now }
    requires few { IsFew net.now }
    ensures depths { IfOk result (λ depths. HasDepths net.now (entry depths.items)) }
    ensures small { IfOk result (λ depths. (scope : ℕ) → entry depths.items scope ≤ length net.now.loops + 1) }
    ensures count { IfOk result (λ depths. length depths.items ≡ length net.now.loops + 1) }
{
    let mut depths = Vec::new(alloc);
    for scope in 0..net.loops.as_slice().len() + 1 {
        depths.push(depth_of(net, scope))?;
    }
    Ok(depths)
}
