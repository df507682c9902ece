//! How deep each place lies in loops.

ghost use Rattle.std.specs.Prelude.{◌≡◌, ℕ, ◌+◌, ◌<◌, ◌≤◌, ◌^◌, ◌-◌, min, All, length, slice_get, Some, IfOk};
ghost use Rattle.flow_net.specs.Numbers.{IsNumberOrZero};
ghost use Rattle.flow_net.specs.Scopes.{ChainsEnd, HasScopes};
ghost use Rattle.net_tables.specs.Tables.{AreDepths, HasDepth, IsCapDepth};

use flow_net::{LoopInst, Net};
use std::alloc::{AllocError, Global};

/// How many loop instances lie around a scope, itself among them, up to the greatest number of the type.
fn depth_of(loops: &[LoopInst], scope: u32) -> u32
    requires scope { IsNumberOrZero loops.now scope }
    requires loops { All (λ inst. IsNumberOrZero loops.now inst.outer) loops.now }
    requires chains { ChainsEnd loops.now }
    ensures { IsCapDepth loops.now scope result }
{
    let mut depth: u32 = 0;
    let mut around = scope;
    while around != 0 {
        depth = depth.saturating_add(1);
        around = loops[around as usize - 1].outer;
    }
    depth
}

/// For each place how many loop instances hold it, in the order of the places. It takes a step for each of them.
pub fn depths_of(alloc: Global, net: &Net) -> Result<Vec<u32>, AllocError>
    requires { HasScopes net.now }
    ensures { IfOk result (λ depths. AreDepths net.now depths.items) }
{
    let mut depths = Vec::with_capacity(alloc, net.places.as_slice().len())?;
    for place in net.places.as_slice() {
        depths.push(depth_of(net.loops.as_slice(), place.scope))?;
    }
    Ok(depths)
}
