//! The scopes of a net by their depths.

ghost use Rattle.std.specs.Prelude.{◌≡◌, ℕ, ◌+◌, ◌≤◌, IfOk, length};
ghost use Rattle.flow_net.specs.Nested.{IsNested};
ghost use Rattle.nest_solver.specs.Tables.{IsFew};
ghost use Rattle.nest_solver.specs.Up.{AreScopes};

use crate::depths::depths_of;
use crate::groups::group;
use flow_net::Net;
use std::alloc::{AllocError, Global};

/// The depth of each scope, and the loop instances of each depth as a chain.
#[derive(Drop)]
pub struct Scopes {
    /// Of each scope how many loop instances are round it, itself among them; the run has 0.
    pub depths: Vec<usize>,
    /// Of each depth the greatest loop instance, 0 for none.
    pub heads: Vec<usize>,
    /// Of each loop instance the next less one of its depth, 0 for none.
    pub next: Vec<usize>,
}

/// The scopes of a net, in a step for each scope round each of them.
pub fn scopes_of(alloc: Global, net: &Net) -> Result<Scopes, AllocError>
    requires nested { IsNested net.now }
    requires few { IsFew net.now }
    ensures scopes { IfOk result (λ scopes. AreScopes net.now scopes) }
{
    let count = net.loops.as_slice().len();
    let depths = depths_of(alloc, net)?;
    let mut heads = vec![in alloc; 0; count + 2]?;
    let mut next = vec![in alloc; 0; count + 1]?;
    group(&depths, &mut heads, &mut next);
    Ok(Scopes {
        depths,
        heads,
        next,
    })
}
