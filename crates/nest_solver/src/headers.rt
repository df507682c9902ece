//! Which places are headers, and which arcs go back to them.

ghost use Rattle.std.specs.Prelude.{◌≡◌, ℕ, ◌+◌, ◌<◌, ◌≤◌, IfOk, length, false, slice_index_or};
ghost use Rattle.flow_net.specs.Nested.{IsNested};
ghost use Rattle.nest_solver.specs.Nets.{HasHeaders, entry};
ghost use Rattle.nest_solver.specs.Shape.{IsUpTo};
ghost use Rattle.nest_solver.specs.Tables.{AreBacks, IsFew, goes_back};

use crate::reads::{header, source, target};
use flow_net::Net;
use std::alloc::{AllocError, Global};

/// Puts the number of each loop instance at its header, in an empty table.
fn mark_headers(net: &Net, headed: &mut [usize])
    requires nested { IsNested net.now }
    requires room { length headed.old ≡ length net.now.places + 1 }
    requires fresh { (place : ℕ) → entry headed.old place ≡ 0 }
    ensures headers { HasHeaders net.now (entry headed.new) }
{
    for scope in 1..net.loops.as_slice().len() + 1 {
        headed[header(net, scope)] = scope;
    }
}

/// The loop instance whose header each place is, 0 for none.
pub fn headed_of(alloc: Global, net: &Net) -> Result<Vec<usize>, AllocError>
    requires nested { IsNested net.now }
    ensures headers { IfOk result (λ headed. HasHeaders net.now (entry headed.items)) }
    ensures count { IfOk result (λ headed. length headed.items ≡ length net.now.places + 1) }
{
    let mut headed = vec![in alloc; 0; net.places.as_slice().len() + 1]?;
    mark_headers(net, &mut headed);
    Ok(headed)
}

/// Whether an arc goes back to the header of a loop that holds its source, by the chain of scopes round that.
fn returns(net: &Net, headed: &[usize], arc: usize) -> bool
    requires nested { IsNested net.now }
    requires headed { HasHeaders net.now (entry headed.now) }
    requires room { length headed.now ≡ length net.now.places + 1 }
    requires arc { IsUpTo (length net.now.arcs) arc }
    requires few { IsFew net.now }
    ensures back { result ≡ goes_back net.now (entry headed.now) arc }
{
    let scope = headed[target(net, arc)];
    if scope == 0 {
        return false;
    }
    let from = source(net, arc);
    if from == 0 {
        return false;
    }
    net.held(from as u32, scope as u32)
}

/// Which arcs go back.
pub fn backs_of(alloc: Global, net: &Net, headed: &[usize]) -> Result<Vec<bool>, AllocError>
    requires nested { IsNested net.now }
    requires headed { HasHeaders net.now (entry headed.now) }
    requires room { length headed.now ≡ length net.now.places + 1 }
    requires few { IsFew net.now }
    ensures backs { IfOk result (λ backs. AreBacks net.now (entry headed.now) backs.items) }
{
    let mut backs = Vec::new(alloc);
    backs.push(false)?;
    for arc in 1..net.arcs.as_slice().len() + 1 {
        backs.push(returns(net, headed, arc))?;
    }
    Ok(backs)
}
