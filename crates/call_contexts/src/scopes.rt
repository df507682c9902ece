//! The scopes of the places of a program's contexts.

ghost use Rattle.std.specs.Prelude.{◌≡◌, ◌+◌, ◌^◌, ◌<◌, ◌++◌, ℕ, All, Some, length, map, slice_get, IfOk, IfSome, OnOk};
ghost use Rattle.call_contexts.specs.Instances.{AreFirsts, AreScopes, IsRoundContext, scope_by, AreRoundsFor};
ghost use Rattle.call_contexts.specs.Instances.{IsLaidFor, IsLayoutOf, OfRounds};

use crate::around::Rounds;
use crate::layout::Layout;
use crate::spots::number_at;
use flow_net::Context;
use loop_nest::Nests;
use std::alloc::{AllocError, Global};
use unit_graph::Graphs;

/// For each context how many loop instances the earlier contexts have, and behind them how many all have.
pub fn firsts_of(
    alloc: Global,
    graphs: &Graphs,
    nests: &Nests,
    layout: &Layout,
) -> Result<Vec<u32>, AllocError>
    requires { IsLayoutOf graphs.now nests.now layout.now }
    ensures { IfOk result (λ firsts.
        AreFirsts graphs.now.graphs nests.now.nests layout.now (length layout.now.contexts.keys) firsts.items) }
{
    let mut firsts = Vec::new(alloc);
    let mut next = 0;
    firsts.push(next)?;
    let nests = nests.nests.as_slice();
    for function in &layout.functions {
        let loops = nests[*function].as_slice();
        next += loops.len() as u32;
        firsts.push(next)?;
    }
    Ok(firsts)
}

/// The scope of what a loop of a context's function holds, or none of them: the loop's instance, or the
/// scope round the context.
pub fn scope_by(first: u32, outer: u32, found: Option<usize>) -> u32
    requires { IfSome found (λ at. first + at + 1 < 2 ^ 32) }
    ensures { result ≡ scope_by first outer found }
{
    match found {
        Some(at) => first + at as u32 + 1,
        None => outer,
    }
}

/// Adds the scopes of the places of a context, from the own loops of its units.
fn add_scopes(
    scopes: &mut Vec<u32>,
    own: &[Option<usize>],
    first: u32,
    outer: u32,
) -> Result<(), AllocError>
    requires { All (λ found. IfSome found (λ at. first + at + 1 < 2 ^ 32)) own.now }
    ensures { OnOk result (scopes.new.items ≡ scopes.old.items ++ map (λ found. scope_by first outer found) own.now) }
{
    for found in own {
        scopes.push(scope_by(first, outer, *found))?;
    }
    Ok(())
}

/// The scope round a context, from the scopes of the earlier contexts' places.
fn outer_of(
    graphs: &Graphs,
    layout: &Layout,
    scopes: &[u32],
    number: usize,
    context: &Context,
) -> u32
    requires program { IsLaidFor graphs.now layout.now }
    requires context { slice_get layout.now.contexts.keys number ≡ Some context.now }
    requires filled { slice_get layout.now.bases.items number ≡ Some (length scopes.now + 1) }
    ensures { IsRoundContext graphs.now.graphs layout.now scopes.now number result }
{
    if number == 0 {
        return 0;
    }
    let call = number_at(graphs, layout, context.parent, context.site);
    scopes[call as usize - 1]
}

/// The scopes of a program's places.
#[derive(Debug, Drop)]
pub struct Scopes {
    /// For each context the scope of the call that made it, or 0.
    pub outers: Vec<u32>,
    /// The scope of each place.
    pub scopes: Vec<u32>,
}

/// The scopes of the places of all contexts and those round the contexts, which come behind the contexts
/// that call them.
pub fn scopes_of(
    alloc: Global,
    graphs: &Graphs,
    layout: &Layout,
    rounds: &[Rounds],
    firsts: &[u32],
) -> Result<Scopes, AllocError>
    requires { AreRoundsFor graphs.now layout.now rounds.now firsts.now }
    ensures { IfOk result (λ made. OfRounds graphs.now layout.now rounds.now firsts.now (λ nests.
        AreScopes graphs.now.graphs nests.nests layout.now firsts.now (length layout.now.contexts.keys)
        made.outers.items made.scopes.items)) }
{
    let contexts = layout.contexts.as_slice();
    let mut outers = Vec::new(alloc);
    let mut scopes = Vec::new(alloc);
    for number in 0..contexts.len() {
        let outer = outer_of(graphs, layout, &scopes, number, &contexts[number]);
        let own = rounds[layout.functions[number]].own.as_slice();
        add_scopes(&mut scopes, own, firsts[number], outer)?;
        outers.push(outer)?;
    }
    Ok(Scopes { outers, scopes })
}
