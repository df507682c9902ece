//! The net of a program.

ghost use Rattle.std.specs.Prelude.{suc, ◌≡◌, ◌≤◌, ◌^◌, length, slice_get, List, Some, IfErr, IfOk, OnOk};
ghost use Rattle.elf_mips.specs.Segments.{code_at};
ghost use Rattle.flow_net.specs.Nested.{IsNested};
ghost use Rattle.flow_net.specs.declared.net.Context.{Context};
ghost use Rattle.mips_decode.specs.State.{State};
ghost use Rattle.net_model.specs.Functions.{CanReturn};
ghost use Rattle.net_model.specs.Net.{HasUnits, IsNet};
ghost use Rattle.net_model.specs.Runs.{GoesAlong, IsKeptRun};
ghost use Rattle.call_contexts.specs.Instances.{IsLayoutOf, OfLayout};
ghost use Rattle.call_contexts.specs.Programs.{TellsFault, AreOfProgram, OfProgram};
ghost use Rattle.call_contexts.specs.Sizes.{AreSizes, most_contexts, most_places};

use crate::accesses::accesses_of;
use crate::arcs::arcs_of;
use crate::fault::NetFault;
use crate::instances::instances_of;
use crate::layout::{Layout, layout_of};
use crate::spots::places_of;
use flow_net::{Context, Net};
use loop_nest::Nests;
use std::alloc::{AllocError, Global};
use unit_graph::Graphs;
use wcet_io::List;

/// The contexts as a list.
fn listed(alloc: Global, contexts: &[Context]) -> Result<List<Context>, AllocError>
    ensures { IfOk result (λ (list : List Context). list ≡ contexts.now) }
{
    let mut list = List::new(alloc);
    for context in contexts {
        list.push(*context)?;
    }
    Ok(list)
}

/// The net of a program whose contexts are laid out.
fn net_of(alloc: Global, graphs: &Graphs, nests: &Nests, layout: &Layout) -> Result<Net, AllocError>
    requires { IsLayoutOf graphs.now nests.now layout.now }
    ensures net { IfOk result (λ net. OfLayout graphs.now nests.now layout.now (λ image entry. IsNet image entry net)) }
    ensures units { IfOk result (λ net. OfLayout graphs.now nests.now layout.now (λ image entry. HasUnits image net)) }
    ensures few { IfOk result (λ net. length net.arcs ≤ 2 ^ 25) }
    ensures contexts { IfOk result (λ net. net.contexts ≡ layout.now.contexts.keys) }
    ensures places { IfOk result (λ net.
        slice_get layout.now.bases.items (length layout.now.contexts.keys) ≡ Some (suc (length net.places))) }
{
    let made = instances_of(alloc, graphs, nests, layout)?;
    let places = places_of(alloc, graphs, layout, &made.scopes)?;
    let arcs = arcs_of(alloc, graphs, layout)?;
    let accesses = accesses_of(alloc, graphs, layout, &places)?;
    let contexts = listed(alloc, layout.contexts.as_slice())?;
    Ok(Net {
        contexts,
        places: List::from_vec(places),
        arcs: List::from_vec(arcs),
        loops: made.instances,
        accesses: List::from_vec(accesses),
    })
}

/// The net of a program, from the graphs of its functions and their loops: each function has a context for each
/// way by calls to it.
///
/// `NeverReturns` and `TooMany` come in this order; the numbers of contexts and places are counted before
/// anything is made. It takes time in proportion to the places, their arcs and the units in the bodies of
/// the functions' loops, times a logarithm.
pub fn expand(alloc: Global, graphs: &Graphs, nests: &Nests) -> Result<Net, NetFault>
    requires { AreOfProgram graphs.now nests.now }
    ensures net { IfOk result (λ net. OfProgram graphs.now nests.now (λ image entry. IsNet image entry net)) }
    ensures nested { IfOk result (λ net. IsNested net) }
    ensures units { IfOk result (λ net. OfProgram graphs.now nests.now (λ image entry. HasUnits image net)) }
    ensures few { IfOk result (λ net. length net.arcs ≤ 2 ^ 25) }
    ensures contexts { IfOk result (λ net. length net.contexts ≤ most_contexts) }
    ensures places { IfOk result (λ net. length net.places ≤ most_places) }
    ensures sizes { IfOk result (λ net. OfProgram graphs.now nests.now (λ image entry.
        AreSizes image entry (length net.contexts) (length net.places))) }
    ensures returns { OnOk result (OfProgram graphs.now nests.now (λ image entry. CanReturn image entry)) }
    // Every run whose indirect transfers go to recorded targets and which returns to its callers goes along a path
    // of the net.
    ensures paths { IfOk result (λ net. OfProgram graphs.now nests.now (λ image entry.
        (s : State) (states : List State) → IsKeptRun image entry s states →
        GoesAlong net (code_at image.segments) s states)) }
    ensures bad { IfErr result (λ fault. OfProgram graphs.now nests.now (λ image entry. TellsFault image entry fault)) }
{
    let layout = layout_of(alloc, graphs)?;
    let net = net_of(alloc, graphs, nests, &layout)?;
    Ok(net)
}
