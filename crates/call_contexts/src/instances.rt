//! The loop instances of a program's contexts.

ghost use Rattle.std.specs.Prelude.{◌≡◌, ◌+◌, ◌^◌, ◌<◌, ◌≤◌, ℕ, suc, Contains, Some, length, slice_get, IfOk, OnOk};
ghost use Rattle.net_model.specs.Instances.{HasInstances};
ghost use Rattle.call_contexts.specs.Around.{AreNearest, AreOfFunction};

use crate::around::{Rounds, all_rounds};
use crate::index::position_of;
use crate::layout::Layout;
use crate::scopes::{firsts_of, scope_by, scopes_of};
use flow_net::{LoopInst, Net};
use loop_nest::{Loop, Nests};
use std::alloc::{AllocError, Global};
use unit_graph::{Graphs, Unit};
use wcet_io::List;

/// The loop instances of a program and the scopes of its places.
#[derive(Debug, Drop)]
pub struct Instances {
    /// The instances, by their contexts and the addresses of their headers.
    pub instances: List<LoopInst>,
    /// For each place in its turn the number of the innermost instance that holds it, or 0.
    pub scopes: Vec<u32>,
}

ghost use Rattle.call_contexts.specs.Instances.{AddsInstances, AreInstances, HasScopes, IsInstanceBy, AreRoundsOf};
ghost use Rattle.call_contexts.specs.Instances.{IsLayoutOf, OfLayout};

/// Where a context's places and loop instances begin, and the scope round it.
#[derive(Clone, Copy, Debug)]
struct Frame {
    /// The number of its first place.
    base: u32,
    /// How many loop instances the earlier contexts have.
    first: u32,
    /// The scope of the call that made it, or 0.
    outer: u32,
}

/// The instance of a loop in a context.
fn instance_of(
    units: &[Unit],
    loops: &[Loop],
    around: &[Option<usize>],
    frame: Frame,
    one: &Loop,
) -> LoopInst
    requires function { AreOfFunction units.now loops.now }
    requires among { Contains loops.now one.now }
    requires around { AreNearest units.now loops.now (length loops.now) around.now }
    requires places { frame.base + length units.now ≤ 2 ^ 31 }
    requires instances { frame.first + length loops.now ≤ 2 ^ 31 }
    ensures { IsInstanceBy units.now loops.now frame.base frame.first frame.outer one.now result }
{
    let position = position_of(units, one.header);
    LoopInst {
        header: frame.base + position as u32,
        bound: one.bound,
        outer: scope_by(frame.first, frame.outer, around[position]),
    }
}

/// Adds the instances of the loops in a context, in their order.
fn add_instances(
    instances: &mut List<LoopInst>,
    units: &[Unit],
    loops: &[Loop],
    around: &[Option<usize>],
    frame: Frame,
) -> Result<(), AllocError>
    requires function { AreOfFunction units.now loops.now }
    requires around { AreNearest units.now loops.now (length loops.now) around.now }
    requires places { frame.base + length units.now ≤ 2 ^ 31 }
    requires instances { frame.first + length loops.now ≤ 2 ^ 31 }
    ensures { OnOk result (AddsInstances units.now loops.now frame.base frame.first frame.outer (length loops.now)
        instances.old instances.new) }
{
    for one in loops {
        instances.push(instance_of(units, loops, around, frame, one))?;
    }
    Ok(())
}

/// The instances of the loops in all contexts.
fn all_instances(
    alloc: Global,
    graphs: &Graphs,
    nests: &Nests,
    layout: &Layout,
    rounds: &[Rounds],
    firsts: &[u32],
    outers: &[u32],
) -> Result<List<LoopInst>, AllocError>
    requires program { AreRoundsOf graphs.now nests.now layout.now rounds.now firsts.now }
    requires outers { length outers.now ≡ length layout.now.contexts.keys }
    ensures { IfOk result (λ instances. AreInstances graphs.now.graphs nests.now.nests layout.now firsts.now outers.now
        (length layout.now.contexts.keys) instances) }
{
    let graphs = graphs.graphs.as_slice();
    let nests = nests.nests.as_slice();
    let mut instances = List::new(alloc);
    for number in 0..layout.functions.len() {
        let function = layout.functions[number];
        let frame = Frame {
            base: layout.bases[number],
            first: firsts[number],
            outer: outers[number],
        };
        let units = graphs[function].units.as_slice();
        let loops = nests[function].as_slice();
        add_instances(
            &mut instances,
            units,
            loops,
            rounds[function].around.as_slice(),
            frame,
        )?;
    }
    Ok(instances)
}

/// The loop instances of a program and the scopes of its places.
///
/// The loops round the units of each function are found once. Further on it takes time in proportion to the
/// places and the loop instances, and to the logarithm of the units of a function for each loop instance and
/// each context.
pub fn instances_of(
    alloc: Global,
    graphs: &Graphs,
    nests: &Nests,
    layout: &Layout,
) -> Result<Instances, AllocError>
    requires { IsLayoutOf graphs.now nests.now layout.now }
    ensures scopes { IfOk result (λ made.
        slice_get layout.now.bases.items (length layout.now.contexts.keys) ≡ Some (suc (length made.scopes.items))) }
    // Each net with these contexts and places, loop instances and scopes has just the instances of its loops.
    ensures instances { IfOk result (λ made. OfLayout graphs.now nests.now layout.now (λ image entry.
        (net : Net) → HasScopes graphs.now.graphs layout.now made net → HasInstances image net)) }
{
    let rounds = all_rounds(alloc, graphs, nests)?;
    let firsts = firsts_of(alloc, graphs, nests, layout)?;
    let scoped = scopes_of(alloc, graphs, layout, &rounds, &firsts)?;
    let instances = all_instances(
        alloc,
        graphs,
        nests,
        layout,
        &rounds,
        &firsts,
        &scoped.outers,
    )?;
    Ok(Instances {
        instances,
        scopes: scoped.scopes,
    })
}
