//! Finding the loops of functions.

ghost use Rattle.std.specs.Prelude.{◌≡◌, ◌⊎◌, [], ℕ, IfErr, IfOk, IfSome, Some};
ghost use Rattle.std.specs.BTreeMap.{get};
ghost use Rattle.std.specs.Ordering.{nat_cmp};
ghost use Rattle.net_model.specs.Faults.{HasNoFault};
ghost use Rattle.unit_graph.specs.Graphs.{AreGraphs, HasImage, HaveImage, OfImage, OfTheirImage};
ghost use Rattle.unit_graph.specs.Firsts.{IsNoEarlier};

use crate::listing::Listed;
use crate::nest::{Loop, Nests};
use crate::plan::{Found, find_in, plan_of};
use crate::recorded::recorded_bounds;
use elf_mips::Image;
use std::alloc::{AllocError, Global};
use std::collections::BTreeMap;
use unit_graph::{CodeFault, CodeKind, Graph, Graphs, Offence, earlier};
use wcet_io::List;

/// What a function's loops come to.
#[derive(Debug, Drop)]
enum Answer {
    /// By rising headers.
    Loops(List<Loop>),
    /// The kind of their fault and its address.
    Fault(CodeKind, u32),
}

ghost use Rattle.loop_nest.specs.Bounds.{AreRecorded};
ghost use Rattle.loop_nest.specs.Plans.{IsAnswer};
ghost use Rattle.loop_nest.specs.Programs.{AreNests, IsFoundIn, TellsFault};

/// The loops of a function, or their fault.
fn answer_of(
    alloc: Global,
    graph: &Graph,
    recorded: &BTreeMap<u64, u32>,
) -> Result<Answer, AllocError>
    requires { HasImage graph.now }
    ensures { IfOk result (λ answer. OfImage graph.now (λ image function.
        AreRecorded image.marks (get nat_cmp recorded.now) → IsAnswer image function answer)) }
{
    let plan = plan_of(alloc, graph)?;
    match find_in(alloc, graph, &plan, recorded)? {
        Found::Irregular(position) => Ok(Answer::Fault(
            CodeKind::Irreducible,
            plan.addresses[position],
        )),
        Found::Regular(Listed::Unbounded(header)) => Ok(Answer::Fault(
            CodeKind::NoBound,
            plan.addresses[header],
        )),
        Found::Regular(Listed::Loops(loops)) => Ok(Answer::Loops(loops)),
    }
}

/// The first one of two faults, where there may be one so far.
fn first_of(first: Option<Offence>, offence: Offence) -> Offence
    ensures either { (first ≡ Some result) ⊎ (result ≡ offence) }
    ensures new { IsNoEarlier result offence.kind offence.place }
    ensures old { IfSome first (λ other. IsNoEarlier result other.kind other.place) }
{
    match first {
        Some(first) => earlier(first, offence),
        None => offence,
    }
}

/// Lists the loops of these functions, and gives the first fault.
fn nests_in(
    alloc: Global,
    graphs: &[Graph],
    recorded: &BTreeMap<u64, u32>,
    nests: &mut List<List<Loop>>,
) -> Result<Option<Offence>, AllocError>
    requires graphs { HaveImage graphs.now }
    requires empty { nests.old ≡ [] }
    ensures { IfOk result (λ first. OfTheirImage graphs.now (λ image.
        AreRecorded image.marks (get nat_cmp recorded.now) → IsFoundIn image graphs.now nests.new first)) }
{
    let mut first = None;
    for graph in graphs {
        let (kind, place) = match answer_of(alloc, graph, recorded)? {
            Answer::Loops(loops) => {
                nests.push(loops)?;
                continue;
            }
            Answer::Fault(kind, place) => (kind, place),
        };
        first = Some(first_of(first, Offence { kind, place }));
    }
    Ok(first)
}

/// The loops of each function, with the bounds that the image's records give, in the order of the graphs.
///
/// `Bad` is the least unit that lies on a cycle that has no back arc in some function, or else the least
/// header of a loop without a bound. The records are looked at once. A function takes time in proportion to
/// its units and arcs and to the bodies of its loops, thus to its units times the depth of its loops, but
/// for sorting and for looking up addresses. Only where some unit of it lies on a cycle that has no back arc,
/// it is searched once more for each header that a way into its cycle passes by.
pub fn find_loops(alloc: Global, graphs: &Graphs, image: &Image) -> Result<Nests, CodeFault>
    requires graphs { (entry : ℕ) × AreGraphs image.now entry graphs.now × HasNoFault image.now entry }
    ensures nests { IfOk result (AreNests image.now graphs.now) }
    ensures bad { IfErr result (λ fault. (entry : ℕ) → AreGraphs image.now entry graphs.now →
        TellsFault image.now entry fault) }
{
    let recorded = recorded_bounds(alloc, image.marks.as_slice())?;
    let mut nests = List::new(alloc);
    if let Some(first) = nests_in(alloc, graphs.graphs.as_slice(), &recorded, &mut nests)? {
        return Err(CodeFault::Bad {
            kind: first.kind,
            address: first.place,
        });
    }
    Ok(Nests { nests })
}
