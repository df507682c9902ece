//! The analysis of the program at an entry of an image.

ghost use Rattle.std.specs.Prelude.{IfErr, IfOk};
ghost use Rattle.call_contexts.specs.Programs.{IsProgram};
ghost use Rattle.elf_mips.specs.declared.image.Image.{Image};
ghost use Rattle.wcet_engine.specs.FileFaults.{IsUnbuilt};
ghost use Rattle.wcet_engine.specs.ProgramFaults.{IsAnalysisOf, TellsFaultIn};
ghost use Rattle.wcet_engine.specs.Stages.{IsNetOf, TellsNoNet};

use crate::analysis::{Analysis, Refused};
use crate::certificate::certify;
use crate::refusal::RefusalKind;
use cache_config::Profile;
use call_contexts::{NetFault, expand};
use elf_mips::Image;
use flow_net::Net;
use loop_nest::{Nests, find_loops};
use std::alloc::Global;
use unit_graph::{Graphs, function_graphs};

/// The net of the program at an entry, from the graphs of its functions and their loops.
///
/// `Fault` says that the entry function never returns, or else that there are too many contexts or places.
fn net_of(alloc: Global, entry: u32, graphs: &Graphs, nests: &Nests) -> Result<Net, Refused>
    requires { (image : Image) × IsProgram image entry graphs.now nests.now }
    ensures net { IfOk result (λ net. (image : Image) →
        IsProgram image entry graphs.now nests.now → IsNetOf image entry net) }
    ensures bad { IfErr result (λ e. (image : Image) →
        IsProgram image entry graphs.now nests.now → TellsNoNet image entry e) }
{
    match expand(alloc, graphs, nests) {
        Ok(net) => Ok(net),
        Err(NetFault::NeverReturns) => Err(Refused::at(RefusalKind::NeverReturns, entry)),
        Err(NetFault::TooMany { .. }) => Err(Refused::at(RefusalKind::TooManyUnits, entry)),
        Err(NetFault::Memory) => Err(Refused::Memory),
    }
}

/// Analyses the program that begins at an entry of an image, under a profile without caches.
///
/// `Fault` is the first fault of this program with its place: a kind from `WritableCode` on.
pub fn analyse_program(
    alloc: Global,
    image: &Image,
    profile: &Profile,
    entry: u32,
) -> Result<Analysis, Refused>
    requires { IsUnbuilt profile.now → ⊥ }
    ensures analysed { IfOk result (IsAnalysisOf image.now profile.now entry) }
    ensures refused { IfErr result (TellsFaultIn image.now profile.now entry) }
{
    let graphs = function_graphs(alloc, image, entry)?;
    let nests = find_loops(alloc, &graphs, image)?;
    let net = net_of(alloc, entry, &graphs, &nests)?;
    let certificate = certify(alloc, image, profile, entry, &net)?;
    Ok(Analysis { net, certificate })
}
