//! From a net to its program.

ghost use Rattle.std.specs.Prelude.{◌≡◌, ◌*◌, ◌≤◌, ◌<◌, ◌^◌, All, IfErr, IfOk, length};
ghost use Rattle.flow_net.specs.Nested.{IsNested};
ghost use Rattle.ipet_program.specs.Faults.{TellsTooLarge};
ghost use Rattle.age_model.specs.Classes.{HasRows};
ghost use Rattle.ipet_program.specs.Programs.{FitsImage, IsCheckable, IsFlowProgram, full_price};
ghost use Rattle.ipet_program.specs.Staged.{IsStagedFor};
ghost use Rattle.ipet_program.specs.Walked.{CountsWalks};
ghost use Rattle.ipet_program.specs.Tables.{AreLow, AreTurns, HasParts, IsPrice};

use crate::arcs::{caps_of, values_of};
use crate::crude::crude_of;
use crate::fault::BuildFault;
use crate::prices::{full_prices_of, prices_of};
use crate::program::Program;
use crate::rows::rows_of;
use crate::stages::further_stages;
use crate::staging::with_stages;
use crate::turns::turns_of;
use cache_config::Profile;
use elf_mips::Image;
use flow_net::{ClassTable, Net};
use std::alloc::{AllocError, Global};
use wcet_io::List;

/// The greatest crude bound of a program that is built: 2^63 - 1.
const CRUDE_LIMIT: u128 = 0x7FFF_FFFF_FFFF_FFFF;

/// The plain part of the program of a net, of the tables of its places' prices and of its loop instances' turns.
fn program_of(
    alloc: Global,
    net: &Net,
    prices: &[u64],
    turns: &[u128],
) -> Result<Program, AllocError>
    requires nested { IsNested net.now }
    requires few { length net.now.arcs ≤ 2 ^ 28 }
    requires bounds { All (λ inst. inst.bound < 2 ^ 32) net.now.loops }
    requires count { length prices.now ≡ length net.now.places }
    requires priced { All IsPrice prices.now }
    requires turns { AreTurns net.now.loops turns.now }
    requires low { AreLow net.now }
    ensures parts { IfOk result (HasParts net.now prices.now) }
    ensures checkable { IfOk result IsCheckable }
{
    let rows = rows_of(alloc, net)?;
    let value = values_of(alloc, net, prices)?;
    let caps = caps_of(alloc, net, turns)?;
    Ok(Program {
        columns: net.arcs.as_slice().len() as u32,
        rows,
        value,
        caps,
        stages: List::new(alloc),
    })
}

/// The program of a net and its classes under a profile: a column for each arc and for each further stage of an
/// access, a row for the entry, for each place and for each loop instance, and the rows of the stages, in time in
/// proportion to the program and to the loops round the net's places.
///
/// Each place stands for a unit of the image, and costs that unit's cycles with the first stage of each access; a stage
/// costs its latency. It is refused where the crude bound, the sum of what all places cost with all stages, taken as
/// often as the loops round them let them be visited, is above 2^63 - 1, and for want of memory.
pub fn build(
    alloc: Global,
    net: &Net,
    classes: &ClassTable,
    profile: &Profile,
    image: &Image,
) -> Result<Program, BuildFault>
    requires nested { IsNested net.now }
    requires fits { FitsImage image.now net.now }
    requires few { length net.now.arcs ≤ 2 ^ 25 }
    requires made { length net.now.accesses ≤ 3 * 2 ^ 16 }
    requires rows { HasRows net.now profile.now.levels classes.now }
    ensures program { IfOk result (IsFlowProgram net.now classes.now profile.now image.now) }
    // A run whose classes hold has feasible counts, and their value is its cycles.
    ensures counted { IfOk result (CountsWalks net.now classes.now profile.now image.now) }
    // Whatever the classes are, it is a plain part with stages in the order of their columns.
    ensures staged { IfOk result (IsStagedFor net.now profile.now image.now) }
    ensures checkable { IfOk result IsCheckable }
    ensures too_large { IfErr result (TellsTooLarge net.now (full_price profile.now image.now net.now)) }
{
    let full = full_prices_of(alloc, net, profile, image)?;
    let turns = turns_of(alloc, net.loops.as_slice())?;
    let crude = crude_of(net, &full, &turns);
    if crude > CRUDE_LIMIT {
        return Err(BuildFault::TooLarge { crude });
    }
    let prices = prices_of(alloc, net, profile, image)?;
    let plain = program_of(alloc, net, &prices, &turns)?;
    let stages = further_stages(alloc, net, classes, profile)?;
    let program = with_stages(alloc, net, &turns, plain, stages)?;
    Ok(program)
}
