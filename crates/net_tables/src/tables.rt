//! The arcs out of and into each place, and the accesses that each place makes.

ghost use Rattle.std.specs.Prelude.{◌≡◌, ◌<◌, ◌≤◌, ◌^◌, All, length, map, IfOk};
ghost use Rattle.flow_net.specs.Numbers.{IsNumberOf, IsNumberOrZero};
ghost use Rattle.net_tables.specs.Tables.{AreAccesses, AreArcsInto, AreArcsOut};

use crate::numbers::number_lists;
use flow_net::{Access, Net, NetArc};
use std::alloc::{AllocError, Global};
use wcet_io::List;

/// For each place, and for 0, the numbers of the arcs that leave it, rising.
pub fn arcs_out(alloc: Global, net: &Net) -> Result<Vec<List<u32>>, AllocError>
    requires few { length net.now.places < 2 ^ 32 × length net.now.arcs < 2 ^ 32 }
    requires starts { All (λ arc. IsNumberOrZero net.now.places arc.from) net.now.arcs }
    ensures { IfOk result (λ lists. AreArcsOut net.now lists.items) }
{
    let froms = froms_of(alloc, net.arcs.as_slice())?;
    number_lists(alloc, net.places.as_slice().len() as u32, &froms)
}

/// For each place, and for 0, the numbers of the arcs that come to it, rising.
pub fn arcs_into(alloc: Global, net: &Net) -> Result<Vec<List<u32>>, AllocError>
    requires few { length net.now.places < 2 ^ 32 × length net.now.arcs < 2 ^ 32 }
    requires ends { All (λ arc. IsNumberOrZero net.now.places arc.to) net.now.arcs }
    ensures { IfOk result (λ lists. AreArcsInto net.now lists.items) }
{
    let ends = ends_of(alloc, net.arcs.as_slice())?;
    number_lists(alloc, net.places.as_slice().len() as u32, &ends)
}

/// For each place the numbers of its accesses, rising; for 0 there are none. The net need not list the accesses by place.
pub fn accesses_at(alloc: Global, net: &Net) -> Result<Vec<List<u32>>, AllocError>
    requires few { length net.now.places < 2 ^ 32 × length net.now.accesses < 2 ^ 32 }
    requires places { All (λ access. IsNumberOf net.now.places access.place) net.now.accesses }
    ensures { IfOk result (λ lists. AreAccesses net.now lists.items) }
{
    let places = places_of(alloc, net.accesses.as_slice())?;
    number_lists(alloc, net.places.as_slice().len() as u32, &places)
}

/// Where each arc comes from.
fn froms_of(alloc: Global, arcs: &[NetArc]) -> Result<Vec<u32>, AllocError>
    ensures { IfOk result (λ froms. froms.items ≡ map (λ arc. arc.from) arcs.now) }
{
    arcs.iter().map(|arc| arc.from).collect(alloc)
}

/// Where each arc goes to.
fn ends_of(alloc: Global, arcs: &[NetArc]) -> Result<Vec<u32>, AllocError>
    ensures { IfOk result (λ ends. ends.items ≡ map (λ arc. arc.to) arcs.now) }
{
    arcs.iter().map(|arc| arc.to).collect(alloc)
}

/// Which place makes each access.
fn places_of(alloc: Global, accesses: &[Access]) -> Result<Vec<u32>, AllocError>
    ensures { IfOk result (λ places. places.items ≡ map (λ access. access.place) accesses.now) }
{
    accesses.iter().map(|access| access.place).collect(alloc)
}
