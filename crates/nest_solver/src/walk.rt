//! Walks along the arcs that a sweep chose.

ghost use Rattle.std.specs.Prelude.{◌≡◌, ℕ, ◌+◌, ◌^◌, ◌<◌, ◌≤◌, length, slice_set};
ghost use Rattle.flow_net.specs.Nested.{IsNested};
ghost use Rattle.nest_solver.specs.Nets.{entry};
ghost use Rattle.nest_solver.specs.Plain.{AreTables, plain};
ghost use Rattle.nest_solver.specs.Tables.{IsFew};
ghost use Rattle.nest_solver.specs.Walks.{IsWalkable, IsWalked};

use crate::reads::target;
use crate::sweep::ends;
use crate::tables::Tables;
use flow_net::Net;

/// Counts the arc that was chosen at a place so many times more, and gives its number.
fn pass(choice: &[usize], place: usize, often: u64, counts: &mut [u64]) -> usize
    requires place { place < length choice.now }
    requires within { entry choice.now place < length counts.old }
    requires room { entry counts.old (entry choice.now place) + often < 2 ^ 64 }
    ensures arc { result ≡ entry choice.now place }
    ensures counts { counts.new ≡ slice_set counts.old result (entry counts.old result + often) }
{
    let arc = choice[place];
    counts[arc] += often;
    arc
}

/// Counts the arcs of the way that was chosen from a place so many times more.
pub fn walk(
    net: &Net,
    tables: &Tables,
    depth: usize,
    choice: &[usize],
    from: usize,
    often: u64,
    counts: &mut [u64],
)
    requires nested { IsNested net.now }
    requires few { IsFew net.now }
    requires tables { AreTables net.now tables.now }
    requires choice { length choice.now ≡ length net.now.places + 1 }
    requires counts { length counts.old ≡ length net.now.arcs + 1 }
    requires from { from ≤ length net.now.places }
    requires walkable { IsWalkable (plain net.now tables.now) depth (entry choice.now) from often (entry counts.old) }
    ensures walked { IsWalked (plain net.now tables.now) depth (entry choice.now) from often (entry counts.old)
        (entry counts.new) }
{
    let mut arc = pass(choice, from, often, counts);
    while !ends(net, tables, depth, arc) {
        arc = pass(choice, target(net, arc), often, counts);
    }
}
