//! Worths of places before any back arc is looked at.

ghost use Rattle.std.specs.Prelude.{◌≡◌, ℕ, ◌+◌, ◌^◌, ◌<◌, ◌≤◌, IfOk, length};
ghost use Rattle.flow_net.specs.Nested.{IsNested};
ghost use Rattle.nest_solver.specs.Bases.{AreRanks, base_by};
ghost use Rattle.nest_solver.specs.Nets.{entry};
ghost use Rattle.nest_solver.specs.Plain.{AreTables};
ghost use Rattle.nest_solver.specs.Tables.{IsFew};

use crate::reads::source;
use crate::tables::Tables;
use flow_net::Net;
use std::alloc::{AllocError, Global};

/// How far the worths of places without a way out are apart: more than any arc weighs.
const STEP: u128 = 1 << 63;

/// Notes the position of the last arc from each place, in an empty table.
fn note_latest(net: &Net, tables: &Tables, latest: &mut [usize])
    requires nested { IsNested net.now }
    requires few { IsFew net.now }
    requires tables { AreTables net.now tables.now }
    requires room { length latest.old ≡ length net.now.places + 1 }
    requires fresh { (p : ℕ) → entry latest.old p ≡ 0 }
    ensures ranks { AreRanks net.now tables.now (entry latest.new) }
{
    for at in 0..tables.order.arcs.len() {
        let arc = tables.order.arcs[at];
        latest[source(net, arc)] = at + 1;
    }
}

/// The position of the last arc from each place: the further behind, the lesser is the place's rank.
pub fn latest_of(alloc: Global, net: &Net, tables: &Tables) -> Result<Vec<usize>, AllocError>
    requires nested { IsNested net.now }
    requires few { IsFew net.now }
    requires tables { AreTables net.now tables.now }
    ensures count { IfOk result (λ latest. length latest.items ≡ length net.now.places + 1) }
    ensures ranks { IfOk result (λ latest. AreRanks net.now tables.now (entry latest.items)) }
{
    let mut latest = vec![in alloc; 0; net.places.as_slice().len() + 1]?;
    note_latest(net, tables, &mut latest);
    Ok(latest)
}

/// The worth of a place before any back arc is looked at.
fn base_of(net: &Net, latest: &[usize], best: &[u64], place: usize) -> u128
    requires few { IsFew net.now }
    requires place { place ≤ length net.now.places }
    requires latest { length latest.now ≡ length net.now.places + 1 }
    requires small { (p : ℕ) → entry latest.now p ≤ length net.now.arcs }
    requires best { length best.now ≡ length net.now.places + 1 }
    ensures base { result ≡ base_by net.now (entry latest.now) (entry best.now) place }
{
    let shift = STEP * (net.arcs.as_slice().len() as u128 + 1);
    if place == 0 {
        return shift + 1;
    }
    let way = best[place];
    if way > 0 {
        return shift + u128::from(way);
    }
    STEP * latest[place] as u128
}

/// Notes the worths of places before any back arc is looked at.
pub fn note_bases(net: &Net, latest: &[usize], best: &[u64], worths: &mut [u128])
    requires few { IsFew net.now }
    requires latest { length latest.now ≡ length net.now.places + 1 }
    requires small { (p : ℕ) → entry latest.now p ≤ length net.now.arcs }
    requires best { length best.now ≡ length net.now.places + 1 }
    requires room { length worths.old ≡ length net.now.places + 1 }
    ensures base { (p : ℕ) → entry worths.new p ≡ base_by net.now (entry latest.now) (entry best.now) p }
{
    for place in 0..net.places.as_slice().len() + 1 {
        worths[place] = base_of(net, latest, best, place);
    }
}
