//! The bounds of headers, by what is recorded at the addresses of units.

ghost use Rattle.std.specs.Prelude.{◌≡◌, ◌<◌, List, IfOk, IfSome, length, replicate, None};
ghost use Rattle.std.specs.BTreeMap.{get};
ghost use Rattle.std.specs.Ordering.{nat_cmp};
ghost use Rattle.loop_nest.specs.Bodies.{AreBelow};
ghost use Rattle.loop_nest.specs.Bounds.{AreBounds, IsGiven, IsLeastOf, IsLowered, lesser_of};
ghost use Rattle.unit_graph.specs.declared.node.Unit.{Unit};

use crate::recorded::{bound_at, lesser};
use std::alloc::{AllocError, Global};
use std::collections::BTreeMap;
use unit_graph::Unit;

/// The lesser one of two bounds, of which one or both may be missing.
fn lesser_bound(bound: Option<u32>, other: Option<u32>) -> Option<u32>
    ensures { result ≡ lesser_of bound other }
{
    match other {
        Some(x) => Some(lesser(bound, x)),
        None => bound,
    }
}

/// The least bound that is recorded for a unit: at its address, or at that of its slot.
fn unit_bound(unit: &Unit, recorded: &BTreeMap<u64, u32>) -> Option<u32>
    ensures { IsLeastOf (IsGiven (get nat_cmp recorded.now) unit.now) result }
{
    let address = u64::from(unit.address);
    let own = bound_at(recorded, address);
    if !unit.slot {
        return own;
    }
    lesser_bound(own, bound_at(recorded, address + 4))
}

/// Lowers the bound of a header, if there is one.
fn lower(bounds: &mut [Option<u32>], header: Option<usize>, bound: Option<u32>)
    requires { IfSome header (λ h. h < length bounds.old) }
    ensures { IsLowered header bound bounds.old bounds.new }
{
    if let Some(header) = header {
        bounds[header] = lesser_bound(bounds[header], bound);
    }
}

/// Lowers the bound of each unit's innermost header by what is recorded for the unit; no header has a bound
/// yet.
fn lower_all(
    units: &[Unit],
    innermost: &[Option<usize>],
    recorded: &BTreeMap<u64, u32>,
    bounds: &mut [Option<u32>],
)
    requires count { length innermost.now ≡ length units.now }
    requires below { AreBelow (length units.now) innermost.now }
    requires new { bounds.old ≡ replicate (length units.now) None }
    ensures { AreBounds units.now innermost.now (get nat_cmp recorded.now) bounds.new }
{
    for position in 0..units.len() {
        let bound = unit_bound(&units[position], recorded);
        lower(bounds, innermost[position], bound);
    }
}

/// For each header the least bound that is recorded for a unit whose innermost header it is, by two searches
/// at most for each unit.
pub fn bounds_of(
    alloc: Global,
    units: &[Unit],
    innermost: &[Option<usize>],
    recorded: &BTreeMap<u64, u32>,
) -> Result<Vec<Option<u32>>, AllocError>
    requires count { length innermost.now ≡ length units.now }
    requires below { AreBelow (length units.now) innermost.now }
    ensures { IfOk result (λ bounds. AreBounds units.now innermost.now (get nat_cmp recorded.now) bounds.items) }
{
    let mut bounds = vec![in alloc; None; units.len()]?;
    lower_all(units, innermost, recorded, &mut bounds);
    Ok(bounds)
}
