//! How often counts enter the loops of a net.

ghost use Rattle.std.specs.Prelude.{◌≡◌, ℕ, ◌+◌, ◌*◌, ◌^◌, ◌<◌, ◌≤◌, length};
ghost use Rattle.flow_net.specs.Nested.{IsNested};
ghost use Rattle.nest_solver.specs.Counted.{bit, entered, enters};
ghost use Rattle.nest_solver.specs.Nets.{entry};
ghost use Rattle.nest_solver.specs.Plain.{AreTables, plain};
ghost use Rattle.nest_solver.specs.Shape.{IsUpTo};
ghost use Rattle.nest_solver.specs.Tables.{IsFew};

use crate::reads::target;
use crate::sweep::clear;
use crate::tables::Tables;
use flow_net::Net;

/// Adds the count of an arc to the loop instance that it enters.
fn enter(net: &Net, tables: &Tables, counts: &[u64], arc: usize, often: &mut [u64])
    requires nested { IsNested net.now }
    requires few { IsFew net.now }
    requires tables { AreTables net.now tables.now }
    requires arc { IsUpTo (length net.now.arcs) arc }
    requires counts { length counts.now ≡ length net.now.arcs + 1 }
    requires often { length often.old ≡ length net.now.loops + 1 }
    requires room { (l : ℕ) → IsUpTo (length net.now.loops) l →
        entry often.old l + bit (enters (plain net.now tables.now) l arc) * entry counts.now arc < 2 ^ 64 }
    ensures entered { (l : ℕ) → IsUpTo (length net.now.loops) l →
        entry often.new l ≡ entry often.old l + bit (enters (plain net.now tables.now) l arc) * entry counts.now arc }
{
    let scope = tables.headed[target(net, arc)];
    if scope == 0 {
        return;
    }
    if tables.backs[arc] {
        return;
    }
    often[scope] += counts[arc];
}

/// Notes how often counts enter each loop instance.
pub fn note_entered(net: &Net, tables: &Tables, counts: &[u64], often: &mut [u64])
    requires nested { IsNested net.now }
    requires few { IsFew net.now }
    requires tables { AreTables net.now tables.now }
    requires counts { length counts.now ≡ length net.now.arcs + 1 }
    requires often { length often.old ≡ length net.now.loops + 1 }
    requires room { (l : ℕ) → IsUpTo (length net.now.loops) l →
        entered (plain net.now tables.now) (entry counts.now) l < 2 ^ 64 }
    ensures entered { (l : ℕ) → IsUpTo (length net.now.loops) l →
        entry often.new l ≡ entered (plain net.now tables.now) (entry counts.now) l }
{
    clear(often);
    for arc in 1..net.arcs.as_slice().len() + 1 {
        enter(net, tables, counts, arc, often);
    }
}
