//! How the units of a function follow one another, by their positions.

ghost use Rattle.std.specs.Prelude.{◌≡◌, ◌<◌, AllPairs, map, IfOk};
ghost use Rattle.loop_nest.specs.Table.{IsTableOf};
ghost use Rattle.unit_graph.specs.declared.node.Unit.{Unit};

use std::alloc::{AllocError, Global};
use step_table::steps_to;
use unit_graph::Unit;
use wcet_io::List;

/// The addresses of the units, in their order.
pub fn addresses_of(alloc: Global, units: &[Unit]) -> Result<Vec<u32>, AllocError>
    ensures { IfOk result (λ addresses. addresses.items ≡ map (λ unit. unit.address) units.now) }
{
    units.iter().map(|unit| unit.address).collect(alloc)
}

/// The table of the units, by a search among the addresses for each onward one.
pub fn table_of(
    alloc: Global,
    addresses: &[u32],
    units: &[Unit],
) -> Result<Vec<List<usize>>, AllocError>
    requires { AllPairs (λ a b. a < b) addresses.now }
    ensures { IfOk result (λ table. IsTableOf addresses.now units.now table.items) }
{
    let mut table = Vec::new(alloc);
    for unit in units {
        table.push(steps_to(alloc, addresses, unit.onward.as_slice())?)?;
    }
    Ok(table)
}
