//! A range of addresses for each access of a net.

ghost use Rattle.std.specs.Prelude.{◌≡◌, ℕ, IfOk, List, length, map};
ghost use Rattle.flow_net.specs.declared.net.Access.{Access};
ghost use Rattle.net_model.specs.Walks.{own_range};
ghost use Rattle.address_analysis.specs.Ranges.{in_range, own_span};

use flow_net::{Access, Net, Role};
use std::alloc::{AllocError, Global};
use value_domain::Strided;
use wcet_io::List;

/// For each access of a net the addresses, in bytes, that it may go to.
#[derive(Debug, Drop)]
pub struct Ranges {
    pub rows: List<Strided>,
}

/// The addresses of an access as the code alone tells them.
fn own_range(access: Access) -> Strided
    ensures { result ≡ own_span access }
{
    match access.role {
        Role::Fetch | Role::Slot => Strided::one(access.at),
        Role::Load | Role::Store => Strided::all(),
    }
}

/// Those of all accesses of a net.
fn own_rows(alloc: Global, net: &Net) -> Result<List<Strided>, AllocError>
    ensures { IfOk result (λ rows. rows ≡ map own_span net.now.accesses) }
{
    let mut rows = List::new(alloc);
    for access in net.accesses.as_slice() {
        rows.push(own_range(*access))?;
    }
    Ok(rows)
}

/// The addresses of the accesses of a net as the code alone tells them: a fetch goes to the address of its instruction
/// (MIPS I architecture), a load or store to any address of 32 bits. It fails only for want of memory, and takes a step
/// for each access.
pub fn own_ranges(alloc: Global, net: &Net) -> Result<Ranges, AllocError>
    ensures exact { IfOk result (λ ranges. ranges.rows ≡ map own_span net.now.accesses) }
    ensures all { IfOk result (λ ranges. (access address : ℕ) → own_range net.now access address →
        in_range ranges access address) }
{
    let rows = own_rows(alloc, net)?;
    Ok(Ranges { rows })
}
