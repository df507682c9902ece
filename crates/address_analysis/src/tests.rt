//! The ranges of a net with each role of an access.

use crate::own_ranges;
use flow_net::{Access, Net, Role};
use std::alloc::{AllocError, Global};
use std::test::Fail;
use value_domain::Strided;
use wcet_io::List;

/// A net of one access of each role, all at the address 00400010 but the first, which is at the last word of memory.
fn four_accesses(alloc: Global) -> Result<Net, AllocError> {
    let access = |role, at| Access { place: 1, role, at };
    let accesses = vec![in alloc;
        access(Role::Fetch, 0xFFFF_FFFC),
        access(Role::Slot, 0x0040_0010),
        access(Role::Load, 0x0040_0010),
        access(Role::Store, 0x0040_0010),
    ]?;
    Ok(Net {
        contexts: List::new(alloc),
        places: List::new(alloc),
        arcs: List::new(alloc),
        loops: List::new(alloc),
        accesses: List::from_vec(accesses),
    })
}

#[test]
fn fetches_have_their_address_and_loads_any(rt: HostRuntime) -> Result<(), Fail> {
    let net = four_accesses(rt.alloc())?;
    let ranges = own_ranges(rt.alloc(), &net)?;
    let rows = ranges.rows.as_slice();
    assert_eq!(rt; rows.len(), 4);
    assert_eq!(rt; rows[0], Strided::one(0xFFFF_FFFC));
    assert_eq!(rt; rows[1], Strided::one(0x0040_0010));
    assert_eq!(rt; rows[2], Strided::between(0, 0xFFFF_FFFF));
    assert_eq!(rt; rows[3], Strided::between(0, 0xFFFF_FFFF));
    Ok(())
}
