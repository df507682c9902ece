//! The class table of a nested net under three caches.

ghost use Rattle.std.specs.Prelude.{◌≡◌, IfOk, length};
ghost use Rattle.flow_net.proofs.OnNested.{two_loops};
ghost use Rattle.flow_net.specs.Nested.{IsNested};

use crate::classify;
use address_analysis::own_ranges;
use cache_config::read_profile;
use flow_net::{Access, Class, Context, Letter, Level2, LoopInst, Net, NetArc, Place, Role};
use std::alloc::{AllocError, Global};
use std::test::Fail;
use wcet_io::List;

/// The first cache and the last one serve fetches, the one between them loads.
const CACHES: &str = r#"
[[cache]]
sets = 4
ways = 2
line = 16
latency = 1
serves = "fetch"
[[cache]]
sets = 4
ways = 2
line = 16
latency = 1
serves = "load"
[[cache]]
sets = 16
ways = 4
line = 16
latency = 5
serves = "both"
"#;

/// An arc between places, of which 0 is outside.
fn arc(from: u32, to: u32) -> NetArc
    ensures { result ≡ record { from = from; to = to } }
{
    NetArc { from, to }
}

/// The nested net that flow_net writes out: one fetch, at the header of the inner one of two loops.
fn loops(alloc: Global) -> Result<Net, AllocError>
    ensures { IfOk result (λ net. net ≡ two_loops) }
{
    let contexts = vec![in alloc;
        Context {
            parent: 0,
            site: 0,
            target: 0x0040_0000
        },
    ]?;
    let places = vec![in alloc;
        Place {
            context: 0,
            address: 0x0040_0000,
            scope: 1
        },
        Place {
            context: 0,
            address: 0x0040_0004,
            scope: 2
        },
    ]?;
    let arcs = vec![in alloc; arc(0, 1), arc(1, 2), arc(2, 2), arc(2, 1), arc(1, 0)]?;
    let loops = vec![in alloc;
        LoopInst {
            header: 1,
            bound: 3,
            outer: 0
        },
        LoopInst {
            header: 2,
            bound: 4,
            outer: 1
        },
    ]?;
    let accesses = vec![in alloc;
        Access {
            place: 2,
            role: Role::Fetch,
            at: 0x0040_0004
        },
    ]?;
    Ok(Net {
        contexts: List::from_vec(contexts),
        places: List::from_vec(places),
        arcs: List::from_vec(arcs),
        loops: List::from_vec(loops),
        accesses: List::from_vec(accesses),
    })
}

/// The same net, as `classify` asks for it.
fn nested_loops(alloc: Global) -> Result<Net, AllocError>
    ensures { IfOk result IsNested }
{
    let net = loops(alloc)?;
    Ok(net)
}

#[test]
fn fetch_comes_to_its_first_cache_and_perhaps_to_the_next(rt: HostRuntime) -> Result<(), Fail> {
    let net = nested_loops(rt.alloc())?;
    let ranges = own_ranges(rt.alloc(), &net)?;
    let Ok(profile) = read_profile(rt.alloc(), CACHES.as_bytes()) else {
        return Err("a profile with a fault".into());
    };
    let classes = classify(rt.alloc(), &net, &ranges, &profile)?;
    let rows = classes.rows.as_slice();
    assert_eq!(rt; rows.len(), 1);
    let row = rows[0].as_slice();
    assert_eq!(rt; row.len(), 2);
    let first = Level2 {
        letter: Letter::Always,
        class: Class::Unclassified,
    };
    assert_eq!(rt; row[0], first);
    assert_eq!(rt; row[1].letter, Letter::Uncertain);
    assert_eq!(rt; row[1].class, Class::Unclassified);
    Ok(())
}
