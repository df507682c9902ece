//! The plain profile's numbers, as the manual lists them.

use crate::Profile;
use std::test::Fail;

#[test]
fn plain_has_the_defaults(rt: HostRuntime) -> Result<(), Fail> {
    let plain = Profile::plain(rt.alloc());
    assert_eq!(rt; (plain.memory, plain.store), (10, 10));
    assert_eq!(rt; (plain.splits, plain.steps), (256, 1_000_000));
    assert_eq!(rt; (plain.stack_top, plain.stack_size), (0x7FFF_0000, 65_536));
    assert!(rt; plain.gp.is_none() && plain.entry.is_none());
    assert!(rt; plain.regions.as_slice().is_empty());
    let cycles = plain.cycles;
    let values = [
        cycles.alu,
        cycles.shift,
        cycles.mult,
        cycles.div,
        cycles.hilo,
    ];
    assert_eq!(rt; values, [1; 5]);
    let others = [
        cycles.load,
        cycles.store,
        cycles.branch,
        cycles.jump,
        cycles.stop,
    ];
    assert_eq!(rt; others, [1; 5]);
    Ok(())
}
