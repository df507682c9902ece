//! Searches, orders and cycles of short tables, worked out by hand.

ghost use Rattle.std.specs.Prelude.{◌≡◌, IfOk, length};
ghost use Rattle.step_table.specs.Table.{IsWithin};

use crate::{
    cyclic_positions, first_cyclic, list_met, met_from, order_of, position_of, reverse_of, steps_to,
};
use std::alloc::{AllocError, Global};
use std::test::Fail;
use wcet_io::List;

/// 0 goes to 1 and 2, and 1 and 2 to each other.
fn table(alloc: Global) -> Result<Vec<List<usize>>, AllocError>
    ensures within { IfOk result (λ table. IsWithin table.items) }
    ensures count { IfOk result (λ table. length table.items ≡ 3) }
{
    let table = vec![in alloc;
        List::from_vec(vec![in alloc; 1, 2]?),
        List::from_vec(vec![in alloc; 2]?),
        List::from_vec(vec![in alloc; 1]?),
    ]?;
    Ok(table)
}

#[test]
fn tells_cycles_and_searches(rt: HostRuntime) -> Result<(), Fail> {
    let alloc = rt.alloc();
    let table = table(alloc)?;
    assert_eq!(rt;
        cyclic_positions(alloc, &table)?.as_slice(),
        [false, true, true].as_slice()
    );
    assert_eq!(rt; first_cyclic(alloc, &table)?, Some(1));
    assert_eq!(rt;
        met_from(alloc, &table, &[0], 1)?.as_slice(),
        [true, false, true].as_slice()
    );
    // One set of marks serves several searches.
    let mut marks = vec![in alloc; false; 3]?;
    assert_eq!(rt;
        list_met(alloc, &table, &[2, 0], 1, &mut marks)?.as_slice(),
        [2, 0].as_slice()
    );
    assert_eq!(rt;
        list_met(alloc, &table, &[1], 3, &mut marks)?.as_slice(),
        [1, 2].as_slice()
    );
    let back = reverse_of(alloc, &table)?;
    assert_eq!(rt; back.len(), 3);
    assert!(rt; back[0].as_slice().is_empty());
    assert_eq!(rt; back[1].as_slice(), [0, 2].as_slice());
    assert_eq!(rt; back[2].as_slice(), [0, 1].as_slice());
    // 0 goes to both others, so it stands behind them; the steps of a position are looked at from its last one on.
    assert_eq!(rt; order_of(alloc, &table)?.as_slice(), [1, 2, 0].as_slice());
    assert_eq!(rt;
        steps_to(alloc, &[4, 8, 12], &[12, 16, 4])?.as_slice(),
        [2, 0].as_slice()
    );
    assert_eq!(rt; position_of(&[4, 8, 12], 8), Some(1));
    Ok(())
}
