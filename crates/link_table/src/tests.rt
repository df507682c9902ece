//! Two short lists, worked out by hand.

use crate::LinkTable;
use std::test::Fail;

#[test]
fn moves_items_between_lists(rt: HostRuntime) -> Result<(), Fail> {
    let mut table = LinkTable::new(rt.alloc(), 4, 2)?;
    assert_eq!(rt; table.take_front(0), None);
    assert_eq!(rt; table.list_of(3), None);
    Ok(())
}
