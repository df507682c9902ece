//! Worked trials of the outside in memory, with ample memory.
use crate::{Failed, GatherFault, List, MemShelf, MemSink, deliver, gather};
use std::alloc::{AllocError, Global};

/// A shelf that places three bytes a call and holds one file of ten bytes.
fn shelf_of_ten(alloc: Global, failing: Vec<u64>) -> Result<MemShelf, AllocError> {
    let mut shelf = MemShelf::new(alloc, 3, failing);
    shelf.add("ten", b"0123456789")?;
    Ok(shelf)
}

#[test]
fn gathers_by_pieces_up_to_the_limit(rt: HostRuntime) -> Result<(), AllocError> {
    let alloc = rt.alloc();
    for (name, limit, want) in [
        ("ten", 10, Ok(10)),
        ("ten", u64::MAX, Ok(10)),
        ("ten", 9, Err(GatherFault::TooLong)),
        ("ten", 0, Err(GatherFault::TooLong)),
        ("other", 10, Err(GatherFault::Read)),
    ] {
        let mut shelf = shelf_of_ten(alloc, Vec::new(alloc))?;
        let answer = gather(alloc, &mut shelf, name, limit);
        let length = answer.map(|bytes| bytes.len());
        assert_eq!(rt; length, want, "{name} {limit}");
    }
    Ok(())
}

#[test]
fn gathers_the_bytes_or_fails_at_the_second_call(rt: HostRuntime) -> Result<(), AllocError> {
    let alloc = rt.alloc();
    let mut shelf = shelf_of_ten(alloc, Vec::new(alloc))?;
    let answer = gather(alloc, &mut shelf, "ten", 10);
    assert!(rt; answer.is_ok_and(|bytes| bytes.as_slice() == b"0123456789".as_slice()));
    let mut failing = shelf_of_ten(alloc, vec![in alloc; 2]?)?;
    let answer = gather(alloc, &mut failing, "ten", 10);
    assert!(rt; answer.is_err_and(|fault| fault == GatherFault::Read));
    Ok(())
}

#[test]
fn delivers_all_or_a_front(rt: HostRuntime) -> Result<(), AllocError> {
    let alloc = rt.alloc();
    let mut sink = MemSink::new(alloc, 4, 10, Vec::new(alloc))?;
    assert_eq!(rt; deliver(&mut sink, b"0123456789"), Ok(()));
    assert_eq!(rt; sink.taken(), b"0123456789".as_slice());
    assert_eq!(rt; deliver(&mut sink, b""), Ok(()));
    assert_eq!(rt; deliver(&mut sink, b"x"), Err(Failed));
    let mut failing = MemSink::new(alloc, 4, 10, vec![in alloc; 2]?)?;
    assert_eq!(rt; deliver(&mut failing, b"0123456789"), Err(Failed));
    assert_eq!(rt; failing.taken(), b"0123".as_slice());
    Ok(())
}

#[test]
fn lists_keep_their_items(rt: HostRuntime) -> Result<(), AllocError> {
    let alloc = rt.alloc();
    let mut list = List::new(alloc);
    list.push(7u32)?;
    list.push(8)?;
    assert_eq!(rt; list.as_slice(), [7, 8].as_slice());
    let again = List::from_vec(list.into_vec());
    assert_eq!(rt; again.as_slice(), [7, 8].as_slice());
    Ok(())
}
