//! Each key at its least and its greatest value, and one beyond each.

use crate::test_texts::said;
use std::test::Fail;

#[test]
fn numbers_keep_their_limits(rt: HostRuntime) -> Result<(), Fail> {
    let alloc = rt.alloc();
    for (key, least, most) in [
        ("memory", 0, 1_000_000),
        ("store", 0, 1_000_000),
        ("splits", 0, 1_000_000),
        ("steps", 1, 100_000_000),
        ("gp", 0, 4_294_967_295),
        ("cycles.alu", 1, 1_000_000),
        ("cycles.shift", 1, 1_000_000),
        ("cycles.mult", 1, 1_000_000),
        ("cycles.div", 1, 1_000_000),
        ("cycles.move", 1, 1_000_000),
        ("cycles.load", 1, 1_000_000),
        ("cycles.store", 1, 1_000_000),
        ("cycles.branch", 1, 1_000_000),
        ("cycles.jump", 1, 1_000_000),
        ("cycles.stop", 1, 1_000_000),
    ] {
        let beyond = format!(in alloc; "range {key}")?;
        for (value, is_good) in [
            (least, true),
            (most, true),
            (least - 1, false),
            (most + 1, false),
            (i64::MIN, false),
            (i64::MAX, false),
        ] {
            let text = format!(in alloc; "{key} = {value}")?;
            let want = if is_good { "ok" } else { beyond.as_str() };
            assert_eq!(rt; said(alloc, text.as_bytes())?.as_str(), want, "at {text}");
        }
    }
    Ok(())
}

#[test]
fn the_stack_keeps_its_limits(rt: HostRuntime) -> Result<(), Fail> {
    let alloc = rt.alloc();
    for (top, size, want) in [
        (0x7FFF_0000u64, 64, "ok"),
        (0x7FFF_0000, 56, "range stack_size"),
        (0x7FFF_0000, 63, "range stack_size"),
        (0x7FFF_0000, 68, "range stack_size"),
        (0x7FFF_0000, 16_777_216, "ok"),
        (0x7FFF_0000, 16_777_224, "range stack_size"),
        (0xFFFF_FFB0, 65_536, "ok"),
        (0xFFFF_FFB8, 65_536, "range stack_top"),
        (0xFFFF_FFAC, 65_536, "range stack_top"),
        // The top is at least the size.
        (64, 64, "ok"),
        (56, 64, "range stack_top"),
        (0, 64, "range stack_top"),
    ] {
        let text = format!(in alloc; "stack_top = {top}\nstack_size = {size}")?;
        assert_eq!(rt; said(alloc, text.as_bytes())?.as_str(), want, "at {text}");
    }
    // The default of the size counts too.
    assert_eq!(rt; said(alloc, b"stack_top = 65_536")?.as_str(), "ok");
    assert_eq!(rt;
        said(alloc, b"stack_top = 65_528")?.as_str(),
        "range stack_top"
    );
    assert_eq!(rt; said(alloc, b"stack_top = -8")?.as_str(), "range stack_top");
    Ok(())
}
