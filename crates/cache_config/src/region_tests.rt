//! The regions of a text: their limits, their joint rules, and how many there may be.

use crate::test_texts::said;
use std::alloc::Global;
use std::test::Fail;

#[test]
fn missing_keys(rt: HostRuntime) -> Result<(), Fail> {
    let alloc = rt.alloc();
    for (text, want) in [
        ("region = [{ start = 0 }]", "key region[0].size"),
        ("region = [{ size = 1 }]", "key region[0].start"),
        ("region = [{}]", "key region[0].size"),
        ("[[region]]", "key region[0].size"),
        (
            "[[region]]\nstart = 0\nsize = 1\n[[region]]\nsize = 1",
            "key region[1].start",
        ),
        // A missing key comes before a number out of its limits.
        ("region = [{ start = -1 }]", "key region[0].size"),
    ] {
        assert_eq!(rt; said(alloc, text.as_bytes())?.as_str(), want, "at {text}");
    }
    Ok(())
}

#[test]
fn one_region(rt: HostRuntime) -> Result<(), Fail> {
    let alloc = rt.alloc();
    let start = "range region[0].start";
    let size = "range region[0].size";
    for (from, length, want) in [
        (0i64, 1, "ok"),
        (-1, 1, start),
        (0, 0, size),
        (0, 16_777_216, "ok"),
        (0, 16_777_217, size),
        // The last byte of memory, and past it.
        (0xFFFF_FFEF, 1, "ok"),
        (0xFFFF_FFEF, 2, start),
        (0xFFFF_FFF0, 1, start),
        (0xFEFF_FFF0, 16_777_216, "ok"),
        (0xFEFF_FFF1, 16_777_216, start),
        // Below the stack and at its first byte, and at the last byte of the area above it and past it.
        (0x7FFD_FFF0, 16, "ok"),
        (0x7FFD_FFF0, 17, start),
        (0x7FFE_0000, 1, start),
        (0x7FFF_003F, 1, start),
        (0x7FFF_0040, 1, "ok"),
        (0x7FFD_0000, 0x0010_0000, start),
    ] {
        let text = format!(in alloc; "region = [{{ start = {from}, size = {length} }}]")?;
        assert_eq!(rt; said(alloc, text.as_bytes())?.as_str(), want, "at {text}");
    }
    Ok(())
}

#[test]
fn two_regions(rt: HostRuntime) -> Result<(), Fail> {
    let alloc = rt.alloc();
    let second = "range region[1].start";
    for (from, length, want) in [
        (0x1010, 1, "ok"),
        (0x100F, 1, second),
        (0x1000, 1, second),
        (0x1000, 16, second),
        (0x0FF0, 16, "ok"),
        (0x0FF0, 17, second),
        (0x0FF0, 256, second),
    ] {
        let text = format!(in alloc;
            "region = [{{ start = 0x1000, size = 16 }}, {{ start = {from}, size = {length} }}]"
        )?;
        assert_eq!(rt; said(alloc, text.as_bytes())?.as_str(), want, "at {text}");
    }
    Ok(())
}

#[test]
fn joint_rules_want_good_values(rt: HostRuntime) -> Result<(), Fail> {
    let alloc = rt.alloc();
    for (text, want) in [
        // A stack whose size or top is out of its limits meets no region, nor does one below 0.
        (
            "stack_size = 1\nregion = [{ start = 0x7FFEFFF0, size = 1 }]",
            "range stack_size",
        ),
        (
            "stack_top = 1\nregion = [{ start = 0x7FFEFFF0, size = 1 }]",
            "range stack_top",
        ),
        (
            "stack_top = 64\nregion = [{ start = 0, size = 1 }]",
            "range stack_top",
        ),
        // A region whose start is out of its limits meets none, and one whose size is.
        (
            "region = [{ start = 0x10, size = 0 }, { start = 0x10, size = 1 }]",
            "range region[0].size",
        ),
        (
            "region = [{ start = -1, size = 16 }, { start = 0, size = 1 }, { start = 0, size = 1 }]",
            "range region[0].start",
        ),
    ] {
        assert_eq!(rt; said(alloc, text.as_bytes())?.as_str(), want, "at {text}");
    }
    Ok(())
}

/// So many regions of 16 bytes, 256 bytes from each other, and a last one as it is given.
fn regions(alloc: Global, count: usize, last: &str) -> Result<Vec<u8>, Fail> {
    let mut text = Vec::new(alloc);
    for at in 0..count {
        let region = format!(in alloc; "[[region]]\nstart = 0x{at:02X}00\nsize = 16\n")?;
        text.extend_from_slice(region.as_bytes())?;
    }
    text.extend_from_slice(last.as_bytes())?;
    Ok(text)
}

#[test]
fn at_most_sixteen_regions(rt: HostRuntime) -> Result<(), Fail> {
    let alloc = rt.alloc();
    for (count, last, want) in [
        (16, "", "ok"),
        (17, "", "range region"),
        // The keys of each table are looked at all the same.
        (
            16,
            "[[region]]\nstart = 0\nsize = 1\nend = 2",
            "key region[16].end",
        ),
        (16, "[[region]]\nstart = 0", "key region[16].size"),
        // Numbers are compared as they are printed: `region[10]` comes before `region[2]`.
        (
            10,
            "[[region]]\nstart = 0x200\nsize = 0\n[[region]]\nstart = 0x210\nsize = 0",
            "range region[10].size",
        ),
        (
            15,
            "[[region]]\nstart = 0x20F\nsize = 1",
            "range region[15].start",
        ),
    ] {
        let text = regions(alloc, count, last)?;
        assert_eq!(rt; said(alloc, &text)?.as_str(), want, "at {count} {last}");
    }
    Ok(())
}
