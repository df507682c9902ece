//! The profiles that texts give.

use crate::{Cycles, Profile, Region, read_profile};
use std::alloc::Global;
use std::test::Fail;

/// The profile of a text without a fault.
fn read(alloc: Global, text: &[u8]) -> Option<Profile> {
    match read_profile(alloc, text) {
        Ok(profile) => Some(profile),
        Err(_) => None,
    }
}

/// The cycles of the classes in the order of the key table.
fn costs(cycles: &Cycles) -> [u64; 10] {
    [
        cycles.alu,
        cycles.shift,
        cycles.mult,
        cycles.div,
        cycles.hilo,
        cycles.load,
        cycles.store,
        cycles.branch,
        cycles.jump,
        cycles.stop,
    ]
}

/// The start and the size of a region.
fn parts(region: &Region) -> (u32, u32) {
    (region.start, region.size)
}

#[test]
fn a_text_without_keys_gives_the_defaults(rt: HostRuntime) -> Result<(), Fail> {
    let alloc = rt.alloc();
    for text in [
        "",
        "\n",
        "# all defaults\r\n",
        "\u{FEFF}",
        "cycles = {}\nregion = []",
        "[cycles]",
    ] {
        let Some(profile) = read(alloc, text.as_bytes()) else {
            assert!(rt; false, "a fault in {text}");
            continue;
        };
        assert_eq!(rt; (profile.memory, profile.store), (10, 10));
        assert_eq!(rt; (profile.splits, profile.steps), (256, 1_000_000));
        assert_eq!(rt;
            (profile.stack_top, profile.stack_size),
            (0x7FFF_0000, 65_536)
        );
        assert!(rt; profile.gp.is_none() && profile.entry.is_none());
        assert!(rt; profile.levels.as_slice().is_empty());
        assert!(rt; profile.regions.as_slice().is_empty());
        assert_eq!(rt; costs(&profile.cycles), [1; 10]);
    }
    Ok(())
}

#[test]
fn a_text_with_every_key(rt: HostRuntime) -> Result<(), Fail> {
    let text = b"\
        memory = 20\n\
        store = 0x1F            # hexadecimal\n\
        splits = 1_000          # underscored\n\
        steps = 0b1010\n\
        stack_top = 0x8000_0000\n\
        stack_size = 0o200\n\
        gp = 4_294_967_295\n\
        entry = \"task\\u0041\"\n\
        cycles = { alu = 2, shift = 3, mult = 4, div = 5, move = 6 }\n\
        region = [{ start = 0x1000, size = 16 }, { size = 0x10, start = 0 }]\n";
    let Some(profile) = read(rt.alloc(), text) else {
        assert!(rt; false, "a fault");
        return Ok(());
    };
    assert_eq!(rt; (profile.memory, profile.store), (20, 31));
    assert_eq!(rt; (profile.splits, profile.steps), (1_000, 10));
    assert_eq!(rt; (profile.stack_top, profile.stack_size), (0x8000_0000, 128));
    assert_eq!(rt; profile.gp, Some(0xFFFF_FFFF));
    assert_eq!(rt; costs(&profile.cycles), [2, 3, 4, 5, 6, 1, 1, 1, 1, 1]);
    let name = match &profile.entry {
        Some(name) => name.as_slice(),
        None => &[],
    };
    assert_eq!(rt; name, b"taskA".as_slice());
    let regions = profile.regions.as_slice();
    assert_eq!(rt; regions.len(), 2);
    for (region, want) in regions.iter().zip([(0x1000, 16), (0, 16)]) {
        assert_eq!(rt; parts(region), want);
    }
    Ok(())
}

#[test]
fn the_same_keys_in_other_forms(rt: HostRuntime) -> Result<(), Fail> {
    for text in [
        "cycles.load = 7\ncycles.stop = 8\nregion = [{ start = 64, size = 32 }]",
        "\u{FEFF}cycles = { load = 7, stop = 8 }\n[[region]]\nstart = 0x40\nsize = 0x20",
        "[cycles]\nstop = 8\nload = 7\n[[region]]\nsize = 3_2\nstart = 6_4",
        "\"cycles\".'load' = 7\ncycles.\"stop\" = +8\n[[\"region\"]]\n\"start\" = 64\n'size' = 32",
    ] {
        let Some(profile) = read(rt.alloc(), text.as_bytes()) else {
            assert!(rt; false, "a fault in {text}");
            continue;
        };
        assert_eq!(rt;
            costs(&profile.cycles),
            [1, 1, 1, 1, 1, 7, 1, 1, 1, 8],
            "at {text}"
        );
        let regions = profile.regions.as_slice();
        assert_eq!(rt; regions.len(), 1, "at {text}");
        for region in regions {
            assert_eq!(rt; parts(region), (64, 32), "at {text}");
        }
    }
    Ok(())
}

#[test]
fn an_entry_may_have_any_name(rt: HostRuntime) -> Result<(), Fail> {
    for (text, want) in [
        ("entry = \"\"", ""),
        ("entry = 'a b'", "a b"),
        ("entry = \"\"\"\nmain\"\"\"", "main"),
        ("entry = \"\\u00E9\"", "\u{E9}"),
    ] {
        let Some(profile) = read(rt.alloc(), text.as_bytes()) else {
            assert!(rt; false, "a fault in {text}");
            continue;
        };
        let name = match &profile.entry {
            Some(name) => name.as_slice(),
            None => b"none",
        };
        assert_eq!(rt; name, want.as_bytes(), "at {text}");
    }
    Ok(())
}
