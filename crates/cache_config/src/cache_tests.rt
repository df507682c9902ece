//! The caches of a text: their limits, how many a chain may have, and which accesses go through which.

use crate::test_texts::said;
use crate::{Profile, read_profile};
use lru_concrete::{Level, Serves};
use mips_decode::AccessKind;
use std::alloc::Global;
use std::test::Fail;

/// Three caches: one of instructions, one of data, and one of both behind them.
const THREE: &str = "\
    memory = 50\n\
    [[cache]]\n\
    serves = \"fetch\"\nsets = 64\nways = 2\nline = 16\nlatency = 1\n\
    [[cache]]\n\
    latency = 2\nline = 32\nways = 4\nsets = 0x80\nserves = 'load'\n\
    [[cache]]\n\
    serves = \"both\"\nsets = 1_024\nways = 16\nline = 256\nlatency = 9\n";

/// The profile of a text without a fault.
fn read(alloc: Global, text: &str) -> Option<Profile> {
    read_profile(alloc, text.as_bytes()).ok()
}

/// The numbers of a cache: sets, ways, bytes of a block and latency.
fn numbers(level: &Level) -> (u32, u32, u32, u64) {
    let shape = level.shape;
    (shape.sets, shape.ways, shape.line, level.latency)
}

#[test]
fn no_caches(rt: HostRuntime) -> Result<(), Fail> {
    for text in ["", "cache = []"] {
        let count = match read(rt.alloc(), text) {
            Some(profile) => profile.levels.as_slice().len(),
            None => 99,
        };
        assert_eq!(rt; count, 0, "at {text}");
    }
    Ok(())
}

#[test]
fn caches_come_in_the_order_of_the_text(rt: HostRuntime) -> Result<(), Fail> {
    let Some(profile) = read(rt.alloc(), THREE) else {
        assert!(rt; false, "a fault");
        return Ok(());
    };
    let levels = profile.levels.as_slice();
    assert_eq!(rt; levels.len(), 3);
    let want = [
        (Serves::Fetch, (64, 2, 16, 1)),
        (Serves::Load, (128, 4, 32, 2)),
        (Serves::Both, (1024, 16, 256, 9)),
    ];
    for (level, (serves, sizes)) in levels.iter().zip(want) {
        assert!(rt; level.serves == serves);
        assert_eq!(rt; numbers(level), sizes);
    }
    Ok(())
}

#[test]
fn accesses_go_through_the_caches_that_serve_them(rt: HostRuntime) -> Result<(), Fail> {
    let Some(profile) = read(rt.alloc(), THREE) else {
        assert!(rt; false, "a fault");
        return Ok(());
    };
    for (kind, want) in [
        (AccessKind::Fetch, [true, false, true, false]),
        (AccessKind::Slot, [true, false, true, false]),
        (AccessKind::Load, [false, true, true, false]),
        (AccessKind::Store, [false, false, false, false]),
    ] {
        for cache in 0..4u32 {
            assert_eq!(rt;
                profile.in_chain(cache, kind),
                want[cache as usize],
                "at {cache}"
            );
        }
    }
    Ok(())
}

#[test]
fn stages_are_the_caches_and_then_memory(rt: HostRuntime) -> Result<(), Fail> {
    let Some(profile) = read(rt.alloc(), THREE) else {
        assert!(rt; false, "a fault");
        return Ok(());
    };
    for (kind, want) in [
        (AccessKind::Fetch, [0, 1, 9, 50, 0]),
        (AccessKind::Slot, [0, 1, 9, 50, 0]),
        (AccessKind::Load, [0, 2, 9, 50, 0]),
        (AccessKind::Store, [0, 0, 0, 0, 0]),
    ] {
        for stage in 0..5u32 {
            assert_eq!(rt;
                profile.stage_latency(kind, stage),
                want[stage as usize],
                "at {stage}"
            );
        }
    }
    Ok(())
}

#[test]
fn without_caches_memory_is_the_only_stage(rt: HostRuntime) -> Result<(), Fail> {
    let plain = Profile::plain(rt.alloc());
    for (stage, want) in [(0, 0), (1, 10), (2, 0)] {
        assert_eq!(rt;
            plain.stage_latency(AccessKind::Load, stage),
            want,
            "at {stage}"
        );
    }
    assert_eq!(rt; plain.stage_latency(AccessKind::Store, 1), 0);
    Ok(())
}

#[test]
fn values_of_another_kind(rt: HostRuntime) -> Result<(), Fail> {
    let alloc = rt.alloc();
    for (text, want) in [
        ("cache = 5", "range cache"),
        ("cache = \"fetch\"", "range cache"),
        // Keys inside a value of another kind aren't looked at.
        ("cache.speed = 3", "range cache"),
        ("cache = [1]", "range cache[0]"),
        ("cache = [[]]", "range cache[0]"),
        ("cache = [1, 1, 1, 1, 1, 1, 1]", "range cache"),
        // Keys of each table are looked at, also where there are too many.
        ("cache = [1, 1, 1, 1, 1, 1, {}]", "key cache[6].latency"),
        ("[[cache]]", "key cache[0].latency"),
        ("cache = [{ latency = 1 }]", "key cache[0].line"),
        ("cache = [{ latency = 1, line = 5 }]", "key cache[0].serves"),
        ("[[cache]]\nspeed = 3", "key cache[0].latency"),
    ] {
        assert_eq!(rt; said(alloc, text.as_bytes())?.as_str(), want, "at {text}");
    }
    Ok(())
}

#[test]
fn each_key_of_a_cache_keeps_its_limits(rt: HostRuntime) -> Result<(), Fail> {
    let alloc = rt.alloc();
    for (serves, sizes, latency, want) in [
        ("'fetch'", (1, 1, 4), "0", "ok"),
        ("'load'", (1024, 16, 256), "1_000_000", "ok"),
        ("'both'", (2, 3, 8), "7", "ok"),
        ("'data'", (1, 1, 4), "1", "range cache[0].serves"),
        ("'Fetch'", (1, 1, 4), "1", "range cache[0].serves"),
        ("''", (1, 1, 4), "1", "range cache[0].serves"),
        ("1", (1, 1, 4), "1", "range cache[0].serves"),
        ("'both'", (0, 1, 4), "1", "range cache[0].sets"),
        ("'both'", (3, 1, 4), "1", "range cache[0].sets"),
        ("'both'", (-2, 1, 4), "1", "range cache[0].sets"),
        ("'both'", (2048, 1, 4), "1", "range cache[0].sets"),
        ("'both'", (1, 0, 4), "1", "range cache[0].ways"),
        ("'both'", (1, 17, 4), "1", "range cache[0].ways"),
        ("'both'", (1, 1, 2), "1", "range cache[0].line"),
        ("'both'", (1, 1, 6), "1", "range cache[0].line"),
        ("'both'", (1, 1, 512), "1", "range cache[0].line"),
        ("'both'", (1, 1, 4), "-1", "range cache[0].latency"),
        ("'both'", (1, 1, 4), "1_000_001", "range cache[0].latency"),
        ("'both'", (1, 1, 4), "1.0", "range cache[0].latency"),
        ("'both'", (1, 1, 4), "1, speed = 3", "key cache[0].speed"),
        ("'data'", (3, 0, 2), "-1", "range cache[0].latency"),
    ] {
        let (sets, ways, line) = sizes;
        let text = format!(in alloc;
            "cache = [{{ serves = {serves}, sets = {sets}, ways = {ways}, line = {line}, latency = {latency} }}]"
        )?;
        assert_eq!(rt; said(alloc, text.as_bytes())?.as_str(), want, "at {text}");
    }
    Ok(())
}

/// Caches that serve these, each of one block.
fn caches(alloc: Global, words: &[&str]) -> Result<Vec<u8>, Fail> {
    let mut text = Vec::new(alloc);
    for word in words {
        let cache = format!(in alloc;
            "[[cache]]\nserves = \"{word}\"\nsets = 1\nways = 1\nline = 4\nlatency = 1\n"
        )?;
        text.extend_from_slice(cache.as_bytes())?;
    }
    Ok(text)
}

/// What is said of caches that serve these.
fn said_of(alloc: Global, words: &[&str]) -> Result<String, Fail> {
    said(alloc, &caches(alloc, words)?)
}

#[test]
fn no_chain_has_more_than_three(rt: HostRuntime) -> Result<(), Fail> {
    let alloc = rt.alloc();
    let fourth = "range cache[3].serves";
    let fifth = "range cache[4].serves";
    assert_eq!(rt; said_of(alloc, &["both", "both", "both"])?.as_str(), "ok");
    assert_eq!(rt;
        said_of(alloc, &["fetch", "load", "fetch", "load", "fetch", "load"])?.as_str(),
        "ok"
    );
    assert_eq!(rt;
        said_of(alloc, &["fetch", "both", "fetch", "load", "load"])?.as_str(),
        "ok"
    );
    assert_eq!(rt;
        said_of(alloc, &["fetch", "both", "fetch", "fetch"])?.as_str(),
        fourth
    );
    assert_eq!(rt;
        said_of(alloc, &["load", "load", "load", "both"])?.as_str(),
        fourth
    );
    assert_eq!(rt;
        said_of(alloc, &["both", "load", "fetch", "load", "both"])?.as_str(),
        fifth
    );
    // The first one of those that are too many.
    assert_eq!(rt;
        said_of(alloc, &["fetch", "fetch", "fetch", "both", "fetch"])?.as_str(),
        fourth
    );
    // Where there are too many caches, that is answered.
    assert_eq!(rt; said_of(alloc, &["both"; 7])?.as_str(), "range cache");
    assert_eq!(rt;
        said_of(
            alloc,
            &["fetch", "load", "fetch", "load", "fetch", "load", "data"]
        )?
        .as_str(),
        "range cache"
    );
    // An element without one of the words doesn't count.
    assert_eq!(rt;
        said_of(alloc, &["data", "both", "both", "both"])?.as_str(),
        "range cache[0].serves"
    );
    Ok(())
}

#[test]
fn a_cache_with_other_faults_counts(rt: HostRuntime) -> Result<(), Fail> {
    let alloc = rt.alloc();
    let mut text = caches(alloc, &["load", "load", "load"])?;
    // Its three sets are a fault too, at a greater path.
    text.extend_from_slice(
        b"[[cache]]\nserves = \"both\"\nsets = 3\nways = 1\nline = 4\nlatency = 1\n",
    )?;
    assert_eq!(rt; said(alloc, &text)?.as_str(), "range cache[3].serves");
    Ok(())
}
