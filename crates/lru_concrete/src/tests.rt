//! Touches and accesses of small caches, worked out by hand.

ghost use Rattle.std.specs.Prelude.{◌≡◌, [], ◌∷◌, IfOk};

use crate::{Cache, Caches, Level, Serves, Shape, Side, Visit};
use std::alloc::{AllocError, Global};
use std::test::Fail;
use wcet_io::List;

/// One set of two ways.
fn pair() -> Shape
    ensures sets { result.sets ≡ 1 }
    ensures ways { result.ways ≡ 2 }
{
    Shape {
        sets: 1,
        ways: 2,
        line: 16,
    }
}

/// The most sets and the most ways, of the shortest blocks.
fn largest() -> Shape {
    Shape {
        sets: 1024,
        ways: 16,
        line: 4,
    }
}

/// One block, the longest.
fn one_block() -> Shape {
    Shape {
        sets: 1,
        ways: 1,
        line: 256,
    }
}

/// Two blocks in one set: 7 was touched later than 9.
fn seven_and_nine(alloc: Global) -> Result<Cache, AllocError>
    ensures blocks { IfOk result (λ cache. cache.blocks ≡ (7 ∷ 9 ∷ []) ∷ []) }
    ensures sets { IfOk result (λ cache. cache.shape.sets ≡ 1) }
    ensures ways { IfOk result (λ cache. cache.shape.ways ≡ 2) }
{
    let blocks = List::from_vec(vec![in alloc; 7, 9]?);
    let sets = vec![in alloc; blocks]?;
    Cache::holding(alloc, pair(), &sets)
}

#[test]
fn touched_block_moves_to_the_front(rt: HostRuntime) -> Result<(), Fail> {
    let mut cache = seven_and_nine(rt.alloc())?;
    // 9, 7; then 8, 9; then 7, 8.
    assert!(rt; cache.touch(9));
    assert!(rt; !cache.touch(8));
    assert!(rt; !cache.touch(7));
    assert!(rt; cache.touch(8));
    assert!(rt; !cache.touch(9));
    Ok(())
}

#[test]
fn full_set_drops_its_oldest_block(rt: HostRuntime) -> Result<(), Fail> {
    let mut cache = Cache::empty(rt.alloc(), largest())?;
    // Sixteen blocks of set 0, and one of set 1023.
    for way in 0..16 {
        assert!(rt; !cache.touch(1024 * way));
    }
    assert!(rt; !cache.touch(1023));
    assert!(rt; cache.touch(0));
    // The oldest one is now 1024.
    assert!(rt; !cache.touch(1024 * 16));
    assert!(rt; cache.touch(0));
    assert!(rt; cache.touch(1024 * 2));
    assert!(rt; !cache.touch(1024));
    assert!(rt; cache.touch(1023));
    Ok(())
}

/// The caches of one level.
fn alone(alloc: Global, level: Level) -> Result<Caches, AllocError> {
    Caches::empty(alloc, &[level], 10)
}

#[test]
fn blocks_are_as_long_as_lines(rt: HostRuntime) -> Result<(), Fail> {
    let alloc = rt.alloc();
    let miss = Visit {
        caches: 1,
        hit: false,
        cycles: 11,
    };
    let hit = Visit {
        caches: 1,
        hit: true,
        cycles: 1,
    };
    let mut caches = alone(
        alloc,
        Level {
            shape: largest(),
            serves: Serves::Both,
            latency: 1,
        },
    )?;
    assert_eq!(rt; caches.access(Side::Fetch, 0), miss);
    assert_eq!(rt; caches.access(Side::Load, 3), hit);
    assert_eq!(rt; caches.access(Side::Load, 4), miss);
    let mut caches = alone(
        alloc,
        Level {
            shape: one_block(),
            serves: Serves::Both,
            latency: 1,
        },
    )?;
    assert_eq!(rt; caches.access(Side::Fetch, 256), miss);
    assert_eq!(rt; caches.access(Side::Load, 511), hit);
    assert_eq!(rt; caches.access(Side::Load, 255), miss);
    assert_eq!(rt; caches.access(Side::Load, 256), miss);
    Ok(())
}

#[test]
fn fetch_goes_on_to_the_second_level(rt: HostRuntime) -> Result<(), Fail> {
    let alloc = rt.alloc();
    let first = Level {
        shape: pair(),
        serves: Serves::Fetch,
        latency: 1,
    };
    let second = Level {
        shape: pair(),
        serves: Serves::Both,
        latency: 5,
    };
    let caches = List::from_vec(vec![in alloc;
        Cache::empty(alloc, first.shape)?,
        Cache::empty(alloc, second.shape)?,
    ]?);
    let levels = List::from_vec(vec![in alloc; first, second]?);
    let mut caches = Caches::new(alloc, levels, caches, 10)?;
    // The load passes the first cache by; memory answers.
    let visit = |caches, hit, cycles| Visit {
        caches,
        hit,
        cycles,
    };
    assert_eq!(rt; caches.access(Side::Load, 0x100), visit(1, false, 15));
    // The fetch finds the block in the second cache and leaves it in the first one.
    assert_eq!(rt; caches.access(Side::Fetch, 0x104), visit(2, true, 6));
    assert_eq!(rt; caches.access(Side::Fetch, 0x108), visit(1, true, 1));
    // A hit in the first cache leaves the second one as it was: there 0x300 drops 0x100.
    assert_eq!(rt; caches.access(Side::Load, 0x200), visit(1, false, 15));
    assert_eq!(rt; caches.access(Side::Fetch, 0x100), visit(1, true, 1));
    assert_eq!(rt; caches.access(Side::Load, 0x300), visit(1, false, 15));
    assert_eq!(rt; caches.access(Side::Load, 0x100), visit(1, false, 15));
    assert_eq!(rt; caches.access(Side::Fetch, 0x100), visit(1, true, 1));
    assert_eq!(rt; caches.access(Side::Fetch, 0x400), visit(2, false, 16));
    Ok(())
}
