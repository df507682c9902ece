//! Numbers at their limits, and what is no number.

use super::told;
use std::alloc::{AllocError, Global};
use std::test::Fail;

/// The line told of a text whose line of this number is changed, or 0 where it is read. The line is given without its
/// newline.
fn told_of(alloc: Global, place: u32, changed: &str) -> Result<u32, AllocError> {
    let mut text = Vec::new(alloc);
    for (number, other) in [
        (8, "bound 0"),
        (9, "reached 0"),
        (10, "value 1 1"),
        (11, "leaf 1 1:22"),
        (12, "end"),
    ] {
        let line = if number == place { changed } else { other };
        text.extend_from_slice(line.as_bytes())?;
        text.push(b'\n')?;
    }
    told(alloc, &text)
}

#[test]
fn takes_numbers_up_to_their_limits(rt: HostRuntime) -> Result<(), Fail> {
    let alloc = rt.alloc();
    let rows = [
        (8, "bound 18446744073709551615"),
        (9, "reached 18446744073709551615"),
        (10, "value 0 1"),
        (10, "value 4294967295 18446744073709551615"),
        (11, "leaf 170141183460469231731687303715884105727 0:1"),
        (11, "leaf -170141183460469231731687303715884105728"),
        (
            11,
            "leaf 1 18446744073709551615:170141183460469231731687303715884105727",
        ),
        (
            11,
            "leaf 1 1:-170141183460469231731687303715884105728 2:-1 10:1",
        ),
    ];
    for (place, line) in rows {
        assert_eq!(rt; told_of(alloc, place, line)?, 0, "{line}");
    }
    Ok(())
}

#[test]
fn refuses_what_is_no_number(rt: HostRuntime) -> Result<(), Fail> {
    let alloc = rt.alloc();
    let rows = [
        (8, "bound 18446744073709551616"),
        (8, "bound 184467440737095516150"),
        (8, "bound 340282366920938463463374607431768211456"),
        (8, "bound 022"),
        (8, "bound 00"),
        (8, "bound -0"),
        (8, "bound +1"),
        (8, "bound -1"),
        (8, "bound "),
        (8, "bound 0x16"),
        (9, "reached 18446744073709551616"),
        (10, "value 4294967296 1"),
        (10, "value 1 18446744073709551616"),
        (10, "value 1 0"),
        (10, "value 1 01"),
        (10, "value 1 -1"),
        (10, "value 1"),
        (11, "split 4294967296 1"),
        (11, "split 1 18446744073709551616"),
        (11, "split 1 -1"),
        (11, "leaf 170141183460469231731687303715884105728 1:1"),
        (11, "leaf -170141183460469231731687303715884105729 1:1"),
        (11, "leaf -0 1:1"),
        (11, "leaf 01 1:1"),
        (11, "leaf 1:1"),
        (11, "leaf 1 1:170141183460469231731687303715884105728"),
        (11, "leaf 1 1:-170141183460469231731687303715884105729"),
        (11, "leaf 1 18446744073709551616:1"),
        (11, "leaf 1 -1:1"),
        (11, "leaf 1 01:1"),
        (11, "leaf 1 1:0"),
        (11, "leaf 1 1:-0"),
        (11, "leaf 1 1:+1"),
        (11, "leaf 1 1:--1"),
        (11, "leaf 1 1:01"),
        (11, "leaf 1 1:-01"),
        (11, "leaf 1 1:"),
        (11, "leaf 1 1"),
        (11, "leaf 1 2:1 1:1"),
        (11, "leaf 1 2:1 2:1"),
        (11, "empty 1 1:1"),
        (11, "emptyend"),
    ];
    for (place, line) in rows {
        assert_eq!(rt; told_of(alloc, place, line)?, place, "{line}");
    }
    Ok(())
}
