//! Texts with a fault, and texts that look like one.

use crate::test_texts::said;
use std::alloc::Global;
use std::test::Fail;

#[test]
fn texts_that_are_no_documents(rt: HostRuntime) -> Result<(), Fail> {
    let alloc = rt.alloc();
    for text in [
        "memory = ",
        "memory 10",
        // A key and a table may be given once.
        "memory = 1\nmemory = 1",
        "[cycles]\nalu = 1\n[cycles]\njump = 1",
        "cycles.alu = 1\n[cycles]\njump = 1",
        "region = []\n[[region]]\nstart = 0\nsize = 1",
        // An integer of more than 64 bits.
        "memory = 9223372036854775808",
        "memory = 1__0",
        "memory = 010",
    ] {
        assert_eq!(rt; said(alloc, text.as_bytes())?.as_str(), "text", "at {text}");
    }
    // A byte that no text in UTF-8 has, even in a comment.
    assert_eq!(rt; said(alloc, b"memory = 1 # \xFF")?.as_str(), "text");
    Ok(())
}

/// The text `memory = ` with an array of arrays, so many deep.
fn nested(alloc: Global, depth: usize) -> Result<Vec<u8>, Fail> {
    let mut text = Vec::new(alloc);
    text.extend_from_slice(b"memory = ")?;
    for _ in 0..depth {
        text.push(b'[')?;
    }
    for _ in 0..depth {
        text.push(b']')?;
    }
    Ok(text)
}

#[test]
fn deep_nesting_is_refused(rt: HostRuntime) -> Result<(), Fail> {
    let alloc = rt.alloc();
    assert_eq!(rt; said(alloc, &nested(alloc, 2)?)?.as_str(), "range memory");
    assert_eq!(rt; said(alloc, &nested(alloc, 100_000)?)?.as_str(), "text");
    Ok(())
}

#[test]
fn unknown_keys(rt: HostRuntime) -> Result<(), Fail> {
    let alloc = rt.alloc();
    for (text, want) in [
        ("speed = 1", "key speed"),
        ("Memory = 1", "key Memory"),
        ("cycles.foo = 1", "key cycles.foo"),
        // The class of moves from HI and LO has the key `move`.
        ("cycles.hilo = 1", "key cycles.hilo"),
        ("start = 1", "key start"),
        (
            "region = [{ start = 0, size = 1, end = 2 }]",
            "key region[0].end",
        ),
        // A fault of a key comes before one of a value.
        ("memory = -1\nzed = 1", "key zed"),
        ("cycles.alu = 0\ncycles.zed = 0", "key cycles.zed"),
        // Of several the one with the least path, whatever their order.
        ("zed = 1\nback = 1\ncycles.a = 1", "key back"),
        ("b = 1\ncycles.b = 1\na = 1", "key a"),
        // A name that is a front of another one is less.
        ("ab = 1\na = 1", "key a"),
        // What stands under an unknown key isn't looked at.
        ("zed.memory = -1", "key zed"),
    ] {
        assert_eq!(rt; said(alloc, text.as_bytes())?.as_str(), want, "at {text}");
    }
    Ok(())
}

#[test]
fn printed_paths(rt: HostRuntime) -> Result<(), Fail> {
    let alloc = rt.alloc();
    for (text, want) in [
        ("\"a b\" = 1", "key a?b"),
        ("\"a\\nb\" = 1", "key a?b"),
        ("\"\\u007F!~\" = 1", "key ?!~"),
        // Each of the two bytes of a letter that isn't ASCII.
        ("\"\\u00E9\" = 1", "key ??"),
        ("cycles.\"a b\" = 1", "key cycles.a?b"),
        ("\"\" = 1", "key "),
        ("\"a.b\" = 1", "key a.b"),
        // The printed bytes are compared: a space stands behind `>` when it is a question mark.
        ("\"a b\" = 1\n\"a>b\" = 1", "key a>b"),
    ] {
        assert_eq!(rt; said(alloc, text.as_bytes())?.as_str(), want, "at {text}");
    }
    Ok(())
}

#[test]
fn values_of_another_kind(rt: HostRuntime) -> Result<(), Fail> {
    let alloc = rt.alloc();
    for key in [
        "memory",
        "store",
        "splits",
        "steps",
        "stack_top",
        "stack_size",
        "gp",
        "cycles.alu",
        "cycles.shift",
        "cycles.mult",
        "cycles.div",
        "cycles.move",
        "cycles.load",
        "cycles.store",
        "cycles.branch",
        "cycles.jump",
        "cycles.stop",
    ] {
        for value in [
            "1.0",
            "\"1\"",
            "true",
            "1979-05-27",
            "1979-05-27T07:32:00Z",
            "07:32:00",
            "[1]",
            "{ x = 1 }",
            "inf",
        ] {
            let text = format!(in alloc; "{key} = {value}")?;
            let want = format!(in alloc; "range {key}")?;
            assert_eq!(rt;
                said(alloc, text.as_bytes())?.as_str(),
                want.as_str(),
                "at {text}"
            );
        }
    }
    Ok(())
}

#[test]
fn texts_tables_and_arrays_of_another_kind(rt: HostRuntime) -> Result<(), Fail> {
    let alloc = rt.alloc();
    for (text, want) in [
        ("entry = 1", "range entry"),
        ("entry = [\"main\"]", "range entry"),
        ("entry.name = \"main\"", "range entry"),
        ("entry = true", "range entry"),
        ("entry = 1979-05-27", "range entry"),
        ("cycles = 1", "range cycles"),
        ("cycles = \"alu\"", "range cycles"),
        ("cycles = [{ alu = 1 }]", "range cycles"),
        // Keys inside a value of another kind aren't looked at.
        ("[[cycles]]\nzed = 1", "range cycles"),
        ("region = 1", "range region"),
        ("region = { start = 0, size = 1 }", "range region"),
        ("[region]\nzed = 1", "range region"),
        ("region = [1]", "range region[0]"),
        ("region = [{ start = 0, size = 1 }, []]", "range region[1]"),
        ("region = [[{ zed = 1 }]]", "range region[0]"),
        (
            "region = [{ start = 1.0, size = 1 }]",
            "range region[0].start",
        ),
        (
            "region = [{ start = 0, size = \"1\" }]",
            "range region[0].size",
        ),
        (
            "region = [{ start = [], size = {} }]",
            "range region[0].size",
        ),
    ] {
        assert_eq!(rt; said(alloc, text.as_bytes())?.as_str(), want, "at {text}");
    }
    Ok(())
}
