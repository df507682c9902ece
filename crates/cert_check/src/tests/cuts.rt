//! Texts that are cut short, and texts with a line changed.

use super::{FIRST_LINE, RETURN, told};
use std::test::Fail;

/// Each kind of line.
const ALL: &[u8] =
    b"bound 22\nreached 21\nvalue 1 1\nvalue 7 30\nsplit 7 4\nleaf 2 1:-22 4:5\nempty 3:-1\nend\n";

#[test]
fn refuses_texts_that_are_cut(rt: HostRuntime) -> Result<(), Fail> {
    let alloc = rt.alloc();
    for text in [RETURN, ALL] {
        assert_eq!(rt; told(alloc, text)?, 0);
        // The line that is cut is the first that can't be, also where nothing of it is left.
        let mut line = FIRST_LINE;
        for (cut, byte) in text.iter().enumerate() {
            assert_eq!(rt; told(alloc, &text[..cut])?, line, "cut to {cut} bytes");
            if *byte == b'\n' {
                line = line.saturating_add(1);
            }
        }
    }
    Ok(())
}

#[test]
fn reads_or_refuses_changed_lines(rt: HostRuntime) -> Result<(), Fail> {
    let alloc = rt.alloc();
    // Where a certificate isn't valid, its text is read all the same.
    let rows: [(&[u8], u32); 24] = [
        (
            b"bound 22\nreached 22\nvalue 1 1\nvalue 2 1\nleaf 1 1:21\nend\n",
            0,
        ),
        (
            b"bound 21\nreached 22\nvalue 1 1\nvalue 2 1\nleaf 1 1:22\nend\n",
            0,
        ),
        (
            b"bound 22\nreached 21\nvalue 1 2\nvalue 2 1\nleaf 1 1:22\nend\n",
            0,
        ),
        (b"bound 22\nreached 22\nvalue 1 1\nleaf 1 1:22\nend\n", 0),
        (b"bound 22\nreached 22\nleaf 0 1:22\nend\n", 0),
        (b"bound 22\nreached 22\nleaf 1 3:22\nend\n", 0),
        (b"bound 22\nreached 22\nempty 1:-1\nend\n", 0),
        (b"bound 22\nreached 22\nleaf -1\nend\n", 0),
        (b"bound 22\nreached 22\nempty\nend\n", 0),
        (
            b"bound 22\nreached 22\nsplit 1 1\nleaf 1 1:22\nleaf 1 1:22\nend\n",
            0,
        ),
        // A line is missing, stands twice, or stands at a wrong place.
        (b"reached 22\nbound 22\nleaf 1 1:22\nend\n", 8),
        (b"bound 22\nbound 22\nreached 22\nleaf 1 1:22\nend\n", 9),
        (b"bound 22\nreached 22\nend\n", 10),
        (
            b"bound 22\nreached 22\nvalue 2 1\nvalue 1 1\nleaf 1 1:22\nend\n",
            11,
        ),
        (
            b"bound 22\nreached 22\nvalue 2 1\nvalue 2 1\nleaf 1 1:22\nend\n",
            11,
        ),
        (b"bound 22\nreached 22\nleaf 1 1:22\nvalue 1 1\nend\n", 11),
        (b"bound 22\nreached 22\nleaf 1 1:22\nleaf 1 1:22\nend\n", 11),
        (b"bound 22\nreached 22\nsplit 1 1\nleaf 1 1:22\nend\n", 12),
        (b"bound 22\nreached 22\nleaf 1 1:22\nend\nend\n", 12),
        // A line is spelt otherwise.
        (b"bound 22\r\nreached 22\nleaf 1 1:22\nend\n", 8),
        (b"bound 22\nreached  22\nleaf 1 1:22\nend\n", 9),
        (b"bound 22\nreached 22\nleaf 1 1:22 \nend\n", 10),
        (b"bound 22\nreached 22\nleaf 1 1:22\n\nend\n", 11),
        (b"bound 22\nreached 22\nleaf 1 1:22\nend\n\n", 12),
    ];
    for (number, (text, line)) in rows.iter().enumerate() {
        assert_eq!(rt; told(alloc, text)?, *line, "of text {number}");
    }
    Ok(())
}
