//! Certificates that are checked for the program of a function that returns at once: arc 1 is taken once, and the place
//! is left as often as it is come to. Arc 1 has the value 22, arc 2 none.

ghost use Rattle.std.specs.Prelude.{◌≡◌, ◌≤◌, IfOk, unsigned_abs};
ghost use Rattle.ipet_program.specs.Programs.{IsCheckable, IsSmallRow};

use super::{FIRST_LINE, RETURN};
use crate::{Reason, Reject, Scratch, check, read_certificate};
use ipet_program::{Program, Row, Term};
use std::alloc::{AllocError, Global};
use std::test::Fail;
use wcet_io::List;

/// A row of two terms, in columns 1 and 2, whose sum is the right side.
fn row_of(alloc: Global, first: i64, second: i64, right: i64) -> Result<Row, AllocError>
    requires first { unsigned_abs first ≤ 8 }
    requires second { unsigned_abs second ≤ 8 }
    requires right { unsigned_abs right ≤ 8 }
    ensures { IfOk result (IsSmallRow 2) }
{
    let terms = vec![in alloc;
        Term {
            column: 1,
            factor: first
        },
        Term {
            column: 2,
            factor: second
        },
    ]?;
    Ok(Row {
        equal: true,
        terms: List::from_vec(terms),
        right,
    })
}

/// The program.
fn program(alloc: Global) -> Result<Program, AllocError>
    ensures { IfOk result IsCheckable }
{
    let entry = row_of(alloc, 1, 0, 1)?;
    let place = row_of(alloc, 1, -1, 0)?;
    let rows = vec![in alloc; entry, place]?;
    let value = vec![in alloc; 22, 0]?;
    let caps = vec![in alloc; 1, 1]?;
    Ok(Program {
        columns: 2,
        rows: List::from_vec(rows),
        value: List::from_vec(value),
        caps: List::from_vec(caps),
        stages: List::new(alloc),
    })
}

/// What is told of the certificate of a text.
fn told(alloc: Global, text: &[u8]) -> Result<Option<Reject>, AllocError> {
    if text.len() > 1 << 20 {
        return Err(AllocError);
    }
    let Ok(certificate) = read_certificate(alloc, text, FIRST_LINE) else {
        return Err(AllocError);
    };
    let counts = certificate.counts.as_slice().len();
    let nodes = certificate.tree.as_slice().len();
    if counts > 1 << 20 || nodes > 1 << 20 || certificate.reached_line > 1 << 20 {
        return Err(AllocError);
    }
    let program = program(alloc)?;
    let mut scratch = Scratch::new(alloc, &program, &certificate)?;
    Ok(check(&program, &certificate, &mut scratch).err())
}

#[test]
fn accepts_what_is_valid(rt: HostRuntime) -> Result<(), Fail> {
    let alloc = rt.alloc();
    let valid: [&[u8]; 5] = [
        RETURN,
        b"bound 23\nreached 22\nvalue 1 1\nvalue 2 1\nleaf 1 1:22\nend\n",
        b"bound 22\nreached 22\nvalue 1 1\nvalue 2 1\nleaf 2 1:44\nend\n",
        b"bound 22\nreached 22\nvalue 1 1\nvalue 2 1\nsplit 1 0\nleaf 1 1:22\nleaf 1 1:22\nend\n",
        b"bound 22\nreached 22\nvalue 1 1\nvalue 2 1\nsplit 1 0\nempty 1:-1 3:1\nleaf 1 1:22\nend\n",
    ];
    for text in valid {
        assert_eq!(rt; told(alloc, text)?, None);
    }
    Ok(())
}

#[test]
fn tells_the_first_reason_at_its_least_line(rt: HostRuntime) -> Result<(), Fail> {
    let alloc = rt.alloc();
    let rows: [(&[u8], Reason, u32); 18] = [
        (
            b"bound 22\nreached 22\nvalue 1 1\nvalue 2 1\nleaf 1 1:21\nend\n",
            Reason::Dual,
            12,
        ),
        (
            b"bound 21\nreached 22\nvalue 1 1\nvalue 2 1\nleaf 1 1:22\nend\n",
            Reason::Dual,
            12,
        ),
        (
            b"bound 22\nreached 22\nvalue 1 1\nleaf 1 1:22\nend\n",
            Reason::Counts,
            9,
        ),
        (
            b"bound 22\nreached 22\nvalue 2 1\nleaf 1 1:22\nend\n",
            Reason::Counts,
            9,
        ),
        (
            b"bound 22\nreached 22\nleaf 1 1:22\nend\n",
            Reason::Counts,
            9,
        ),
        (
            b"bound 22\nreached 21\nvalue 1 1\nvalue 2 1\nleaf 1 1:22\nend\n",
            Reason::Counts,
            9,
        ),
        (
            b"bound 22\nreached 22\nvalue 0 1\nvalue 1 1\nvalue 2 1\nleaf 1 1:22\nend\n",
            Reason::Counts,
            9,
        ),
        (
            b"bound 22\nreached 22\nvalue 1 1\nvalue 2 1\nvalue 3 1\nleaf 1 1:22\nend\n",
            Reason::Counts,
            9,
        ),
        (
            b"bound 22\nreached 22\nvalue 1 1\nvalue 2 1\nleaf 0 1:22\nend\n",
            Reason::Tree,
            12,
        ),
        (
            b"bound 22\nreached 22\nvalue 1 1\nvalue 2 1\nleaf 1 0:22\nend\n",
            Reason::Tree,
            12,
        ),
        (
            b"bound 22\nreached 22\nvalue 1 1\nvalue 2 1\nleaf 1 3:22\nend\n",
            Reason::Tree,
            12,
        ),
        (
            b"bound 22\nreached 22\nvalue 1 1\nvalue 2 1\nsplit 1 1\nleaf 1 1:22\nleaf 1 1:22\nend\n",
            Reason::Tree,
            12,
        ),
        (
            b"bound 22\nreached 22\nvalue 1 1\nvalue 2 1\nsplit 0 0\nleaf 1 1:22\nleaf 1 1:22\nend\n",
            Reason::Tree,
            12,
        ),
        (
            b"bound 22\nreached 22\nvalue 1 1\nvalue 2 1\nsplit 3 0\nleaf 1 1:22\nleaf 1 1:22\nend\n",
            Reason::Tree,
            12,
        ),
        (
            b"bound 22\nreached 22\nvalue 1 1\nvalue 2 1\nsplit 1 0\nempty 1:1 3:-1\nleaf 1 1:22\nend\n",
            Reason::Tree,
            13,
        ),
        (
            b"bound 22\nreached 22\nvalue 1 1\nvalue 2 1\nleaf 1 1:170141183460469231731687303715884105727 2:1\nend\n",
            Reason::Wide,
            12,
        ),
        (
            b"bound 22\nreached 22\nvalue 1 1\nvalue 2 1\nsplit 1 0\nleaf 1 1:21\nleaf 1 1:20\nend\n",
            Reason::Dual,
            13,
        ),
        (
            b"bound 22\nreached 22\nvalue 1 1\nvalue 2 1\nsplit 1 0\nleaf 1\nleaf 1 1:170141183460469231731687303715884105727 2:1\nend\n",
            Reason::Wide,
            14,
        ),
    ];
    for (text, reason, line) in rows {
        assert_eq!(rt; told(alloc, text)?, Some(Reject { reason, line }));
    }
    Ok(())
}
