//! Loops of short functions, with their headers, bodies and bounds worked out by hand.

use crate::{Nests, find_loops};
use elf_mips::{Image, read_image};
use std::alloc::{AllocError, Global};
use std::test::Fail;
use unit_graph::{CodeFault, CodeKind, function_graphs};

/// Where the code begins, and its first unit stands.
const START: u32 = 0x0040_0000;

/// jr $31.
const RETURN: u32 = 0x03E0_0008;

/// A record that bounds a loop: its address, and how many times the header is done at most.
type Bound = (u32, u32);

/// A loop: its header, its body and its bound.
type Row<'a> = (u32, &'a [u32], u32);

fn push_words(file: &mut Vec<u8>, words: &[u32]) -> Result<(), AllocError> {
    for word in words {
        file.extend_from_slice(&word.to_be_bytes())?;
    }
    Ok(())
}

/// A big-endian MIPS I executable of these words, with these records.
fn file_of(alloc: Global, words: &[u32], records: &[Bound]) -> Result<Vec<u8>, Fail> {
    if words.len() > 100_000 || records.len() > 1000 {
        return Err("a large file".into());
    }
    let size = 4 * words.len() as u32;
    let marks = 16 * records.len() as u32;
    let sections = size + marks + 101;
    let mut file = Vec::new(alloc);
    push_words(
        &mut file,
        &[0x7F45_4C46, 0x0102_0100, 0, 0, 0x0002_0008, 1, START, 52],
    )?;
    push_words(
        &mut file,
        &[sections, 0, 0x0034_0020, 0x0001_0028, 0x0003_0002],
    )?;
    push_words(&mut file, &[1, 84, START, START, size, size, 5, 4])?;
    push_words(&mut file, words)?;
    for (address, bound) in records {
        push_words(&mut file, &[1, *address, *bound, 0])?;
    }
    file.extend_from_slice(b"\0.wcet\0.shstrtab\0")?;
    push_words(&mut file, &[0; 10])?;
    push_words(&mut file, &[1, 1, 0, 0, size + 84, marks, 0, 0, 0, 0])?;
    push_words(&mut file, &[7, 3, 0, 0, size + marks + 84, 17, 0, 0, 0, 0])?;
    Ok(file)
}

fn image_of(alloc: Global, words: &[u32], records: &[Bound]) -> Result<Image, Fail> {
    let file = file_of(alloc, words, records)?;
    if file.len() > 1_000_000 {
        return Err("a long file".into());
    }
    Ok(read_image(alloc, &file)?)
}

/// The loops of the function of these words, or their fault.
fn loops_of(
    alloc: Global,
    words: &[u32],
    records: &[Bound],
) -> Result<Result<Nests, CodeFault>, Fail> {
    let image = image_of(alloc, words, records)?;
    match function_graphs(alloc, &image, START) {
        Ok(graphs) => Ok(find_loops(alloc, &graphs, &image)),
        Err(_) => Err("no graph".into()),
    }
}

/// Whether the only function has these loops.
fn are_loops(nests: &Nests, rows: &[Row]) -> bool {
    let [loops] = nests.nests.as_slice() else {
        return false;
    };
    let loops = loops.as_slice();
    if loops.len() != rows.len() {
        return false;
    }
    for (one, (header, body, bound)) in loops.iter().zip(rows) {
        if one.header != *header || one.body.as_slice() != *body || one.bound != *bound {
            return false;
        }
    }
    true
}

/// Whether the function of these words has these loops.
fn has_loops(alloc: Global, words: &[u32], records: &[Bound], rows: &[Row]) -> Result<bool, Fail> {
    match loops_of(alloc, words, records)? {
        Ok(nests) => Ok(are_loops(&nests, rows)),
        Err(_) => Ok(false),
    }
}

/// A loop that counts from 5 down to 0: its header is at 00400004.
const COUNTED: [u32; 6] = [0x2408_0005, 0x2508_FFFF, 0x1500_FFFE, 0, RETURN, 0];

/// Three loops inside one another, whose headers are the first three units.
const NESTED: [u32; 11] = [
    0,
    0,
    0,
    0x1480_FFFE,
    0,
    0x1480_FFFB,
    0,
    0x1480_FFF8,
    0,
    RETURN,
    0,
];

/// A cycle that is entered at 00400008 and at 00400010.
const MIDDLE: [u32; 8] = [0x1080_0003, 0, 0x2508_FFFF, 0, 0x1500_FFFD, 0, RETURN, 0];

/// A cycle that is entered at 0040000C and at 00400014, in a loop of all units but the return.
const INSIDE: [u32; 11] = [
    0,
    0x1080_0003,
    0,
    0x2508_FFFF,
    0,
    0x1500_FFFD,
    0,
    0x1480_FFF8,
    0,
    RETURN,
    0,
];

#[test]
fn finds_loops(rt: HostRuntime) -> Result<(), Fail> {
    let alloc = rt.alloc();
    let body: [u32; 2] = [0x0040_0004, 0x0040_0008];
    // The least of the records that name the loop, by its header, its other unit and that one's slot.
    // Records of the unit before it, of the return and of no unit name nothing.
    let cases: [(&[Bound], u32); 4] = [
        (&[(0x0040_0004, 5)], 5),
        (&[(0x0040_000C, 6)], 6),
        (&[(0x0040_0004, 5), (0x0040_000C, 4), (0x0040_0008, 6)], 4),
        (
            &[
                (START, 1),
                (0x0040_0004, 9),
                (0x0040_0010, 2),
                (0x0040_0014, 3),
                (0, 1),
            ],
            9,
        ),
    ];
    for (records, bound) in cases {
        assert!(rt; has_loops(alloc, &COUNTED, records, &[(0x0040_0004, &body, bound)])?);
    }
    // bne to itself at the entry, named by its slot; and no loop at all.
    let own: [u32; 4] = [0x1480_FFFF, 0, RETURN, 0];
    assert!(rt; has_loops(alloc, &own, &[(0x0040_0004, 7)], &[(START, &[START], 7)])?);
    assert!(rt; has_loops(alloc, &[RETURN, 0], &[(START, 7)], &[])?);
    Ok(())
}

#[test]
fn finds_loops_in_loops(rt: HostRuntime) -> Result<(), Fail> {
    let alloc = rt.alloc();
    // Each record names the innermost loop of its unit.
    let records: [Bound; 3] = [(0x0040_001C, 2), (0x0040_0014, 3), (0x0040_000C, 4)];
    let outer: [u32; 6] = [
        START,
        0x0040_0004,
        0x0040_0008,
        0x0040_000C,
        0x0040_0014,
        0x0040_001C,
    ];
    let middle: [u32; 4] = [0x0040_0004, 0x0040_0008, 0x0040_000C, 0x0040_0014];
    let inner: [u32; 2] = [0x0040_0008, 0x0040_000C];
    let rows: [Row; 3] = [
        (START, &outer, 2),
        (0x0040_0004, &middle, 3),
        (0x0040_0008, &inner, 4),
    ];
    assert!(rt; has_loops(alloc, &NESTED, &records, &rows)?);
    // Two back arcs to one header are one loop, also where one of them goes from the header to itself.
    let two: [u32; 7] = [0, 0x1080_FFFE, 0, 0x14A0_FFFC, 0, RETURN, 0];
    let body: [u32; 3] = [START, 0x0040_0004, 0x0040_000C];
    assert!(rt; has_loops(alloc, &two, &[(START, 9)], &[(START, &body, 9)])?);
    let own: [u32; 6] = [0x1480_FFFF, 0, 0x14A0_FFFD, 0, RETURN, 0];
    let body: [u32; 2] = [START, 0x0040_0008];
    assert!(rt; has_loops(alloc, &own, &[(START, 8)], &[(START, &body, 8)])?);
    // The back arc goes forwards, from 00400008 to 00400010.
    let forwards: [u32; 8] = [0x0810_0004, 0, 0x0810_0004, 0, 0x1480_FFFD, 0, RETURN, 0];
    let body: [u32; 2] = [0x0040_0008, 0x0040_0010];
    let row: Row = (0x0040_0010, &body, 6);
    assert!(rt; has_loops(alloc, &forwards, &[(0x0040_0010, 6)], &[row])?);
    Ok(())
}

/// A call of the function at 00400018, and in each of the two a branch to itself.
const CALLED: [u32; 10] = [
    0x0C10_0006,
    0,
    0x1480_FFFF,
    0,
    RETURN,
    0,
    0x14A0_FFFF,
    0,
    RETURN,
    0,
];

#[test]
fn finds_loops_of_each_function(rt: HostRuntime) -> Result<(), Fail> {
    let alloc = rt.alloc();
    let records: [Bound; 2] = [(0x0040_0018, 4), (0x0040_0008, 3)];
    let Ok(nests) = loops_of(alloc, &CALLED, &records)? else {
        return Err("a fault".into());
    };
    let [own, called] = nests.nests.as_slice() else {
        return Err("not two functions".into());
    };
    let [first] = own.as_slice() else {
        return Err("not one loop".into());
    };
    let [second] = called.as_slice() else {
        return Err("not one loop".into());
    };
    assert_eq!(rt; (first.header, first.bound), (0x0040_0008, 3));
    assert_eq!(rt; (second.header, second.bound), (0x0040_0018, 4));
    // Without a record each: the least header of both functions, and that of the function that has none.
    let kind = CodeKind::NoBound;
    let cases: [(&[Bound], u32); 2] = [(&[], 0x0040_0008), (&[(0x0040_0008, 3)], 0x0040_0018)];
    for (records, address) in cases {
        let fault = loops_of(alloc, &CALLED, records)?.err();
        assert_eq!(rt; fault, Some(CodeFault::Bad { kind, address }));
    }
    Ok(())
}

#[test]
fn answers_the_first_fault_of_loops(rt: HostRuntime) -> Result<(), Fail> {
    let alloc = rt.alloc();
    let irreducible = CodeKind::Irreducible;
    // A loop without a bound before a cycle that is entered at 00400010 and 00400018.
    let beside: [u32; 10] = [
        0x1480_FFFF,
        0,
        0x1080_0003,
        0,
        0x2508_FFFF,
        0,
        0x1500_FFFD,
        0,
        RETURN,
        0,
    ];
    // The words, the records, the fault and its address.
    let cases: [(&[u32], &[Bound], CodeKind, u32); 7] = [
        (&COUNTED, &[], CodeKind::NoBound, 0x0040_0004),
        (
            &COUNTED,
            &[(START, 5), (0x0040_0010, 5)],
            CodeKind::NoBound,
            0x0040_0004,
        ),
        (&NESTED, &[(0x0040_0008, 1)], CodeKind::NoBound, START),
        (
            &NESTED,
            &[(START, 1), (0x0040_0004, 1)],
            CodeKind::NoBound,
            0x0040_0008,
        ),
        (&MIDDLE, &[(0x0040_0008, 4)], irreducible, 0x0040_0008),
        (&beside, &[], irreducible, 0x0040_0010),
        (&INSIDE, &[(START, 3)], irreducible, 0x0040_000C),
    ];
    for (words, records, kind, address) in cases {
        let fault = loops_of(alloc, words, records)?.err();
        assert_eq!(rt;
            fault,
            Some(CodeFault::Bad { kind, address }),
            "at {address}"
        );
    }
    Ok(())
}
