//! What is printed of ELF headers with a fault, and a whole certificate.

use super::{RETURN, analysed, change, file_of};
use std::test::Fail;

#[test]
fn refuses_changed_headers(rt: HostRuntime) -> Result<(), Fail> {
    let alloc = rt.alloc();
    let file = file_of(alloc, &[RETURN, 0])?;
    assert_eq!(rt; file.len(), 92);
    // From where on, to what, and the line.
    let rows: [(usize, &[u8], &str); 10] = [
        (0, &[0], "refused not-elf 00000000\n"),
        (5, &[1], "refused not-this-kind 00000005\n"),
        (0x23, &[1], "refused bad-table 00000030\n"),
        (0x2B, &[31], "refused bad-table 0000002A\n"),
        (0x2C, &[0xFF, 0xFF], "refused bad-table 0000001C\n"),
        (0x30, &[1], "refused bad-table 00000020\n"),
        (
            0x38,
            &[0xFF, 0xFF, 0xFF, 0xFF],
            "refused bad-segment 00000034\n",
        ),
        (
            0x3C,
            &[0xFF, 0xFF, 0xFF, 0xF0],
            "refused bad-segment 00000034\n",
        ),
        (0x47, &[9], "refused bad-segment 00000034\n"),
        (0x4B, &[0], "refused unknown-word 00400000\n"),
    ];
    for (place, bytes, line) in rows {
        let mut changed = file.as_slice().to_vec(alloc)?;
        change(&mut changed, place, bytes);
        assert!(rt; analysed(alloc, &changed)?.refuses(line));
    }
    // A section header without names: it is no section that is read.
    let mut nameless = file.as_slice().to_vec(alloc)?;
    change(&mut nameless, 0x31, &[1]);
    assert!(rt; analysed(alloc, &nameless)?.begins("bound 22\n"));
    assert!(rt; analysed(alloc, &[])?.refuses("refused short 00000000\n"));
    assert!(rt; analysed(alloc, &[0; 52])?.refuses("refused not-elf 00000000\n"));
    Ok(())
}

#[test]
fn prints_a_certificate(rt: HostRuntime) -> Result<(), Fail> {
    let alloc = rt.alloc();
    let got = analysed(alloc, &file_of(alloc, &[RETURN, 0])?)?;
    // Row 1 is arc 1 = 1, row 2 is arc 1 - arc 2 = 0: only this leaf shows the bound with denominator 1.
    assert_eq!(rt;
        got.text.as_slice(),
        b"bound 22\nreached 22\nvalue 1 1\nvalue 2 1\nleaf 1 1:22\nend\n".as_slice()
    );
    Ok(())
}
