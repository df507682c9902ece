//! Symbols of small files.

use super::{SHSTRTAB, fault_in, file_of, read, section};
use crate::{ElfKind, Symbol};
use std::alloc::Global;
use std::test::Fail;

/// Strings for 36 bytes: a zero, `main`, a zero, `x`, a zero, and 28 bytes without one, `y`s.
const STRINGS: [u32; 9] = [
    0x006D_6169,
    0x6E00_7800,
    0x7979_7979,
    0x7979_7979,
    0x7979_7979,
    0x7979_7979,
    0x7979_7979,
    0x7979_7979,
    0x7979_7979,
];

/// Where the strings and the symbols stand.
const STRTAB: u32 = 72;

const SYMTAB: u32 = 108;

/// The header of a symbol table of this size, whose strings are in section 2.
fn symbols(size: u32) -> [u32; 10] {
    [0, 2, 0, 0, SYMTAB, size, 2, 0, 0, 16]
}

/// The name and the value of a symbol.
fn parts(symbol: &Symbol) -> (&[u8], u32) {
    (symbol.name.as_slice(), symbol.value)
}

/// A file of names, strings and these symbols, with further section headers.
fn symbol_file(
    alloc: Global,
    table: [u32; 10],
    entries: &[[u32; 4]],
    more: &[[u32; 10]],
) -> Result<Vec<u8>, Fail> {
    let mut words = Vec::new(alloc);
    words.extend_from_slice(&STRINGS)?;
    for entry in entries {
        words.extend_from_slice(entry)?;
    }
    let mut headers = Vec::new(alloc);
    headers.extend_from_slice(&[table, SHSTRTAB, section(0, 3, STRTAB, 36)])?;
    headers.extend_from_slice(more)?;
    file_of(alloc, 1, &headers, &words)
}

#[test]
fn reads_symbols(rt: HostRuntime) -> Result<(), Fail> {
    // The name, the value, the size, and st_info, st_other and st_shndx together.
    let entries = [
        // The entry of index 0 and one of no section don't count.
        [0, 0, 0, 0],
        [1, 0x0040_0100, 0, 0x1200_0000],
        // Two of one name, then one whose name is the end of it.
        [1, 0x0040_0010, 8, 0x1200_0001],
        [1, 0x0040_0020, 8, 0x1200_FFFF],
        [3, 0x0040_0030, 0, 0x0000_FFF1],
        [6, 0x1000_0000, 4, 0x1100_0002],
        // Names of no bytes, without a zero behind, and past the strings.
        [0, 0x0040_0040, 0, 1],
        [8, 0x0040_0050, 0, 1],
        [36, 0x0040_0060, 0, 1],
        [0xFFFF_FFFF, 0x0040_0070, 0, 1],
    ];
    let file = symbol_file(rt.alloc(), symbols(160), &entries, &[])?;
    let Ok(image) = read(rt.alloc(), &file)? else {
        return Err("no image".into());
    };
    let [first, second, third, fourth] = image.symbols.as_slice() else {
        return Err("not four symbols".into());
    };
    assert_eq!(rt; parts(first), (b"main".as_slice(), 0x0040_0010));
    assert_eq!(rt; parts(second), (b"main".as_slice(), 0x0040_0020));
    assert_eq!(rt; parts(third), (b"in".as_slice(), 0x0040_0030));
    assert_eq!(rt; parts(fourth), (b"x".as_slice(), 0x1000_0000));
    assert_eq!(rt; image.symbol(b"main"), Some(0x0040_0010));
    assert_eq!(rt; image.symbol(b"x"), Some(0x1000_0000));
    assert_eq!(rt; image.symbol(b"mai"), None);
    assert_eq!(rt; image.symbol(b""), None);
    assert!(rt; image.marks.as_slice().is_empty());
    Ok(())
}

#[test]
fn passes_over_a_rest(rt: HostRuntime) -> Result<(), Fail> {
    let entries = [[1, 4, 0, 1], [6, 8, 0, 1]];
    for (size, count) in [(0, 0), (15, 0), (16, 1), (31, 1), (32, 2)] {
        let file = symbol_file(rt.alloc(), symbols(size), &entries, &[])?;
        let Ok(image) = read(rt.alloc(), &file)? else {
            return Err("no image".into());
        };
        assert_eq!(rt; image.symbols.as_slice().len(), count, "{size}");
    }
    Ok(())
}

#[test]
fn reads_the_first_table(rt: HostRuntime) -> Result<(), Fail> {
    let entries = [[1, 4, 0, 1], [6, 8, 0, 1]];
    // A second table holds the second entry.
    let second = [0, 2, 0, 0, SYMTAB + 16, 16, 2, 0, 0, 16];
    let file = symbol_file(rt.alloc(), symbols(16), &entries, &[second])?;
    let Ok(image) = read(rt.alloc(), &file)? else {
        return Err("no image".into());
    };
    let [symbol] = image.symbols.as_slice() else {
        return Err("not one symbol".into());
    };
    assert_eq!(rt; parts(symbol), (b"main".as_slice(), 4));
    Ok(())
}

#[test]
fn looks_at_symbol_tables(rt: HostRuntime) -> Result<(), Fail> {
    let entries = [[1, 4, 0, 1]];
    // The section headers stand from 124 to 324. Type, offset, size and link.
    let first = Some((ElfKind::BadSection, 124));
    let cases = [
        (2, SYMTAB, 16, 2, None),
        (2, SYMTAB, 216, 2, None),
        (2, SYMTAB, 217, 2, first),
        (2, 0xFFFF_FFFF, 16, 2, first),
        (2, SYMTAB, 16, 3, None),
        (2, SYMTAB, 16, 4, first),
        (2, SYMTAB, 16, 5, first),
        (2, SYMTAB, 16, 0xFFFF_FFFF, first),
        (3, 0xFFFF_FFFF, 16, 0xFFFF_FFFF, None),
        (8, 0xFFFF_FFFF, 16, 0xFFFF_FFFF, None),
    ];
    // Section 3 lies in the file and section 4, of no bytes in the file, doesn't.
    let more = [section(0, 1, 0, 4), section(0, 8, 0, 4)];
    for (kind, offset, size, link, fault) in cases {
        let table = [0, kind, 0, 0, offset, size, link, 0, 0, 16];
        let file = symbol_file(rt.alloc(), table, &entries, &more)?;
        assert_eq!(rt;
            fault_in(rt.alloc(), &file)?,
            fault,
            "{kind} {offset} {size} {link}"
        );
    }
    // A table that is named `.wcet` keeps both rules: 24 bytes are no whole number of records.
    for (size, fault) in [
        (16, (ElfKind::BadRecord, SYMTAB)),
        (24, (ElfKind::BadSection, 124)),
    ] {
        let table = [1, 2, 0, 0, SYMTAB, size, 2, 0, 0, 16];
        let file = symbol_file(rt.alloc(), table, &[[9, 4, 0, 1]], &more)?;
        assert_eq!(rt; fault_in(rt.alloc(), &file)?, Some(fault), "{size}");
    }
    Ok(())
}

#[test]
fn names_have_1024_bytes_at_most(rt: HostRuntime) -> Result<(), Fail> {
    // 1,028 bytes `z` and zeros from there on: the name at 4 has 1,024 bytes, the one at 3 has 1,025.
    let mut words = vec![in rt.alloc(); 0x7A7A_7A7A; 257]?;
    words.push(0)?;
    words.extend_from_slice(&[4, 0x0040_0000, 0, 1, 3, 0x0040_0004, 0, 1])?;
    let table = [0, 2, 0, 0, 72 + 1032, 32, 2, 0, 0, 16];
    let headers = [table, SHSTRTAB, section(0, 3, 72, 1032)];
    let file = file_of(rt.alloc(), 1, &headers, &words)?;
    let Ok(image) = read(rt.alloc(), &file)? else {
        return Err("no image".into());
    };
    let [symbol] = image.symbols.as_slice() else {
        return Err("not one symbol".into());
    };
    assert_eq!(rt; symbol.name.as_slice().len(), 1024);
    assert_eq!(rt; symbol.value, 0x0040_0000);
    Ok(())
}
