//! Sections and records of small files, with each way in which they are bad.

use super::{NAMES, RECORDS, SHSTRTAB, fault_in, file_of, loop_file, put, read, section};
use crate::{ElfKind, Mark};
use std::alloc::Global;
use std::test::Fail;

/// The number of records of a file; `None` where it gives no image.
fn count_in(alloc: Global, file: &[u8]) -> Result<Option<usize>, Fail> {
    match read(alloc, file)? {
        Ok(image) => Ok(Some(image.marks.as_slice().len())),
        Err(_) => Ok(None),
    }
}

/// The kind, address, x and y of a record.
fn numbers(mark: &Mark) -> [u32; 4] {
    [mark.kind, mark.address, mark.x, mark.y]
}

#[test]
fn reads_the_record_of_a_loop(rt: HostRuntime) -> Result<(), Fail> {
    let file = loop_file(rt.alloc())?;
    assert_eq!(rt; file.len(), 261);
    let Ok(image) = read(rt.alloc(), &file)? else {
        return Err("no image".into());
    };
    assert_eq!(rt; image.entry, 0x0040_0000);
    assert_eq!(rt; image.word_at(0x0040_0008), Some(0x1500_FFFE));
    let [mark] = image.marks.as_slice() else {
        return Err("not one record".into());
    };
    assert_eq!(rt; numbers(mark), [1, 0x0040_0004, 5, 0]);
    assert!(rt; image.symbols.as_slice().is_empty());
    Ok(())
}

#[test]
fn answers_each_cut(rt: HostRuntime) -> Result<(), Fail> {
    let file = loop_file(rt.alloc())?;
    for size in 0..261u32 {
        let fault = match size {
            // The ELF header isn't whole, then the program header isn't, then the section headers aren't.
            0..52 => (ElfKind::Short, size),
            52..84 => (ElfKind::BadTable, 0x1C),
            _ => (ElfKind::BadTable, 0x20),
        };
        let part = file.get(..size as usize).ok_or("a shorter file")?;
        assert_eq!(rt; fault_in(rt.alloc(), part)?, Some(fault), "at {size}");
    }
    assert_eq!(rt; fault_in(rt.alloc(), &file)?, None);
    Ok(())
}

#[test]
fn looks_at_sections(rt: HostRuntime) -> Result<(), Fail> {
    let records = Some((ElfKind::BadSection, 0xB5));
    let names = Some((ElfKind::BadSection, 0xDD));
    // A place, the word that is put there, the fault, and the number of records where there is none.
    let cases = [
        (108, 9, Some((ElfKind::BadRecord, 0x6C)), 0),
        (116, 0, Some((ElfKind::BadRecord, 0x6C)), 0),
        (0x30, 0x0003_0003, Some((ElfKind::BadTable, 0x32)), 0),
        // The records: type, flags, offset and size.
        (RECORDS + 4, 8, records, 0),
        (RECORDS + 4, 7, None, 1),
        (RECORDS + 8, 0x800, records, 0),
        (RECORDS + 8, 0xFFFF_F7FF, None, 1),
        // The 16 bytes before the end begin with a zero word.
        (RECORDS + 16, 245, Some((ElfKind::BadRecord, 0xF5)), 0),
        (RECORDS + 16, 246, records, 0),
        (RECORDS + 16, 0xFFFF_FFF8, records, 0),
        (RECORDS + 20, 15, records, 0),
        (RECORDS + 20, 32, Some((ElfKind::BadRecord, 0x7C)), 0),
        (RECORDS + 20, 0, None, 0),
        // The names: type, flags, offset and size; the last is one byte too short for the zero.
        (NAMES + 4, 8, names, 0),
        (NAMES + 8, 0x800, None, 1),
        (NAMES + 16, 0xFFFF_FFFF, names, 0),
        (NAMES + 16, 123, None, 0),
        (NAMES + 20, 137, None, 1),
        (NAMES + 20, 138, names, 0),
        (NAMES + 20, 7, None, 1),
        (NAMES + 20, 6, None, 0),
        // Other names, no names, and the table of names as a section of records.
        (RECORDS, 2, None, 0),
        (RECORDS, 7, None, 0),
        (RECORDS, 0xFFFF_FFFF, None, 0),
        (0x30, 0x0003_0000, None, 0),
        (NAMES, 1, names, 0),
    ];
    for (at, word, fault, count) in cases {
        let mut file = loop_file(rt.alloc())?;
        put(&mut file, at, word);
        assert_eq!(rt; fault_in(rt.alloc(), &file)?, fault, "{word} at {at}");
        let records = if fault.is_some() { None } else { Some(count) };
        assert_eq!(rt; count_in(rt.alloc(), &file)?, records, "{word} at {at}");
    }
    Ok(())
}

#[test]
fn looks_at_records(rt: HostRuntime) -> Result<(), Fail> {
    let at = 0x0040_0004;
    let cases = [
        (1, at, 1, 0, true),
        (1, at, 0xFFFF_FFFF, 0, true),
        (1, at, 0, 0, false),
        (1, at, 1, 1, false),
        (1, 0x0040_0006, 1, 0, false),
        (2, at, 0x0040_0008, 0, true),
        (2, at, 0, 0, true),
        (2, at, 6, 0, false),
        (2, at, 8, 8, false),
        (2, 0x0040_0005, 8, 0, false),
        (3, at, 4, 5, true),
        (3, at, 0, 0xFFFF_FFFF, true),
        (3, at, 5, 5, false),
        (3, at, 6, 5, false),
        (3, 0x0040_0001, 4, 8, false),
        (0, at, 1, 0, false),
        (4, at, 4, 8, false),
        (9, at, 1, 0, false),
    ];
    for (kind, address, x, y, lawful) in cases {
        let mut file = loop_file(rt.alloc())?;
        put(&mut file, 108, kind);
        put(&mut file, 112, address);
        put(&mut file, 116, x);
        put(&mut file, 120, y);
        let fault = if lawful {
            None
        } else {
            Some((ElfKind::BadRecord, 0x6C))
        };
        assert_eq!(rt;
            fault_in(rt.alloc(), &file)?,
            fault,
            "{kind} {address} {x} {y}"
        );
    }
    Ok(())
}

#[test]
fn takes_records_in_the_order_of_sections(rt: HostRuntime) -> Result<(), Fail> {
    // Records at 72 and 88; the first section holds the second one.
    let headers = [section(1, 1, 88, 16), SHSTRTAB, section(1, 1, 72, 16)];
    let words = [2, 4, 8, 0, 1, 12, 7, 0];
    let file = file_of(rt.alloc(), 1, &headers, &words)?;
    let Ok(image) = read(rt.alloc(), &file)? else {
        return Err("no image".into());
    };
    let [first, second] = image.marks.as_slice() else {
        return Err("not two records".into());
    };
    assert_eq!(rt; numbers(first), [1, 12, 7, 0]);
    assert_eq!(rt; numbers(second), [2, 4, 8, 0]);
    // Where both are bad, the one at the lesser place is answered; where the second one is, it is.
    let file = file_of(rt.alloc(), 1, &headers, &[2, 4, 9, 0, 1, 12, 0, 0])?;
    assert_eq!(rt;
        fault_in(rt.alloc(), &file)?,
        Some((ElfKind::BadRecord, 72))
    );
    let file = file_of(rt.alloc(), 1, &headers, &[2, 4, 8, 0, 1, 12, 0, 0])?;
    assert_eq!(rt;
        fault_in(rt.alloc(), &file)?,
        Some((ElfKind::BadRecord, 88))
    );
    // A bad section comes before a bad record, and the first one of two.
    let headers = [section(1, 1, 72, 15), SHSTRTAB, section(1, 1, 72, 17)];
    let file = file_of(rt.alloc(), 1, &headers, &[2, 4, 9, 0, 1, 12, 0, 0])?;
    assert_eq!(rt;
        fault_in(rt.alloc(), &file)?,
        Some((ElfKind::BadSection, 104))
    );
    Ok(())
}

#[test]
fn takes_65536_records(rt: HostRuntime) -> Result<(), Fail> {
    // 4,096 records at 72, which 16 sections share; a 17th begins at the second record.
    let mut words = Vec::new(rt.alloc());
    for number in 0..4096 {
        words.extend_from_slice(&[1, 4 * number, 1, 0])?;
    }
    let mut headers = vec![in rt.alloc(); section(1, 1, 72, 65_536); 16]?;
    headers.push(SHSTRTAB)?;
    let file = file_of(rt.alloc(), 16, &headers, &words)?;
    assert_eq!(rt; count_in(rt.alloc(), &file)?, Some(65_536));
    headers.push(section(1, 1, 88, 16))?;
    let file = file_of(rt.alloc(), 16, &headers, &words)?;
    assert_eq!(rt;
        fault_in(rt.alloc(), &file)?,
        Some((ElfKind::BadRecord, 88))
    );
    // A further section of none adds none.
    let mut headers = vec![in rt.alloc(); section(1, 1, 72, 65_536); 16]?;
    headers.push(SHSTRTAB)?;
    headers.push(section(1, 1, 72, 0))?;
    let file = file_of(rt.alloc(), 16, &headers, &words)?;
    assert_eq!(rt; count_in(rt.alloc(), &file)?, Some(65_536));
    Ok(())
}
