//! Small files read whole, cut short, and with one field changed.

use super::{fault_in, push_words};
use crate::{ElfKind, Image, Segment, read_image};
use std::alloc::{AllocError, Global};
use std::test::Fail;
use wcet_io::List;

/// The program header of a segment of code at 00400000 whose 8 bytes are the file's last.
const CODE: [u32; 8] = [1, 84, 0x0040_0000, 0x0040_0000, 8, 8, 5, 4];

/// A file with these one or two program headers behind its header, and then these words.
fn file_of(alloc: Global, headers: &[[u32; 8]], words: &[u32]) -> Result<Vec<u8>, AllocError> {
    // e_phnum and e_shentsize.
    let counts = if headers.len() == 1 {
        0x0001_0028
    } else {
        0x0002_0028
    };
    let mut file = Vec::new(alloc);
    push_words(
        &mut file,
        &[
            0x7F45_4C46,
            0x0102_0100,
            0,
            0,
            0x0002_0008,
            1,
            0x0040_0000,
            52,
        ],
    )?;
    push_words(&mut file, &[0, 0, 0x0034_0020, counts, 0])?;
    for header in headers {
        push_words(&mut file, header)?;
    }
    push_words(&mut file, words)?;
    Ok(file)
}

#[test]
fn reads_a_return_whole(rt: HostRuntime) -> Result<(), Fail> {
    let header = [1, 84, 0x0040_0000, 0x0040_0000, 8, 12, 5, 4];
    let file = file_of(rt.alloc(), &[header], &[0x03E0_0008, 0x2402_0007])?;
    assert_eq!(rt; file.len(), 92);
    let image = read_image(rt.alloc(), &file)?;
    assert_eq!(rt; image.entry, 0x0040_0000);
    let [segment] = image.segments.as_slice() else {
        return Err("not one segment".into());
    };
    assert_eq!(rt;
        (segment.address, segment.size, segment.flags),
        (0x0040_0000, 12, 5)
    );
    let bytes = [0x03, 0xE0, 0, 0x08, 0x24, 0x02, 0, 0x07, 0, 0, 0, 0];
    assert_eq!(rt; segment.bytes.as_slice(), bytes.as_slice());
    assert!(rt; image.symbols.as_slice().is_empty() && image.marks.as_slice().is_empty());
    assert_eq!(rt; image.word_at(0x0040_0004), Some(0x2402_0007));
    assert_eq!(rt; image.word_at(0x0040_0008), Some(0));
    assert_eq!(rt; image.word_at(0x0040_0002), None);
    assert_eq!(rt; image.word_at(0x0040_000C), None);
    assert_eq!(rt; image.byte_at(0x0040_0003), Some(8));
    assert_eq!(rt; image.byte_at(0x003F_FFFF), None);
    assert_eq!(rt; image.symbol(b"main"), None);
    Ok(())
}

#[test]
fn answers_cut_files(rt: HostRuntime) -> Result<(), Fail> {
    let file = file_of(rt.alloc(), &[CODE], &[0x03E0_0008, 0])?;
    for size in 0..92u32 {
        let fault = if size < 52 {
            (ElfKind::Short, size)
        } else if size < 84 {
            (ElfKind::BadTable, 0x1C)
        } else {
            (ElfKind::BadSegment, 0x34)
        };
        let part = file.get(..size as usize).ok_or("a shorter file")?;
        assert_eq!(rt; fault_in(rt.alloc(), part)?, Some(fault), "at {size}");
    }
    assert_eq!(rt; fault_in(rt.alloc(), &file)?, None);
    assert_eq!(rt; fault_in(rt.alloc(), &[0; 52])?, Some((ElfKind::NotElf, 0)));
    Ok(())
}

/// The kind and the place of the fault where the lowest bit of this byte is turned.
fn turned(at: u32) -> Option<(ElfKind, u32)> {
    match at {
        0..4 => Some((ElfKind::NotElf, 0)),
        4..7 => Some((ElfKind::NotThisKind, at)),
        0x10..0x14 => Some((ElfKind::NotThisKind, at / 2 * 2)),
        0x14..0x18 => Some((ElfKind::NotThisKind, 0x14)),
        // A program header that begins at 53 has another type, and none fit behind a larger offset.
        0x1C..0x1F => Some((ElfKind::BadTable, 0x1C)),
        // A place of section headers, but no section headers.
        0x20..0x24 => Some((ElfKind::BadTable, 0x30)),
        0x2A..0x2C => Some((ElfKind::BadTable, 0x2A)),
        // 257 program headers don't fit.
        0x2C => Some((ElfKind::BadTable, 0x1C)),
        // Section headers from 0 on: 256 don't fit, and the name of one section is section 0.
        0x30 => Some((ElfKind::BadTable, 0x20)),
        // The part of the file doesn't lie in the file.
        0x38..0x3C | 0x44..0x48 => Some((ElfKind::BadSegment, 0x34)),
        _ => None,
    }
}

/// Turns the lowest bit of a byte.
fn turn(file: &mut [u8], at: usize) {
    if let Some(byte) = file.get_mut(at) {
        *byte ^= 1;
    }
}

#[test]
fn looks_at_each_field(rt: HostRuntime) -> Result<(), Fail> {
    let mut file = file_of(rt.alloc(), &[CODE], &[0x03E0_0008, 0])?;
    for at in 0..92u32 {
        turn(&mut file, at as usize);
        assert_eq!(rt; fault_in(rt.alloc(), &file)?, turned(at), "at {at}");
        turn(&mut file, at as usize);
    }
    Ok(())
}

#[test]
fn looks_at_two_segments(rt: HostRuntime) -> Result<(), Fail> {
    let bad = Some((ElfKind::BadSegment, 0x54));
    // Type, address, part of the file, bytes in memory.
    let cases = [
        (1, 0x0040_0008, 8, 8, None),
        (1, 0x0040_0007, 8, 8, bad),
        (1, 0x003F_FFF8, 8, 8, None),
        (1, 0x003F_FFF9, 8, 8, bad),
        (1, 0x0040_0007, 1, 1, bad),
        (1, 0x0030_0000, 8, 0x0020_0000, bad),
        (1, 0x0050_0000, 8, 7, bad),
        (1, 0xFFFF_FFE8, 8, 8, None),
        (1, 0xFFFF_FFE9, 8, 8, bad),
        (1, 0x1000_0000, 8, 67_108_857, bad),
        (1, 0x0040_0000, 9, 0, None),
        (0, 0x0040_0000, 8, 8, None),
        (6, 0x0040_0000, 9, 8, None),
    ];
    for (kind, address, file_size, size, fault) in cases {
        let code = [1, 116, 0x0040_0000, 0x0040_0000, 8, 8, 5, 4];
        let second = [kind, 116, address, address, file_size, size, 6, 4];
        let file = file_of(rt.alloc(), &[code, second], &[0x03E0_0008, 0])?;
        assert_eq!(rt; fault_in(rt.alloc(), &file)?, fault, "at {address} {size}");
    }
    Ok(())
}

#[test]
fn makes_an_image_of_segments(rt: HostRuntime) -> Result<(), Fail> {
    let code = Segment {
        address: 0x0040_0000,
        size: 4,
        flags: 5,
        bytes: List::from_vec(vec![in rt.alloc(); 0x03, 0xE0, 0, 8]?),
    };
    let data = Segment {
        address: 0x1000_0000,
        size: 4,
        flags: 6,
        bytes: List::from_vec(vec![in rt.alloc(); 1, 2, 3, 4]?),
    };
    let segments = List::from_vec(vec![in rt.alloc(); data, code]?);
    let image = Image::from_segments(rt.alloc(), 0x0040_0000, segments)?;
    assert_eq!(rt; image.word_at(0x0040_0000), Some(0x03E0_0008));
    assert_eq!(rt; image.word_at(0x1000_0000), None);
    assert_eq!(rt; image.byte_at(0x1000_0003), Some(4));
    Ok(())
}
