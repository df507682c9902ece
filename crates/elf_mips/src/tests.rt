//! Files that the tests make by hand, and what the reader says of them.

mod files;
mod records;
mod symbols;

use crate::{ElfFault, ElfKind, Image, read_image};
use std::alloc::{AllocError, Global};
use std::test::Fail;

/// A loop at 00400004 whose header is visited at most 5 times: the ELF header, a program header at 52,
/// the code at 84 and the record at 108. The names follow at 124, and the section headers at 141.
const LOOP: [u32; 31] = [
    0x7F45_4C46,
    0x0102_0100,
    0,
    0,
    0x0002_0008,
    1,
    0x0040_0000,
    52,
    141,
    0,
    0x0034_0020,
    0x0001_0028,
    0x0003_0002,
    1,
    84,
    0x0040_0000,
    0x0040_0000,
    24,
    24,
    5,
    4,
    0x2408_0005,
    0x2508_FFFF,
    0x1500_FFFE,
    0,
    0x03E0_0008,
    0,
    1,
    0x0040_0004,
    5,
    0,
];

/// The section headers of the loop's file: none, the records, and the names.
const LOOP_SECTIONS: [[u32; 10]; 3] = [
    [0, 0, 0, 0, 0, 0, 0, 0, 0, 0],
    [1, 1, 0, 0, 108, 16, 0, 0, 0, 0],
    [7, 3, 0, 0, 124, 17, 0, 0, 0, 0],
];

/// Where the section header of records stands in the loop's file.
const RECORDS: usize = 181;

/// Where the section header of names stands in the loop's file.
const NAMES: usize = 221;

/// Adds words, the highest byte first.
fn push_words(file: &mut Vec<u8>, words: &[u32]) -> Result<(), AllocError> {
    for word in words {
        file.extend_from_slice(&word.to_be_bytes())?;
    }
    Ok(())
}

/// The loop's file: 261 bytes.
fn loop_file(alloc: Global) -> Result<Vec<u8>, AllocError> {
    let mut file = Vec::new(alloc);
    push_words(&mut file, &LOOP)?;
    file.extend_from_slice(b"\0.wcet\0.shstrtab\0")?;
    for header in LOOP_SECTIONS {
        push_words(&mut file, &header)?;
    }
    Ok(file)
}

/// A file of sections alone: the ELF header, the names at 52, these words from 72 on, and then these
/// section headers.
fn file_of(
    alloc: Global,
    names: u32,
    headers: &[[u32; 10]],
    words: &[u32],
) -> Result<Vec<u8>, Fail> {
    if words.len() > 100_000 || headers.len() > 100 || names > 100 {
        return Err("a large file".into());
    }
    let mut file = Vec::new(alloc);
    let table = 72 + 4 * words.len() as u32;
    let counts = 0x0001_0000 * headers.len() as u32 + names;
    push_words(&mut file, &[0x7F45_4C46, 0x0102_0100, 0, 0])?;
    push_words(&mut file, &[0x0002_0008, 1, 0x0040_0000, 0, table, 0])?;
    push_words(&mut file, &[0x0034_0020, 0x0000_0028, counts])?;
    // `.wcet` stands at 1, and `.shstrtab` at 7.
    file.extend_from_slice(b"\0.wcet\0.shstrtab\0\0\0\0")?;
    push_words(&mut file, words)?;
    for header in headers {
        push_words(&mut file, header)?;
    }
    Ok(file)
}

/// The section header of a section of this name, type, offset and size.
fn section(name: u32, kind: u32, offset: u32, size: u32) -> [u32; 10] {
    [name, kind, 0, 0, offset, size, 0, 0, 0, 0]
}

/// The section header of the names.
const SHSTRTAB: [u32; 10] = [7, 3, 0, 0, 52, 20, 0, 0, 0, 0];

/// Writes a word over four bytes.
fn put(file: &mut [u8], at: usize, word: u32) {
    for (number, byte) in word.to_be_bytes().iter().enumerate() {
        if let Some(place) = file.get_mut(at.wrapping_add(number)) {
            *place = *byte;
        }
    }
}

/// The image of a file, or its fault.
fn read(alloc: Global, file: &[u8]) -> Result<Result<Image, (ElfKind, u32)>, Fail> {
    if file.len() > 16_777_216 {
        return Err("a long file".into());
    }
    match read_image(alloc, file) {
        Ok(image) => Ok(Ok(image)),
        Err(ElfFault::Bad { kind, offset }) => Ok(Err((kind, offset))),
        Err(ElfFault::Memory) => Err("no memory".into()),
    }
}

/// The fault of a file with its place; `None` where it gives an image.
fn fault_in(alloc: Global, file: &[u8]) -> Result<Option<(ElfKind, u32)>, Fail> {
    match read(alloc, file)? {
        Ok(_) => Ok(None),
        Err(fault) => Ok(Some(fault)),
    }
}
