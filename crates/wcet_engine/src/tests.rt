//! The top call on files in memory: how the trials make files, and what they look at.

mod bytes;
mod calls;
mod code;
mod contexts;
mod files;
mod lines;
mod loops;
mod memory;
mod profiles;
mod sections;
mod targets;

ghost use Rattle.std.specs.Prelude.{◌≤◌, length};

use crate::top::{Status, wcet_main};
use std::alloc::{AllocError, Global};
use std::test::Fail;
use wcet_io::{MemShelf, MemSink};

/// Where the one segment begins, and its entry.
const START: u32 = 0x0040_0000;

/// jr $31
const RETURN: u32 = 0x03E0_0008;

/// addu $17, $31, $0, which keeps the return address over a call.
const KEEP: u32 = 0x03E0_8821;

/// addu $31, $17, $0
const BACK: u32 = 0x0220_F821;

/// addiu $8, $8, -1
const COUNT: u32 = 0x2508_FFFF;

/// bne $8, $0, two words back
const REPEAT: u32 = 0x1500_FFFE;

/// A start, a loop of two units at 00400004 and 00400008, and the return.
const COUNTED: [u32; 6] = [0x2408_0005, COUNT, REPEAT, 0, RETURN, 0];

/// Adds words, the highest byte first.
fn put_words(file: &mut Vec<u8>, words: &[u32]) -> Result<(), AllocError> {
    for word in words {
        file.extend_from_slice(&word.to_be_bytes())?;
    }
    Ok(())
}

/// Puts bytes over those from a place on, as far as they reach.
fn change(file: &mut [u8], place: usize, bytes: &[u8]) {
    if place > file.len() {
        return;
    }
    for (old, new) in file[place..].iter_mut().zip(bytes) {
        *old = *new;
    }
}

/// An ELF header and a program header: a segment of flags 5 and this size, loaded from offset 84 on and entered
/// at its begin. The section headers stand at an offset; the last half words say how many there are, and which
/// has the names.
fn headers(size: u32, sections: u32, counts: u32) -> [u32; 21] {
    [
        // The magic number, type 2, machine 8, version 1, the entry, and one program header at offset 52.
        0x7F45_4C46,
        0x0102_0100,
        0,
        0,
        0x0002_0008,
        1,
        START,
        52,
        sections,
        0,
        0x0034_0020,
        0x0001_0028,
        counts,
        // The program header.
        1,
        84,
        START,
        START,
        size,
        size,
        5,
        4,
    ]
}

/// An executable that holds these words, and no sections.
fn file_of(alloc: Global, words: &[u32]) -> Result<Vec<u8>, AllocError>
    requires { length words.now ≤ 128 }
{
    let mut file = Vec::new(alloc);
    put_words(&mut file, &headers(4 * words.len() as u32, 0, 0))?;
    put_words(&mut file, words)?;
    Ok(file)
}

/// An executable that holds these words, and these records in a section `.wcet`.
fn file_with(alloc: Global, words: &[u32], records: &[[u32; 4]]) -> Result<Vec<u8>, AllocError>
    requires words { length words.now ≤ 128 }
    requires records { length records.now ≤ 64 }
{
    let size = 4 * words.len() as u32;
    let begin = 84 + size;
    let marks = 16 * records.len() as u32;
    let names = begin + marks;
    let mut file = Vec::new(alloc);
    put_words(&mut file, &headers(size, names + 17, 0x0003_0002))?;
    put_words(&mut file, words)?;
    for record in records {
        put_words(&mut file, record)?;
    }
    file.extend_from_slice(b"\0.wcet\0.shstrtab\0".as_slice())?;
    put_words(&mut file, &[0; 10])?;
    put_words(&mut file, &[1, 1, 0, 0, begin, marks, 0, 0, 0, 0])?;
    put_words(&mut file, &[7, 3, 0, 0, names, 17, 0, 0, 0, 0])?;
    Ok(file)
}

/// The words as texts.
fn texts(alloc: Global, words: &[&str]) -> Result<Vec<String>, Fail> {
    let mut owned = Vec::new(alloc);
    for word in words {
        owned.push(String::from_str(alloc, word)?)?;
    }
    Ok(owned)
}

/// The status of a call, and the bytes that its sink took.
#[derive(Drop)]
struct Output {
    status: Status,
    text: Vec<u8>,
}

impl Output {
    /// The call is done, and its text begins so.
    fn begins(&self, front: &str) -> bool {
        self.status == Status::Done && self.text.as_slice().starts_with(front.as_bytes())
    }

    /// The files are refused by this line.
    fn refuses(&self, line: &str) -> bool {
        self.status == Status::Refused && self.text.as_slice() == line.as_bytes()
    }

    /// The call ended by this status with nothing written.
    fn ends(&self, status: Status) -> bool {
        self.status == status && self.text.len() == 0
    }
}

/// What the words give on an ELF file `f` and a profile `c`. The readings of these numbers fail.
fn answer(
    alloc: Global,
    words: &[&str],
    elf: &[u8],
    profile: &[u8],
    fails: &[u64],
) -> Result<Output, Fail> {
    let words = texts(alloc, words)?;
    let mut files = MemShelf::new(alloc, 65_536, fails.to_vec(alloc)?);
    files.add("f", elf)?;
    files.add("c", profile)?;
    let mut out = MemSink::new(alloc, 4096, 4_194_304, Vec::new(alloc))?;
    let status = wcet_main(alloc, &words, &mut files, &mut out);
    Ok(Output {
        status,
        text: out.taken().to_vec(alloc)?,
    })
}

/// What `analyse` prints for a file.
fn analysed(alloc: Global, elf: &[u8]) -> Result<Output, Fail> {
    answer(alloc, &["analyse", "f"], elf, &[], &[])
}

/// What `analyse` prints for a program of these words and records.
fn printed(alloc: Global, words: &[u32], records: &[[u32; 4]]) -> Result<Output, Fail> {
    if words.len() > 128 || records.len() > 64 {
        return Ok(Output {
            status: Status::Usage,
            text: Vec::new(alloc),
        });
    }
    analysed(alloc, &file_with(alloc, words, records)?)
}
