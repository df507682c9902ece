//! The reader: from the bytes of a file to the image that it loads.

ghost use Rattle.std.specs.Prelude.{◌≡◌, ◌+◌, ◌-◌, ◌<◌, ◌≤◌, ◌++◌, true, length, take, drop, replicate, IfOk, IfErr, OnOk};
ghost use Rattle.elf_mips.specs.Fields.{e_phnum, p_offset, p_filesz, p_memsz};
ghost use Rattle.elf_mips.specs.Headers.{HasHeaders, header_at, is_loaded, has_part, ends_low, is_good, segment_of, segments_to};
ghost use Rattle.elf_mips.specs.Faults.{IsClean, IsCleanBelow, RefusesHeader, Tells};
ghost use Rattle.elf_mips.specs.Segments.{AreLawful};
ghost use Rattle.elf_mips.specs.Image.{IsImage};

use crate::fault::{ElfFault, ElfKind, keep};
use crate::fields::{
    E_ENTRY, E_PHNUM, E_PHOFF, P_FILESZ, P_FLAGS, P_MEMSZ, P_OFFSET, P_TYPE, P_VADDR, u16_at,
    u32_at,
};
use crate::header::check_header;
use crate::image::Image;
use crate::loader::Loader;
use crate::records::{check_records, read_marks};
use crate::sections::check_sections;
use crate::segment::Segment;
use crate::symbols::read_symbols;
use std::alloc::{AllocError, Global};
use wcet_io::List;

/// The image that a file of at most 16 MiB loads, or the file's first fault, by the System V ABI (object files) and its
/// MIPS processor supplement.
///
/// `Bad` is the fault of the least kind in the order of `ElfKind`, and of that kind the one at the least offset. `Memory`
/// says nothing of the file: no memory was left for the segments, the symbols or the records.
pub fn read_image(alloc: Global, bytes: &[u8]) -> Result<Image, ElfFault>
    requires { length bytes.now ≤ 16777216 }
    ensures sound { OnOk result (IsClean bytes.now) }
    ensures image { IfOk result (IsImage bytes.now) }
    ensures err { IfErr result (Tells bytes.now) }
    ensures long { OnOk result (52 ≤ length bytes.now) }
{
    check_header(bytes)?;
    let segments = read_segments(alloc, bytes)?;
    check_sections(bytes)?;
    check_records(bytes)?;
    let symbols = read_symbols(alloc, bytes)?;
    let marks = read_marks(alloc, bytes)?;
    let entry = u32_at(bytes, E_ENTRY);
    Ok(Image::from_parts(alloc, entry, segments, symbols, marks)?)
}

/// The segments of the loaded program headers, or the first bad one.
fn read_segments(alloc: Global, file: &[u8]) -> Result<List<Segment>, ElfFault>
    requires size { length file.now ≤ 16777216 }
    requires long { 52 ≤ length file.now }
    requires room { HasHeaders file.now }
    requires clean { IsCleanBelow 4 file.now }
    ensures clean { OnOk result (IsCleanBelow 5 file.now) }
    ensures segments { IfOk result (λ s. s ≡ segments_to file.now (e_phnum file.now)) }
    ensures lawful { IfOk result AreLawful }
    ensures err { IfErr result (Tells file.now) }
{
    let count = u16_at(file, E_PHNUM);
    let mut loader = Loader::new(alloc);
    for number in 0..count {
        loader = take_header(alloc, file, loader, number)?;
    }
    Ok(loader.into_segments())
}

/// The segments up to a program header, once it is found to be good or isn't loaded.
fn take_header(alloc: Global, file: &[u8], loader: Loader, number: u32) -> Result<Loader, ElfFault>
    requires size { length file.now ≤ 16777216 }
    requires long { 52 ≤ length file.now }
    requires few { number < 65536 }
    requires there { header_at file.now number + 32 ≤ length file.now }
    requires before { loader.segments ≡ segments_to file.now number }
    ensures good { OnOk result (is_good file.now number ≡ true) }
    ensures segments { IfOk result (λ l. l.segments ≡ segments_to file.now (number + 1)) }
    ensures err { IfErr result (RefusesHeader file.now number) }
{
    let at = u32_at(file, E_PHOFF) as usize + 32 * number as usize;
    if !is_loaded(file, at) {
        return Ok(loader);
    }
    let kind = ElfKind::BadSegment;
    keep(has_part(file, at), kind, at)?;
    keep(ends_low(file, at), kind, at)?;
    let address = u32_at(file, at + P_VADDR);
    let size = u32_at(file, at + P_MEMSZ);
    keep(!loader.overlaps(address, address + size), kind, at)?;
    keep(size <= loader.rest(), kind, at)?;
    loader.add(read_segment(alloc, file, at)?)
}

/// Whether the program header at an offset is loaded and has bytes in memory.
fn is_loaded(file: &[u8], at: usize) -> bool
    requires { at + 32 ≤ length file.now }
    ensures { result ≡ is_loaded file.now at }
{
    u32_at(file, at + P_TYPE) == 1 && 0 < u32_at(file, at + P_MEMSZ)
}

/// Whether the part of the file lies in the file, and is no longer than the segment.
fn has_part(file: &[u8], at: usize) -> bool
    requires { at + 32 ≤ length file.now }
    ensures { result ≡ has_part file.now at }
{
    let size = u32_at(file, at + P_FILESZ);
    let end = u64::from(u32_at(file, at + P_OFFSET)) + u64::from(size);
    end <= file.len() as u64 && size <= u32_at(file, at + P_MEMSZ)
}

/// Whether the segment ends at FFFFFFF0 or below.
fn ends_low(file: &[u8], at: usize) -> bool
    requires { at + 32 ≤ length file.now }
    ensures { result ≡ ends_low file.now at }
{
    u64::from(u32_at(file, at + P_VADDR)) + u64::from(u32_at(file, at + P_MEMSZ)) <= 0xFFFF_FFF0
}

/// The segment of the program header at an offset.
fn read_segment(alloc: Global, file: &[u8], at: usize) -> Result<Segment, AllocError>
    requires there { at + 32 ≤ length file.now }
    requires part { p_offset at file.now + p_filesz at file.now ≤ length file.now }
    requires inside { p_filesz at file.now ≤ p_memsz at file.now }
    ensures segment { IfOk result (λ s. s ≡ segment_of file.now at) }
    ensures sized { IfOk result (λ s. length s.bytes ≡ s.size) }
{
    let offset = u32_at(file, at + P_OFFSET) as usize;
    let file_size = u32_at(file, at + P_FILESZ) as usize;
    let size = u32_at(file, at + P_MEMSZ);
    Ok(Segment {
        address: u32_at(file, at + P_VADDR),
        size,
        flags: u32_at(file, at + P_FLAGS),
        bytes: read_bytes(alloc, file, offset, file_size, size as usize)?,
    })
}

/// The bytes of a part of the file, filled up with zeros.
fn read_bytes(
    alloc: Global,
    file: &[u8],
    offset: usize,
    file_size: usize,
    size: usize,
) -> Result<List<u8>, AllocError>
    requires part { offset + file_size ≤ length file.now }
    requires inside { file_size ≤ size }
    ensures bytes { IfOk result
        (λ b. b ≡ take file_size (drop offset file.now) ++ replicate (size - file_size) 0) }
    ensures sized { IfOk result (λ b. length b ≡ size) }
{
    let mut bytes = Vec::with_capacity(alloc, size)?;
    bytes.extend_from_slice(&file[offset..offset + file_size])?;
    bytes.resize(size, 0)?;
    Ok(List::from_vec(bytes))
}
