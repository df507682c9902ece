//! Section headers: which sections lie in the file, which are read, and what those must keep.

ghost use Rattle.std.specs.Prelude.{◌≡◌, ◌+◌, ◌<◌, ◌≤◌, ◌^◌, ◌==◌, length};
ghost use Rattle.elf_mips.specs.Fields.{e_shnum, sh_offset, sh_size};
ghost use Rattle.elf_mips.specs.Sections.{HasSections, section_at, lies, section_bytes, names, is_record_section, is_symbol_table, has_good_names, has_good_records, has_good_symbols, is_good_section};

use crate::fields::{
    E_SHNUM, E_SHOFF, E_SHSTRNDX, SH_FLAGS, SH_LINK, SH_NAME, SH_OFFSET, SH_SIZE, SH_TYPE, u16_at,
    u32_at,
};

/// The name of the sections that hold records, with the zero byte behind it.
const RECORD_NAME: [u8; 6] = *b".wcet\0";

/// The offset of the section header of a number.
pub fn section_at(file: &[u8], number: u32) -> usize
    requires long { 52 ≤ length file.now }
    requires room { HasSections file.now }
    requires few { number < e_shnum file.now }
    ensures value { result ≡ section_at file.now number }
    ensures there { result + 40 ≤ length file.now }
{
    u32_at(file, E_SHOFF) as usize + 40 * number as usize
}

/// Whether the section of the header at an offset lies in the file.
pub fn lies(file: &[u8], at: usize) -> bool
    requires { at + 40 ≤ length file.now }
    ensures { result ≡ lies file.now at }
{
    let end = u64::from(u32_at(file, at + SH_OFFSET)) + u64::from(u32_at(file, at + SH_SIZE));
    u32_at(file, at + SH_TYPE) != 8 && end <= file.len() as u64
}

/// The bytes of a section that lies in the file.
pub fn section_bytes(file: &[u8], at: usize) -> &[u8]
    requires there { at + 40 ≤ length file.now }
    requires inside { sh_offset at file.now + sh_size at file.now ≤ length file.now }
    ensures { result.now ≡ section_bytes file.now at }
{
    let offset = u32_at(file, at + SH_OFFSET) as usize;
    let size = u32_at(file, at + SH_SIZE) as usize;
    &file[offset..offset + size]
}

/// The names of sections; empty where there are none.
fn names(file: &[u8]) -> &[u8]
    requires long { 52 ≤ length file.now }
    requires room { HasSections file.now }
    ensures { result.now ≡ names file.now }
{
    let number = u16_at(file, E_SHSTRNDX);
    if number == 0 || number >= u16_at(file, E_SHNUM) {
        return &file[..0];
    }
    let at = section_at(file, number);
    if !lies(file, at) {
        return &file[..0];
    }
    section_bytes(file, at)
}

/// Whether a section is named `.wcet`. At most six bytes are compared.
pub fn is_record_section(file: &[u8], at: usize) -> bool
    requires long { 52 ≤ length file.now }
    requires room { HasSections file.now }
    requires there { at + 40 ≤ length file.now }
    ensures { result ≡ is_record_section file.now at }
{
    let names = names(file);
    let start = u32_at(file, at + SH_NAME) as usize;
    if start > names.len() {
        return false;
    }
    let (_, name) = names.split_at(start);
    name.starts_with(&RECORD_NAME)
}

/// Whether a section is a symbol table.
pub fn is_symbol_table(file: &[u8], at: usize) -> bool
    requires { at + 40 ≤ length file.now }
    ensures { result ≡ is_symbol_table file.now at }
{
    u32_at(file, at + SH_TYPE) == 2
}

/// Whether the section of a number lies in the file where it holds the names.
fn has_good_names(file: &[u8], number: u32) -> bool
    requires long { 52 ≤ length file.now }
    requires room { HasSections file.now }
    requires few { number < e_shnum file.now }
    ensures { result ≡ has_good_names file.now number }
{
    number == 0 || number != u16_at(file, E_SHSTRNDX) || lies(file, section_at(file, number))
}

/// Whether a section that is named `.wcet` lies in the file, holds whole records and isn't compressed.
fn has_good_records(file: &[u8], at: usize) -> bool
    requires long { 52 ≤ length file.now }
    requires room { HasSections file.now }
    requires there { at + 40 ≤ length file.now }
    ensures { result ≡ has_good_records file.now at }
{
    !is_record_section(file, at)
        || lies(file, at)
            && u32_at(file, at + SH_SIZE) % 16 == 0
            && u32_at(file, at + SH_FLAGS) / 0x800 % 2 == 0
}

/// Whether a symbol table lies in the file together with its strings.
fn has_good_symbols(file: &[u8], at: usize) -> bool
    requires long { 52 ≤ length file.now }
    requires room { HasSections file.now }
    requires there { at + 40 ≤ length file.now }
    ensures { result ≡ has_good_symbols file.now at }
{
    let link = u32_at(file, at + SH_LINK);
    !is_symbol_table(file, at)
        || lies(file, at) && link < u16_at(file, E_SHNUM) && lies(file, section_at(file, link))
}

/// Whether the section of a number is good or isn't read.
pub fn is_good_section(file: &[u8], number: u32) -> bool
    requires long { 52 ≤ length file.now }
    requires room { HasSections file.now }
    requires few { number < e_shnum file.now }
    ensures { result ≡ is_good_section file.now number }
{
    let at = section_at(file, number);
    has_good_names(file, number) && has_good_records(file, at) && has_good_symbols(file, at)
}
