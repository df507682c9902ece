//! The symbols of a file: the names and values of its first symbol table.

ghost use Rattle.std.specs.Prelude.{◌≡◌, ℕ, ◌+◌, ◌≤◌, ◌<◌, ◌==◌, ◌++◌, [], true, length, take, position, option_map, IfOk, IfErr, IfSome, IfNone};
ghost use Rattle.std.specs.List.{cons_option};
ghost use Rattle.elf_mips.specs.Fields.{e_shnum, sh_link, sh_offset, sh_size, st_shndx};
ghost use Rattle.elf_mips.specs.Sections.{HasSections, AreGoodSections, has_good_symbols, is_symbol_table};
ghost use Rattle.elf_mips.specs.Symbols.{symbol_table, symbols_in, symbols_of, symbol_of, name_at};

use crate::fault::ElfFault;
use crate::fields::{
    E_SHNUM, SH_LINK, SH_OFFSET, SH_SIZE, ST_NAME, ST_SHNDX, ST_VALUE, u16_at, u32_at,
};
use crate::section::{is_symbol_table, section_at, section_bytes};
use crate::symbol::Symbol;
use std::alloc::{AllocError, Global};
use wcet_io::List;

/// The symbols of a file, in their order.
pub fn read_symbols(alloc: Global, file: &[u8]) -> Result<List<Symbol>, ElfFault>
    requires long { 52 ≤ length file.now }
    requires room { HasSections file.now }
    requires good { AreGoodSections file.now }
    ensures symbols { IfOk result (λ symbols. symbols ≡ symbols_of file.now) }
    ensures err { IfErr result (λ e. e ≡ ElfFault.Memory) }
{
    match symbol_table(file) {
        Some(at) => read_table(alloc, file, at),
        None => Ok(List::new(alloc)),
    }
}

/// The header of the first symbol table.
fn symbol_table(file: &[u8]) -> Option<usize>
    requires long { 52 ≤ length file.now }
    requires room { HasSections file.now }
    requires good { AreGoodSections file.now }
    ensures first { result ≡ symbol_table file.now }
    ensures there { IfSome result (λ at. at + 40 ≤ length file.now) }
    ensures is { IfSome result (λ at. is_symbol_table file.now at ≡ true) }
    ensures good { IfSome result (λ at. has_good_symbols file.now at ≡ true) }
{
    let sections = u16_at(file, E_SHNUM);
    for number in 0..sections {
        let at = section_at(file, number);
        if is_symbol_table(file, at) {
            return Some(at);
        }
    }
    None
}

/// The symbols of a symbol table.
fn read_table(alloc: Global, file: &[u8], at: usize) -> Result<List<Symbol>, ElfFault>
    requires long { 52 ≤ length file.now }
    requires room { HasSections file.now }
    requires there { at + 40 ≤ length file.now }
    requires is { is_symbol_table file.now at ≡ true }
    requires good { has_good_symbols file.now at ≡ true }
    ensures symbols { IfOk result (λ symbols. symbols ≡ symbols_in file.now at) }
    ensures err { IfErr result (λ e. e ≡ ElfFault.Memory) }
{
    let strings = section_bytes(file, section_at(file, u32_at(file, at + SH_LINK)));
    let offset = u32_at(file, at + SH_OFFSET) as usize;
    let count = u32_at(file, at + SH_SIZE) / 16;
    let mut symbols = List::new(alloc);
    for number in 0..count {
        symbols = take_symbol(alloc, file, strings, offset + 16 * number as usize, symbols)?;
    }
    Ok(symbols)
}

/// The symbols up to an entry, which may give a further one.
fn take_symbol(
    alloc: Global,
    file: &[u8],
    strings: &[u8],
    at: usize,
    symbols: List<Symbol>,
) -> Result<List<Symbol>, ElfFault>
    requires { at + 16 ≤ length file.now }
    ensures ok { IfOk result
        (λ all. all ≡ symbols ++ cons_option (symbol_of file.now strings.now at) []) }
    ensures err { IfErr result (λ e. e ≡ ElfFault.Memory) }
{
    if u16_at(file, at + ST_SHNDX) == 0 {
        return Ok(symbols);
    }
    let Some(name) = name_at(strings, u32_at(file, at + ST_NAME) as usize) else {
        return Ok(symbols);
    };
    let mut bytes = Vec::with_capacity(alloc, name.len())?;
    bytes.extend_from_slice(name)?;
    let mut all = symbols;
    all.push(Symbol {
        name: List::from_vec(bytes),
        value: u32_at(file, at + ST_VALUE),
    })?;
    Ok(all)
}

/// The name at an offset of the strings, where it has 1 to 1,024 bytes.
fn name_at(strings: &[u8], start: usize) -> Option<&[u8]>
    ensures { option_map (λ name. name.now) result ≡ name_at strings.now start }
{
    if start > strings.len() {
        return None;
    }
    let (_, tail) = strings.split_at(start);
    let size = name_length(tail)?;
    if size == 0 {
        return None;
    }
    Some(&tail[..size])
}

/// Where the first zero byte stands, if it is one of the first 1,025 bytes. No further ones are looked at.
fn name_length(tail: &[u8]) -> Option<usize>
    ensures value { result ≡ position (λ b. b == 0) (take 1025 tail.now) }
    ensures inside { IfSome result (λ n. n ≤ length tail.now) }
{
    if tail.len() <= 1025 {
        return first_zero(tail);
    }
    let (front, _) = tail.split_at(1025);
    first_zero(front)
}

/// Where the first zero byte stands.
fn first_zero(bytes: &[u8]) -> Option<usize>
    ensures value { result ≡ position (λ b. b == 0) bytes.now }
    ensures inside { IfSome result (λ n. n < length bytes.now) }
{
    bytes.iter().position(|byte| *byte == 0)
}
