//! What the ELF header must keep, in the order in which faults are answered.

ghost use Rattle.std.specs.Prelude.{◌≡◌, ◌+◌, ◌*◌, ◌<◌, ◌≤◌, ◌==◌, ◌||◌, nat_le, not, None, length, IfErr, OnOk};
ghost use Rattle.elf_mips.specs.Fields.{e_shnum};
ghost use Rattle.elf_mips.specs.Headers.{HasHeaders};
ghost use Rattle.elf_mips.specs.Sections.{HasSections};
ghost use Rattle.elf_mips.specs.Rules.{first_place, size_rules, magic_rules, kind_rules, table_rules};
ghost use Rattle.elf_mips.specs.Faults.{IsBroken, IsCleanBelow, Tells};

use crate::fault::{ElfFault, ElfKind, keep};
use crate::fields::{
    E_MACHINE, E_PHENTSIZE, E_PHNUM, E_PHOFF, E_SHENTSIZE, E_SHNUM, E_SHOFF, E_SHSTRNDX, E_TYPE,
    E_VERSION, EI_CLASS, EI_DATA, EI_MAG, EI_VERSION, u8_at, u16_at, u32_at,
};

/// Looks for the first fault of a file that its header shows.
pub fn check_header(file: &[u8]) -> Result<(), ElfFault>
    requires { length file.now ≤ 16777216 }
    ensures ok { OnOk result (IsCleanBelow 4 file.now) }
    ensures err { IfErr result (Tells file.now) }
    ensures long { OnOk result (52 ≤ length file.now) }
    ensures room { OnOk result (HasHeaders file.now) }
    ensures sections { OnOk result (HasSections file.now) }
{
    check_size(file)?;
    check_magic(file)?;
    check_kind(file)?;
    check_tables(file)
}

/// The file has the bytes of a header.
#[tactic(auto, unfolding(crate::specs::Rules::size_rules))]
fn check_size(file: &[u8]) -> Result<(), ElfFault>
    requires { length file.now ≤ 16777216 }
    ensures ok { OnOk result (first_place (size_rules file.now) ≡ None) }
    ensures err { IfErr result (IsBroken ElfKind.Short (size_rules file.now)) }
    ensures long { OnOk result (52 ≤ length file.now) }
{
    keep(52 <= file.len(), ElfKind::Short, file.len())
}

/// The file begins with the magic number.
#[tactic(auto, unfolding(crate::specs::Rules::magic_rules))]
fn check_magic(file: &[u8]) -> Result<(), ElfFault>
    requires { 52 ≤ length file.now }
    ensures ok { OnOk result (first_place (magic_rules file.now) ≡ None) }
    ensures err { IfErr result (IsBroken ElfKind.NotElf (magic_rules file.now)) }
{
    keep(u32_at(file, EI_MAG) == 0x7F45_4C46, ElfKind::NotElf, EI_MAG)
}

/// The file is a big-endian MIPS executable for 32 bits.
#[tactic(auto, unfolding(crate::specs::Rules::kind_rules))]
fn check_kind(file: &[u8]) -> Result<(), ElfFault>
    requires { 52 ≤ length file.now }
    ensures ok { OnOk result (first_place (kind_rules file.now) ≡ None) }
    ensures err { IfErr result (IsBroken ElfKind.NotThisKind (kind_rules file.now)) }
{
    let kind = ElfKind::NotThisKind;
    keep(u8_at(file, EI_CLASS) == 1, kind, EI_CLASS)?;
    keep(u8_at(file, EI_DATA) == 2, kind, EI_DATA)?;
    keep(u8_at(file, EI_VERSION) == 1, kind, EI_VERSION)?;
    keep(u16_at(file, E_TYPE) == 2, kind, E_TYPE)?;
    keep(u16_at(file, E_MACHINE) == 8, kind, E_MACHINE)?;
    keep(u32_at(file, E_VERSION) == 1, kind, E_VERSION)
}

/// The tables of program headers and of section headers are as they should be.
#[tactic(auto, unfolding(crate::specs::Rules::table_rules))]
fn check_tables(file: &[u8]) -> Result<(), ElfFault>
    requires { 52 ≤ length file.now }
    ensures ok { OnOk result (first_place (table_rules file.now) ≡ None) }
    ensures err { IfErr result (IsBroken ElfKind.BadTable (table_rules file.now)) }
    ensures room { OnOk result (HasHeaders file.now) }
    ensures sections { OnOk result (HasSections file.now) }
{
    let kind = ElfKind::BadTable;
    let programs = u16_at(file, E_PHNUM);
    let program_offset = u32_at(file, E_PHOFF);
    let sections = u16_at(file, E_SHNUM);
    let section_offset = u32_at(file, E_SHOFF);
    keep(is_table(file, program_offset, programs, 32), kind, E_PHOFF)?;
    keep(is_table(file, section_offset, sections, 40), kind, E_SHOFF)?;
    let fits = u16_at(file, E_PHENTSIZE) == 32;
    keep(is_unused_or(programs, fits), kind, E_PHENTSIZE)?;
    keep(programs < 65535, kind, E_PHNUM)?;
    let fits = u16_at(file, E_SHENTSIZE) == 40;
    keep(is_unused_or(sections, fits), kind, E_SHENTSIZE)?;
    keep(is_unused_or(section_offset, sections != 0), kind, E_SHNUM)?;
    let named = u16_at(file, E_SHSTRNDX) < sections;
    keep(is_unused_or(sections, named), kind, E_SHSTRNDX)
}

/// Whether a number is 0, so that a rule isn't looked at, or else the rule is kept.
fn is_unused_or(number: u32, kept: bool) -> bool
    ensures { result ≡ (number == 0 || kept) }
{
    number == 0 || kept
}

/// Whether a table of so many entries of this size lies in the file.
fn is_table(file: &[u8], offset: u32, count: u32, size: u32) -> bool
    requires few { count < 65536 }
    requires small { size ≤ 40 }
    ensures { result ≡ (count == 0 || nat_le (offset + size * count) (length file.now)) }
{
    let end = u64::from(offset) + u64::from(size * count);
    count == 0 || end <= file.len() as u64
}
