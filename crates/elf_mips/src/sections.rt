//! The table of section headers: the first bad section is a fault.

ghost use Rattle.std.specs.Prelude.{◌≤◌, length, IfErr, OnOk};
ghost use Rattle.elf_mips.specs.Sections.{HasSections, AreGoodSections};
ghost use Rattle.elf_mips.specs.Faults.{IsCleanBelow, Tells};

use crate::fault::{ElfFault, ElfKind, keep};
use crate::fields::{E_SHNUM, u16_at};
use crate::section::{is_good_section, section_at};

/// Looks for the first bad section.
pub fn check_sections(file: &[u8]) -> Result<(), ElfFault>
    requires size { length file.now ≤ 16777216 }
    requires long { 52 ≤ length file.now }
    requires room { HasSections file.now }
    requires clean { IsCleanBelow 5 file.now }
    ensures good { OnOk result (AreGoodSections file.now) }
    ensures clean { OnOk result (IsCleanBelow 6 file.now) }
    ensures err { IfErr result (Tells file.now) }
{
    let count = u16_at(file, E_SHNUM);
    for number in 0..count {
        let good = is_good_section(file, number);
        keep(good, ElfKind::BadSection, section_at(file, number))?;
    }
    Ok(())
}
