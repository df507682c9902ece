//! The records of a file: the least bad one is a fault, and good ones are marks.

ghost use Rattle.std.specs.Prelude.{◌≡◌, ℕ, ◌+◌, ◌*◌, ◌<◌, ◌≤◌, ◌++◌, ◌/◌, ◌^◌, true, List, All, Option, None, length, map, IfOk, IfErr, OnOk};
ghost use Rattle.elf_mips.specs.Fields.{e_shnum, sh_offset, sh_size};
ghost use Rattle.elf_mips.specs.Marks.{is_lawful};
ghost use Rattle.elf_mips.specs.Sections.{HasSections, AreGoodSections, section_at, entries};
ghost use Rattle.elf_mips.specs.Records.{mark_at, marks_of, is_good_record, record_places_to};
ghost use Rattle.elf_mips.specs.Rules.{IsLeastOf, broken_places, record_rules_from};
ghost use Rattle.elf_mips.specs.Faults.{IsClean, IsCleanBelow, HasLeast, Tells, offenders};

use crate::fault::{ElfFault, ElfKind};
use crate::fields::{E_SHNUM, SH_OFFSET, SH_SIZE, u16_at, u32_at};
use crate::mark::Mark;
use crate::section::{is_record_section, section_at};
use std::alloc::{AllocError, Global};
use wcet_io::List;

/// The records of the sections looked at so far.
#[derive(Clone, Copy)]
pub struct Seen {
    /// How many there are.
    pub count: u64,
    /// The offset of the least bad one.
    pub least: Option<u32>,
}

/// Looks for the bad record at the least offset.
pub fn check_records(file: &[u8]) -> Result<(), ElfFault>
    requires size { length file.now ≤ 16777216 }
    requires long { 52 ≤ length file.now }
    requires room { HasSections file.now }
    requires good { AreGoodSections file.now }
    requires clean { IsCleanBelow 6 file.now }
    ensures clean { OnOk result (IsClean file.now) }
    ensures lawful { OnOk result (All (λ m. is_lawful m ≡ true) (marks_of file.now)) }
    ensures few { OnOk result (length (marks_of file.now) ≤ 65536) }
    ensures err { IfErr result (Tells file.now) }
{
    match least_bad(file) {
        Some(offset) => Err(ElfFault::Bad {
            kind: ElfKind::BadRecord,
            offset,
        }),
        None => Ok(()),
    }
}

/// The offset of the least bad record.
///
/// A record past the first 65,536 is bad, so that at most so many are looked at, and one more in each
/// section, however many sections share bytes.
fn least_bad(file: &[u8]) -> Option<u32>
    requires size { length file.now ≤ 16777216 }
    requires long { 52 ≤ length file.now }
    requires room { HasSections file.now }
    requires good { AreGoodSections file.now }
    ensures { IsLeastOf (offenders ElfKind.BadRecord file.now) result }
{
    let sections = u16_at(file, E_SHNUM);
    let mut seen = Seen {
        count: 0,
        least: None,
    };
    for number in 0..sections {
        seen = see_section(file, number, seen);
    }
    seen.least
}

/// The records of one more section, if it is named `.wcet`.
fn see_section(file: &[u8], number: u32, seen: Seen) -> Seen
    requires size { length file.now ≤ 16777216 }
    requires long { 52 ≤ length file.now }
    requires room { HasSections file.now }
    requires good { AreGoodSections file.now }
    requires there { number < e_shnum file.now }
    requires few { number < 65536 }
    requires counted { seen.count ≡ length (record_places_to file.now number) }
    requires bound { seen.count ≤ 2 ^ 28 * number }
    requires least { HasLeast file.now number seen.least }
    ensures counted { result.count ≡ length (record_places_to file.now (number + 1)) }
    ensures bound { result.count ≤ 2 ^ 28 * (number + 1) }
    ensures least { HasLeast file.now (number + 1) result.least }
{
    let at = section_at(file, number);
    if !is_record_section(file, at) {
        return seen;
    }
    Seen {
        count: seen.count + u64::from(u32_at(file, at + SH_SIZE) / 16),
        least: lesser(seen.least, first_bad(file, at, seen.count)),
    }
}

/// The first bad record of a section, whose first record has this number among all.
fn first_bad(file: &[u8], at: usize, first: u64) -> Option<u32>
    requires size { length file.now ≤ 16777216 }
    requires there { at + 40 ≤ length file.now }
    requires inside { sh_offset at file.now + sh_size at file.now ≤ length file.now }
    requires few { first < 2 ^ 62 }
    ensures { IsLeastOf (broken_places (record_rules_from file.now first (entries file.now at))) result }
{
    let offset = u32_at(file, at + SH_OFFSET) as usize;
    let count = u32_at(file, at + SH_SIZE) / 16;
    for number in 0..count {
        let place = offset + 16 * number as usize;
        if !is_good_record(file, first + u64::from(number), place) {
            return Some(place as u32);
        }
    }
    None
}

/// The lesser of two offsets, where they are there.
fn lesser(a: Option<u32>, b: Option<u32>) -> Option<u32>
    ensures { (xs ys : List ℕ) → IsLeastOf xs a → IsLeastOf ys b → IsLeastOf (xs ++ ys) result }
{
    match (a, b) {
        (Some(p), Some(q)) => Some(if p <= q { p } else { q }),
        (Some(p), None) => Some(p),
        (None, other) => other,
    }
}

/// Whether the record of a number at an offset is one of the first 65,536, and lawful.
fn is_good_record(file: &[u8], number: u64, at: usize) -> bool
    requires { at + 16 ≤ length file.now }
    ensures { result ≡ is_good_record file.now number at }
{
    number < 65536 && mark_at(file, at).is_lawful()
}

/// The record at an offset.
fn mark_at(file: &[u8], at: usize) -> Mark
    requires { at + 16 ≤ length file.now }
    ensures { result ≡ mark_at file.now at }
{
    Mark {
        kind: u32_at(file, at),
        address: u32_at(file, at + 4),
        x: u32_at(file, at + 8),
        y: u32_at(file, at + 12),
    }
}

/// The records of a file, in their order.
pub fn read_marks(alloc: Global, file: &[u8]) -> Result<List<Mark>, ElfFault>
    requires long { 52 ≤ length file.now }
    requires room { HasSections file.now }
    requires good { AreGoodSections file.now }
    ensures marks { IfOk result (λ marks. marks ≡ marks_of file.now) }
    ensures err { IfErr result (λ e. e ≡ ElfFault.Memory) }
{
    let sections = u16_at(file, E_SHNUM);
    let mut marks = List::new(alloc);
    for number in 0..sections {
        marks = take_section(file, number, marks)?;
    }
    Ok(marks)
}

/// The records up to a section, which may hold further ones.
fn take_section(file: &[u8], number: u32, marks: List<Mark>) -> Result<List<Mark>, ElfFault>
    requires long { 52 ≤ length file.now }
    requires room { HasSections file.now }
    requires good { AreGoodSections file.now }
    requires there { number < e_shnum file.now }
    requires before { marks ≡ map (mark_at file.now) (record_places_to file.now number) }
    ensures ok { IfOk result
        (λ all. all ≡ map (mark_at file.now) (record_places_to file.now (number + 1))) }
    ensures err { IfErr result (λ e. e ≡ ElfFault.Memory) }
{
    let at = section_at(file, number);
    if !is_record_section(file, at) {
        return Ok(marks);
    }
    take_records(file, at, marks)
}

/// Adds the records of a section.
fn take_records(file: &[u8], at: usize, marks: List<Mark>) -> Result<List<Mark>, ElfFault>
    requires there { at + 40 ≤ length file.now }
    requires inside { sh_offset at file.now + sh_size at file.now ≤ length file.now }
    ensures ok { IfOk result (λ all. all ≡ marks ++ map (mark_at file.now) (entries file.now at)) }
    ensures err { IfErr result (λ e. e ≡ ElfFault.Memory) }
{
    let offset = u32_at(file, at + SH_OFFSET) as usize;
    let count = u32_at(file, at + SH_SIZE) / 16;
    let mut all = marks;
    for number in 0..count {
        all.push(mark_at(file, offset + 16 * number as usize))?;
    }
    Ok(all)
}
