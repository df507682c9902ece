//! What is wrong with a file, and where.

ghost use Rattle.std.specs.Prelude.{◌≡◌, ◌<◌, ◌^◌, true, false, IfErr, OnOk};

use std::alloc::{AllocError, AllocFailed};

/// The kinds of faults, in the order in which they are looked for.
#[derive(Clone, Copy, Debug, PartialEq, Eq)]
pub enum ElfKind {
    /// The file has fewer bytes than an ELF header. The place is its length.
    Short,
    /// The file doesn't begin with the magic number. The place is 0.
    NotElf,
    /// The file isn't a big-endian MIPS executable for 32 bits. The place is the field's.
    NotThisKind,
    /// A table of headers isn't as the header has to say. The place is the field's.
    BadTable,
    /// A loaded segment is bad. The place is its program header's.
    BadSegment,
    /// A section that is read is bad. The place is its section header's.
    BadSection,
    /// A record is bad. The place is the record's.
    BadRecord,
}

/// Why a file gives no image.
#[derive(Debug, Drop)]
pub enum ElfFault {
    /// The first fault of the file: its kind, and its offset in the file.
    Bad { kind: ElfKind, offset: u32 },
    /// No memory was left.
    Memory,
}

impl From<AllocError> for ElfFault {
    ghost use Rattle.elf_mips.specs.declared.fault.ElfFault.{ElfFault};

    ghost from_gives = { λ _ e. e ≡ ElfFault.Memory };

    fn from(_error: AllocError) -> ElfFault {
        ElfFault::Memory
    }
}

impl<T: Drop> From<AllocFailed<T>> for ElfFault {
    ghost use Rattle.elf_mips.specs.declared.fault.ElfFault.{ElfFault};

    ghost from_gives = { λ _ e. e ≡ ElfFault.Memory };

    fn from(_error: AllocFailed<T>) -> ElfFault {
        ElfFault::Memory
    }
}

/// Goes on where a rule is kept, and answers its fault where it is broken.
pub fn keep(kept: bool, kind: ElfKind, offset: usize) -> Result<(), ElfFault>
    requires { offset < 2 ^ 32 }
    ensures ok { OnOk result (kept ≡ true) }
    ensures err { IfErr result (λ e. (kept ≡ false) × (e ≡ ElfFault.Bad kind offset)) }
{
    if kept {
        Ok(())
    } else {
        Err(ElfFault::Bad {
            kind,
            offset: offset as u32,
        })
    }
}
