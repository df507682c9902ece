//! Numbers in a file, the highest byte first, and where the fields stand.

ghost use Rattle.std.specs.Prelude.{◌≡◌, ◌+◌, ◌<◌, ◌≤◌, length};
ghost use Rattle.elf_mips.specs.Fields.{number_at};

use byteorder::{BigEndian, ByteOrder};

/// Offsets of the ELF header's fields, by their names in the System V ABI.
pub const EI_MAG: usize = 0x00;

pub const EI_CLASS: usize = 0x04;

pub const EI_DATA: usize = 0x05;

pub const EI_VERSION: usize = 0x06;

pub const E_TYPE: usize = 0x10;

pub const E_MACHINE: usize = 0x12;

pub const E_VERSION: usize = 0x14;

pub const E_ENTRY: usize = 0x18;

pub const E_PHOFF: usize = 0x1C;

pub const E_SHOFF: usize = 0x20;

pub const E_PHENTSIZE: usize = 0x2A;

pub const E_PHNUM: usize = 0x2C;

pub const E_SHENTSIZE: usize = 0x2E;

pub const E_SHNUM: usize = 0x30;

pub const E_SHSTRNDX: usize = 0x32;

/// Offsets of a program header's fields.
pub const P_TYPE: usize = 0;

pub const P_OFFSET: usize = 4;

pub const P_VADDR: usize = 8;

pub const P_FILESZ: usize = 16;

pub const P_MEMSZ: usize = 20;

pub const P_FLAGS: usize = 24;

/// Offsets of a section header's fields.
pub const SH_NAME: usize = 0;

pub const SH_TYPE: usize = 4;

pub const SH_FLAGS: usize = 8;

pub const SH_OFFSET: usize = 16;

pub const SH_SIZE: usize = 20;

pub const SH_LINK: usize = 24;

/// Offsets of a symbol's fields.
pub const ST_NAME: usize = 0;

pub const ST_VALUE: usize = 4;

pub const ST_SHNDX: usize = 14;

/// The number in one byte.
pub fn u8_at(file: &[u8], at: usize) -> u32
    requires { at + 1 ≤ length file.now }
    ensures { result ≡ number_at 1 at file.now }
{
    u32::from(file[at])
}

/// The number in two bytes.
pub fn u16_at(file: &[u8], at: usize) -> u32
    requires { at + 2 ≤ length file.now }
    ensures value { result ≡ number_at 2 at file.now }
    ensures fits { result < 65536 }
{
    u32::from(BigEndian::read_u16(&file[at..]))
}

/// The number in four bytes.
pub fn u32_at(file: &[u8], at: usize) -> u32
    requires { at + 4 ≤ length file.now }
    ensures { result ≡ number_at 4 at file.now }
{
    BigEndian::read_u32(&file[at..])
}
