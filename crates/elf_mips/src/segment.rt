//! Loaded segments: the bytes that a program finds from an address on.

ghost use Rattle.std.specs.Prelude.{◌≡◌, ◌+◌, ◌-◌, ◌≤◌, IsTrue, length, slice_index};

use crate::fields::u32_at;
use wcet_io::List;

/// A loaded segment.
#[derive(Debug, Drop)]
pub struct Segment {
    /// The address of the first byte.
    pub address: u32,
    /// How many bytes the segment has.
    pub size: u32,
    /// The flags of the program header: 1 executable, 2 writable, 4 readable.
    pub flags: u32,
    /// The bytes, with zeros past the file's part.
    pub bytes: List<u8>,
}

/// Where a segment begins.
#[derive(Clone, Copy, Debug)]
pub struct Start {
    /// The address of its first byte.
    pub address: u32,
    /// Its number in the order of the program headers, from 0.
    pub number: usize,
}

impl Segment {
    ghost use Rattle.elf_mips.specs.Fields.{number_at};
    ghost use Rattle.elf_mips.specs.Segments.{holds, is_code, is_open};

    /// Whether the `n` bytes from the address on lie in the segment.
    pub(crate) fn holds(&self, n: u32, address: u32) -> bool
        ensures { result ≡ holds n address self.now }
    {
        let end = u64::from(self.address) + u64::from(self.size);
        self.address <= address && u64::from(address) + u64::from(n) <= end
    }

    /// Whether the segment is executable and not writable.
    pub(crate) fn is_code(&self) -> bool
        ensures { result ≡ is_code self.now }
    {
        self.flags % 2 == 1 && self.flags / 2 % 2 == 0
    }

    /// Whether the segment is executable and writable.
    pub(crate) fn is_open(&self) -> bool
        ensures { result ≡ is_open self.now }
    {
        self.flags % 2 == 1 && self.flags / 2 % 2 == 1
    }

    /// The word at an address, the highest byte first.
    pub(crate) fn word_from(&self, address: u32) -> u32
        requires sized { length self.now.bytes ≡ self.now.size }
        requires held { IsTrue (holds 4 address self.now) }
        ensures { result ≡ number_at 4 (address - self.now.address) self.now.bytes }
    {
        let at = address - self.address;
        u32_at(self.bytes.as_slice(), at as usize)
    }

    /// The byte at an address.
    pub(crate) fn byte_from(&self, address: u32) -> u8
        requires sized { length self.now.bytes ≡ self.now.size }
        requires held { IsTrue (holds 1 address self.now) }
        ensures { result ≡ slice_index self.now.bytes (address - self.now.address) }
    {
        let at = address - self.address;
        self.bytes.as_slice()[at as usize]
    }
}
