//! One region of the machine's memory, and the numbers in it.

ghost use Rattle.std.specs.Prelude.{◌≡◌, ℕ, ◌+◌, ◌-◌, ◌<◌, ◌≤◌, ◌^◌, length, IsTrue, IfOk, OnOk, OnSome, All};
ghost use Rattle.elf_mips.specs.Segments.{EndsLow, IsFilled};
ghost use Rattle.mips_decode.specs.Effect.{number_in, region_with};
ghost use Rattle.mips_decode.specs.Memory.{IsSize};
ghost use Rattle.mips_decode.specs.State.{covers, holds_code, is_writable, return_address, word_at};
ghost use Rattle.mips_machine.specs.Image.{HasBytes, filled_region, region_of, spliced, takes_fill, zeros_at};

use crate::fill::Fill;
use elf_mips::Segment;
use mips_decode::Touched;
use std::alloc::{AllocError, Global};
use std::marker::Model;

/// A stretch of memory with its flags (1 executable, 2 writable).
#[derive(Debug, Drop)]
pub struct Region {
    start: u32,
    flags: u32,
    bytes: Vec<u8>,
}

impl Model for Region {
    ghost use Rattle.mips_decode.specs.State.{Region};
    ghost use Rattle.mips_machine.specs.Region.{LiesLow};

    ghost Value = { Region };

    ghost view = { λ r. record { start = r.start; flags = r.flags; bytes = r.bytes.items } };

    ghost invariant = { λ r. LiesLow r.start r.bytes.items };
}

/// A copy of the bytes.
fn copied(alloc: Global, bytes: &[u8]) -> Result<Vec<u8>, AllocError>
    ensures items { IfOk result (λ copy. copy.items ≡ bytes.now) }
    ensures small { OnOk result (All (λ byte. byte < 256) bytes.now) }
{
    Vec::from_slice(alloc, bytes)
}

/// Puts new bytes over others from an offset on.
fn splice(bytes: &mut [u8], at: usize, new: &[u8])
    requires { at + length new.now ≤ length bytes.old }
    ensures bytes { bytes.new ≡ spliced at new.now bytes.old }
    ensures small { All (λ byte. byte < 256) new.now }
{
    bytes[at..at + new.len()].copy_from_slice(new);
}

impl Region {
    /// The region of a loaded segment, with a copy of its bytes.
    pub fn of_segment(alloc: Global, segment: &Segment) -> Result<Region, AllocError>
        requires filled { IsFilled segment.now }
        requires low { EndsLow segment.now }
        ensures region { IfOk result (λ r. r ≡ region_of segment.now) }
        ensures bytes { OnOk result (HasBytes segment.now) }
    {
        let bytes = copied(alloc, segment.bytes.as_slice())?;
        Ok(Region {
            start: segment.address,
            flags: segment.flags,
            bytes,
        })
    }

    /// A region of zeros that can be written.
    pub fn zeros(alloc: Global, start: u32, size: u32) -> Result<Region, AllocError>
        requires { start + size ≤ return_address }
        ensures { IfOk result (λ r. r ≡ zeros_at start size) }
    {
        Ok(Region {
            start,
            flags: 2,
            bytes: vec![in alloc; 0u8; size as usize]?,
        })
    }

    /// The address of the first byte.
    pub fn start(&self) -> u32
        ensures { result ≡ self.now.start }
    {
        self.start
    }

    /// Whether all bytes from an address up to a size lie in the region.
    pub fn covers(&self, address: u32, size: u64) -> bool
        requires { size < 2 ^ 63 }
        ensures held { result ≡ covers address size self.now }
        ensures low { IsTrue result → address + size ≤ return_address }
    {
        let end = u64::from(self.start) + self.bytes.len() as u64;
        self.start <= address && u64::from(address) + size <= end
    }

    /// Whether the region holds an executable word at the address.
    pub fn has_code(&self, address: u32) -> bool
        ensures held { result ≡ holds_code address self.now }
        ensures low { IsTrue result → address + 4 ≤ return_address }
    {
        self.covers(address, 4) && self.flags % 2 == 1 && !(self.flags / 2 % 2 == 1)
    }

    /// Whether the region can be written.
    pub fn is_writable(&self) -> bool
        ensures { result ≡ is_writable self.now }
    {
        self.flags / 2 % 2 == 1
    }

    /// The big-endian word at an address whose four bytes the region holds.
    pub fn word(&self, address: u32) -> u32
        requires { IsTrue (covers address 4 self.now) }
        ensures { result ≡ word_at (address - self.now.start) self.now.bytes }
    {
        mips_decode::number_at(&self.bytes, 4, (address - self.start) as usize)
    }

    /// The number that an access finds.
    pub fn number(&self, access: &Touched) -> u32
        requires sized { IsSize access.now.size }
        requires held { IsTrue (covers access.now.address access.now.size self.now) }
        ensures { result ≡ number_in access.now self.now }
    {
        let at = (access.address - self.start) as usize;
        mips_decode::number_at(&self.bytes, access.size, at)
    }

    /// Whether the region can be written and holds all bytes of a fill.
    pub fn takes(&self, fill: &Fill) -> bool
        ensures { result ≡ takes_fill fill.now self.now }
    {
        self.is_writable() && self.covers(fill.address, fill.bytes.as_slice().len() as u64)
    }

    /// Puts bytes over those from an address on.
    pub fn fill(&mut self, fill: &Fill)
        requires { IsTrue (covers fill.now.address (length fill.now.bytes) self.old) }
        ensures region { self.new ≡ filled_region fill.now self.old }
        ensures bytes { All (λ byte. byte < 256) fill.now.bytes }
    {
        let at = (fill.address - self.start) as usize;
        splice(&mut self.bytes, at, fill.bytes.as_slice());
    }

    /// Puts a number where an access is.
    pub fn put(&mut self, access: &Touched, number: u32)
        requires sized { IsSize access.now.size }
        requires held { IsTrue (covers access.now.address access.now.size self.old) }
        ensures { self.new ≡ region_with access.now number self.old }
    {
        let at = (access.address - self.start) as usize;
        mips_decode::put_number(&mut self.bytes, number, access.size, at);
    }
}
