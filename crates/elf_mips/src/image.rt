//! Images: what a program finds in memory when it starts.

ghost use Rattle.std.specs.Prelude.{◌≡◌, ℕ, ◌+◌, ◌^◌, ◌<◌, ◌≤◌, true, [], All, AllPairs, length, slice_index_or, option_map, IsTrue, IfOk, IfSome, OnSome};
ghost use Rattle.std.specs.List.Sorted.{IsPermutation, IsNonDecreasingBy};
ghost use Rattle.elf_mips.specs.Segments.{IsFilled, EndsLow, AreApart, AreLawful, Finds, starts_of, total_size, holds};
ghost use Rattle.elf_mips.specs.Marks.{is_lawful};

use crate::index::{index_of, last_start};
use crate::mark::Mark;
use crate::segment::{Segment, Start};
use crate::symbol::Symbol;
use std::alloc::{AllocError, Global};
use wcet_io::List;

/// What a file loads, and what it says of its program.
#[derive(Debug, Drop)]
pub struct Image {
    /// The address of the first instruction.
    pub entry: u32,
    /// The loaded segments, in the order of their program headers.
    pub segments: List<Segment>,
    /// Where each segment begins, by rising addresses.
    pub by_address: List<Start>,
    /// The symbols, in their order.
    pub symbols: List<Symbol>,
    /// The records, in their order.
    pub marks: List<Mark>,
    pub ghost filled: { All IsFilled segments },
    pub ghost low: { All EndsLow segments },
    pub ghost apart: { AllPairs AreApart segments },
    pub ghost once: { ∥ IsPermutation (starts_of segments) by_address ∥₁ },
    pub ghost rising: { IsNonDecreasingBy (λ start. start.address) by_address },
    pub ghost fits: { total_size segments ≤ 67108864 },
    pub ghost lawful: { All (λ m. is_lawful m ≡ true) marks },
    pub ghost counted: { length marks ≤ 65536 },
}

impl Image {
    ghost use Rattle.elf_mips.specs.Segments.{code_at, byte_at, is_writable_word};
    ghost use Rattle.elf_mips.specs.Symbols.{symbol_at};

    /// The image of these segments, with no symbols and no records.
    pub fn from_segments(
        alloc: Global,
        entry: u32,
        segments: List<Segment>,
    ) -> Result<Image, AllocError>
        requires { AreLawful segments }
        ensures entry { IfOk result (λ image. image.entry ≡ entry) }
        ensures segments { IfOk result (λ image. image.segments ≡ segments) }
        ensures symbols { IfOk result (λ image. image.symbols ≡ []) }
        ensures marks { IfOk result (λ image. image.marks ≡ []) }
    {
        Image::from_parts(alloc, entry, segments, List::new(alloc), List::new(alloc))
    }

    /// The image of these segments, symbols and records.
    pub(crate) fn from_parts(
        alloc: Global,
        entry: u32,
        segments: List<Segment>,
        symbols: List<Symbol>,
        marks: List<Mark>,
    ) -> Result<Image, AllocError>
        requires segments { AreLawful segments }
        requires marks { All (λ m. is_lawful m ≡ true) marks }
        requires few { length marks ≤ 65536 }
        ensures entry { IfOk result (λ image. image.entry ≡ entry) }
        ensures segments { IfOk result (λ image. image.segments ≡ segments) }
        ensures symbols { IfOk result (λ image. image.symbols ≡ symbols) }
        ensures marks { IfOk result (λ image. image.marks ≡ marks) }
    {
        let by_address = index_of(alloc, segments.as_slice())?;
        Ok(Image {
            entry,
            segments,
            by_address,
            symbols,
            marks,
        })
    }

    /// The executable word at an address; `None` where there is none.
    pub fn word_at(&self, address: u32) -> Option<u32>
        ensures word { result ≡ code_at self.now.segments address }
        ensures low { OnSome result (address + 4 < 2 ^ 32) }
    {
        if address % 4 != 0 {
            return None;
        }
        let segment = self.segment_at(address)?;
        if !segment.holds(4, address) || !segment.is_code() {
            return None;
        }
        Some(segment.word_from(address))
    }

    /// Whether the four bytes at a multiple of 4 lie in a segment that is executable and writable.
    pub fn is_writable_word(&self, address: u32) -> bool
        ensures { result ≡ is_writable_word self.now.segments address }
    {
        if address % 4 != 0 {
            return false;
        }
        let Some(segment) = self.segment_at(address) else {
            return false;
        };
        segment.holds(4, address) && segment.is_open()
    }

    /// The byte at an address; `None` where no segment covers it.
    pub fn byte_at(&self, address: u32) -> Option<u8>
        ensures { result ≡ byte_at self.now.segments address }
    {
        let segment = self.segment_at(address)?;
        Some(segment.byte_from(address))
    }

    /// The value of the first symbol of this name; `None` where there is none.
    pub fn symbol(&self, name: &[u8]) -> Option<u32>
        ensures { result ≡ symbol_at self.now.symbols name.now }
    {
        for symbol in self.symbols.as_slice() {
            if symbol.name.as_slice() == name {
                return Some(symbol.value);
            }
        }
        None
    }

    /// The segment that covers an address: it can only be the last one that begins there or before.
    fn segment_at(&self, address: u32) -> Option<&Segment>
        ensures only { Finds address self.now.segments (option_map (λ s. s.now) result) }
        ensures held { IfSome result (λ s. IsTrue (holds 1 address s.now)) }
        ensures filled { IfSome result (λ s. IsFilled s.now) }
        ensures low { IfSome result (λ s. EndsLow s.now) }
    {
        let start = match last_start(self.by_address.as_slice(), address) {
            Some(start) => start,
            None => return None,
        };
        let segment = self.segment(start.number);
        if !segment.holds(1, address) {
            return None;
        }
        Some(segment)
    }

    /// The segment of a number, from 0.
    fn segment(&self, number: usize) -> &Segment
        requires { number < length self.now.segments }
        ensures item { result.now ≡ slice_index_or self.now.segments number result.now }
        ensures filled { IsFilled result.now }
        ensures low { EndsLow result.now }
    {
        &self.segments.as_slice()[number]
    }
}
