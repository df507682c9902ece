//! The fields of a word.

ghost use Rattle.mips_decode.specs.Decoded.{fields_of};
ghost use Rattle.std.specs.Prelude.{◌≡◌, ℕ, ◌/◌, ◌%◌, ◌^◌};

use crate::instr::Reg;

/// A word's fields in the formats of the MIPS I architecture, which share their bits.
#[derive(Clone, Copy, Debug, PartialEq, Eq)]
pub struct Fields {
    pub op: u32,
    pub rs: Reg,
    pub rt: Reg,
    pub rd: Reg,
    pub sa: u8,
    pub function: u32,
    pub imm: u16,
    pub index: u32,
    pub code: u32,
}

/// The fields of a word.
pub fn fields_of(word: u32) -> Fields
    ensures { result ≡ fields_of word }
{
    Fields {
        op: word >> 26,
        rs: Reg::low(word >> 21),
        rt: Reg::low(word >> 16),
        rd: Reg::low(word >> 11),
        sa: (word >> 6 & 0x1f) as u8,
        function: word & 0x3f,
        imm: (word & 0xffff) as u16,
        index: word & 0x3ff_ffff,
        code: word >> 6 & 0xf_ffff,
    }
}
