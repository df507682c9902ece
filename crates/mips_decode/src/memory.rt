//! The numbers that loads and stores move between registers and bytes.

ghost use Rattle.mips_decode.specs.Effect.{address_of};
ghost use Rattle.mips_decode.specs.Memory.{IsSize, byte_extended, load_touched, load_value, number_at, store_touched, store_value, with_half, with_number};
ghost use Rattle.std.specs.Prelude.{◌≡◌, ◌⊎◌, ◌+◌, ◌*◌, ◌<◌, ◌≤◌, ◌^◌, List, length, ℕ};

use crate::arithmetic::sign_extended;
use crate::instr::{LoadOp, Reg, StoreOp};
use crate::step::{Regs, Touched};

/// The address of a load or store, by its base register and its signed offset.
pub fn address_of(regs: &Regs, base: Reg, offset: u16) -> u32
    ensures { result ≡ address_of regs.now base offset }
{
    regs.get(base).wrapping_add(sign_extended(offset))
}

/// An access of a load or store.
fn touched(address: u32, size: u32, store: bool) -> Touched
    ensures { result ≡ record { address = address; size = size; store = store } }
{
    Touched {
        address,
        size,
        store,
    }
}

/// The access of a load at an address. That of LWL and LWR is the whole aligned word.
pub fn load_touched(op: LoadOp, address: u32) -> Touched
    ensures access { result ≡ load_touched op address }
    ensures sized { IsSize result.size }
{
    match op {
        LoadOp::Lb => touched(address, 1, false),
        LoadOp::Lbu => touched(address, 1, false),
        LoadOp::Lh => touched(address, 2, false),
        LoadOp::Lhu => touched(address, 2, false),
        LoadOp::Lw => touched(address, 4, false),
        LoadOp::Lwl => touched(address - address % 4, 4, false),
        LoadOp::Lwr => touched(address - address % 4, 4, false),
    }
}

/// The access of a store at an address. That of SWL and SWR is the whole aligned word.
pub fn store_touched(op: StoreOp, address: u32) -> Touched
    ensures access { result ≡ store_touched op address }
    ensures sized { IsSize result.size }
{
    match op {
        StoreOp::Sb => touched(address, 1, true),
        StoreOp::Sh => touched(address, 2, true),
        StoreOp::Sw => touched(address, 4, true),
        StoreOp::Swl => touched(address - address % 4, 4, true),
        StoreOp::Swr => touched(address - address % 4, 4, true),
    }
}

/// The number in a byte.
fn byte_at(bytes: &[u8], offset: usize) -> u32
    requires { offset < length bytes.now }
    ensures value { result ≡ number_at 1 offset bytes.now }
    ensures small { result < 256 }
{
    u32::from(bytes[offset])
}

/// The number in two bytes, the highest one first.
fn half_at(bytes: &[u8], offset: usize) -> u32
    requires { offset + 2 ≤ length bytes.now }
    ensures value { result ≡ number_at 2 offset bytes.now }
    ensures small { result < 65536 }
{
    (byte_at(bytes, offset) << 8) + byte_at(bytes, offset + 1)
}

/// The number in the one, two or four bytes from an offset on, the highest byte first.
pub fn number_at(bytes: &[u8], size: u32, offset: usize) -> u32
    requires sized { IsSize size }
    requires inside { offset + size ≤ length bytes.now }
    ensures { result ≡ number_at size offset bytes.now }
{
    match size {
        1 => byte_at(bytes, offset),
        2 => half_at(bytes, offset),
        _ => (half_at(bytes, offset) << 16) + half_at(bytes, offset + 2),
    }
}

/// Puts a number of two bytes in, the highest byte first.
fn put_half(bytes: &mut [u8], number: u32, offset: usize)
    requires { offset + 2 ≤ length bytes.old }
    ensures { bytes.new ≡ with_half number offset bytes.old }
{
    bytes[offset] = (number >> 8 & 0xff) as u8;
    bytes[offset + 1] = (number & 0xff) as u8;
}

/// Puts a number of one, two or four bytes in from an offset on, the highest byte first.
pub fn put_number(bytes: &mut [u8], number: u32, size: u32, offset: usize)
    requires sized { IsSize size }
    requires inside { offset + size ≤ length bytes.old }
    ensures { bytes.new ≡ with_number number size offset bytes.old }
{
    match size {
        1 => bytes[offset] = (number & 0xff) as u8,
        2 => put_half(bytes, number, offset),
        _ => {
            put_half(bytes, number >> 16, offset);
            put_half(bytes, number, offset + 2);
        }
    }
}

/// Eight bits with their highest one repeated above them.
fn byte_extended(byte: u8) -> u32
    ensures { result ≡ byte_extended byte }
{
    let number = u32::from(byte);
    if byte < 0x80 {
        number
    } else {
        number + 0xffff_ff00
    }
}

/// LWL: a word's bytes from a place on at the top of a register, whose lower bytes stay.
fn load_left(place: u32, old: u32, number: u32) -> u32
    requires { place < 4 }
    ensures { result ≡ load_value LoadOp.Lwl place old number }
{
    match place {
        0 => number,
        1 => (number << 8) + (old & 0xff),
        2 => (number << 16) + (old & 0xffff),
        _ => (number << 24) + (old & 0xff_ffff),
    }
}

/// LWR: a word's bytes up to a place at the bottom of a register, whose upper bytes stay.
fn load_right(place: u32, old: u32, number: u32) -> u32
    requires { place < 4 }
    ensures { result ≡ load_value LoadOp.Lwr place old number }
{
    match place {
        0 => (old >> 8 << 8) + (number >> 24),
        1 => (old >> 16 << 16) + (number >> 16),
        2 => (old >> 24 << 24) + (number >> 8),
        _ => number,
    }
}

/// SWL: a register's top bytes in a word from a place on; the bytes before it stay.
fn store_left(place: u32, old: u32, number: u32) -> u32
    requires { place < 4 }
    ensures { result ≡ store_value StoreOp.Swl place old number }
{
    match place {
        0 => number,
        1 => (old >> 24 << 24) + (number >> 8),
        2 => (old >> 16 << 16) + (number >> 16),
        _ => (old >> 8 << 8) + (number >> 24),
    }
}

/// SWR: a register's bottom bytes in a word up to a place; the bytes behind it stay.
fn store_right(place: u32, old: u32, number: u32) -> u32
    requires { place < 4 }
    ensures { result ≡ store_value StoreOp.Swr place old number }
{
    match place {
        0 => (number << 24) + (old & 0xff_ffff),
        1 => (number << 16) + (old & 0xffff),
        2 => (number << 8) + (old & 0xff),
        _ => number,
    }
}

/// The register after a load of a number, by the place of the address in its word and the
/// register before.
pub fn load_value(op: LoadOp, place: u32, old: u32, number: u32) -> u32
    requires { place < 4 }
    ensures { result ≡ load_value op place old number }
{
    match op {
        LoadOp::Lb => byte_extended((number & 0xff) as u8),
        LoadOp::Lbu => number,
        LoadOp::Lh => sign_extended((number & 0xffff) as u16),
        LoadOp::Lhu => number,
        LoadOp::Lw => number,
        LoadOp::Lwl => load_left(place, old, number),
        LoadOp::Lwr => load_right(place, old, number),
    }
}

/// The number in memory after a store of a register's number, by the place of the address in
/// its word and the number before.
pub fn store_value(op: StoreOp, place: u32, old: u32, number: u32) -> u32
    requires { place < 4 }
    ensures { result ≡ store_value op place old number }
{
    match op {
        StoreOp::Sb => number & 0xff,
        StoreOp::Sh => number & 0xffff,
        StoreOp::Sw => number,
        StoreOp::Swl => store_left(place, old, number),
        StoreOp::Swr => store_right(place, old, number),
    }
}
