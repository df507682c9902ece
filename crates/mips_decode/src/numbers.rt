//! The numbers that the operations have in the instruction table. Their fields have six bits.

ghost use Rattle.mips_decode.specs.Decoder.{hi_lo_op, imm_op, load_op, mul_op, shift_op, stop_op, store_op, three_op};
ghost use Rattle.mips_decode.specs.Table.{hi_lo_number, imm_number, load_number, mul_number, shift_number, stop_number, store_number, three_number};
ghost use Rattle.std.specs.Prelude.{◌≡◌, ◌<◌, ◌^◌, Option};

use crate::instr::{HiLoOp, ImmOp, LoadOp, MulOp, Op3, ShiftOp, StopOp, StoreOp};

/// The number of an operation on two registers.
pub fn three_number(op: Op3) -> u32
    ensures value { result ≡ three_number op }
    ensures small { result < 2 ^ 6 }
{
    match op {
        Op3::Sllv => 4,
        Op3::Srlv => 6,
        Op3::Srav => 7,
        Op3::Add => 32,
        Op3::Addu => 33,
        Op3::Sub => 34,
        Op3::Subu => 35,
        Op3::And => 36,
        Op3::Or => 37,
        Op3::Xor => 38,
        Op3::Nor => 39,
        Op3::Slt => 42,
        Op3::Sltu => 43,
    }
}

/// The operation on two registers of this number.
pub fn three_op(number: u32) -> Option<Op3>
    ensures { result ≡ three_op number }
{
    match number {
        4 => Some(Op3::Sllv),
        6 => Some(Op3::Srlv),
        7 => Some(Op3::Srav),
        32 => Some(Op3::Add),
        33 => Some(Op3::Addu),
        34 => Some(Op3::Sub),
        35 => Some(Op3::Subu),
        36 => Some(Op3::And),
        37 => Some(Op3::Or),
        38 => Some(Op3::Xor),
        39 => Some(Op3::Nor),
        42 => Some(Op3::Slt),
        43 => Some(Op3::Sltu),
        _ => None,
    }
}

/// The number of a shift.
pub fn shift_number(op: ShiftOp) -> u32
    ensures value { result ≡ shift_number op }
    ensures small { result < 2 ^ 6 }
{
    match op {
        ShiftOp::Sll => 0,
        ShiftOp::Srl => 2,
        ShiftOp::Sra => 3,
    }
}

/// The shift of this number.
pub fn shift_op(number: u32) -> Option<ShiftOp>
    ensures { result ≡ shift_op number }
{
    match number {
        0 => Some(ShiftOp::Sll),
        2 => Some(ShiftOp::Srl),
        3 => Some(ShiftOp::Sra),
        _ => None,
    }
}

/// The number of a move from or to HI or LO.
pub fn hi_lo_number(op: HiLoOp) -> u32
    ensures value { result ≡ hi_lo_number op }
    ensures small { result < 2 ^ 6 }
{
    match op {
        HiLoOp::Mfhi => 16,
        HiLoOp::Mthi => 17,
        HiLoOp::Mflo => 18,
        HiLoOp::Mtlo => 19,
    }
}

/// The move from or to HI or LO of this number.
pub fn hi_lo_op(number: u32) -> Option<HiLoOp>
    ensures { result ≡ hi_lo_op number }
{
    match number {
        16 => Some(HiLoOp::Mfhi),
        17 => Some(HiLoOp::Mthi),
        18 => Some(HiLoOp::Mflo),
        19 => Some(HiLoOp::Mtlo),
        _ => None,
    }
}

/// The number of a multiplication or division.
pub fn mul_number(op: MulOp) -> u32
    ensures value { result ≡ mul_number op }
    ensures small { result < 2 ^ 6 }
{
    match op {
        MulOp::Mult => 24,
        MulOp::Multu => 25,
        MulOp::Div => 26,
        MulOp::Divu => 27,
    }
}

/// The multiplication or division of this number.
pub fn mul_op(number: u32) -> Option<MulOp>
    ensures { result ≡ mul_op number }
{
    match number {
        24 => Some(MulOp::Mult),
        25 => Some(MulOp::Multu),
        26 => Some(MulOp::Div),
        27 => Some(MulOp::Divu),
        _ => None,
    }
}

/// The number of a system call or breakpoint.
pub fn stop_number(op: StopOp) -> u32
    ensures value { result ≡ stop_number op }
    ensures small { result < 2 ^ 6 }
{
    match op {
        StopOp::Syscall => 12,
        StopOp::Break => 13,
    }
}

/// The system call or breakpoint of this number.
pub fn stop_op(number: u32) -> Option<StopOp>
    ensures { result ≡ stop_op number }
{
    match number {
        12 => Some(StopOp::Syscall),
        13 => Some(StopOp::Break),
        _ => None,
    }
}

/// The number of an operation on an immediate.
pub fn imm_number(op: ImmOp) -> u32
    ensures value { result ≡ imm_number op }
    ensures small { result < 2 ^ 6 }
{
    match op {
        ImmOp::Addi => 8,
        ImmOp::Addiu => 9,
        ImmOp::Slti => 10,
        ImmOp::Sltiu => 11,
        ImmOp::Andi => 12,
        ImmOp::Ori => 13,
        ImmOp::Xori => 14,
    }
}

/// The operation on an immediate of this number.
pub fn imm_op(number: u32) -> Option<ImmOp>
    ensures { result ≡ imm_op number }
{
    match number {
        8 => Some(ImmOp::Addi),
        9 => Some(ImmOp::Addiu),
        10 => Some(ImmOp::Slti),
        11 => Some(ImmOp::Sltiu),
        12 => Some(ImmOp::Andi),
        13 => Some(ImmOp::Ori),
        14 => Some(ImmOp::Xori),
        _ => None,
    }
}

/// The number of a load.
pub fn load_number(op: LoadOp) -> u32
    ensures value { result ≡ load_number op }
    ensures small { result < 2 ^ 6 }
{
    match op {
        LoadOp::Lb => 32,
        LoadOp::Lh => 33,
        LoadOp::Lwl => 34,
        LoadOp::Lw => 35,
        LoadOp::Lbu => 36,
        LoadOp::Lhu => 37,
        LoadOp::Lwr => 38,
    }
}

/// The load of this number.
pub fn load_op(number: u32) -> Option<LoadOp>
    ensures { result ≡ load_op number }
{
    match number {
        32 => Some(LoadOp::Lb),
        33 => Some(LoadOp::Lh),
        34 => Some(LoadOp::Lwl),
        35 => Some(LoadOp::Lw),
        36 => Some(LoadOp::Lbu),
        37 => Some(LoadOp::Lhu),
        38 => Some(LoadOp::Lwr),
        _ => None,
    }
}

/// The number of a store.
pub fn store_number(op: StoreOp) -> u32
    ensures value { result ≡ store_number op }
    ensures small { result < 2 ^ 6 }
{
    match op {
        StoreOp::Sb => 40,
        StoreOp::Sh => 41,
        StoreOp::Swl => 42,
        StoreOp::Sw => 43,
        StoreOp::Swr => 46,
    }
}

/// The store of this number.
pub fn store_op(number: u32) -> Option<StoreOp>
    ensures { result ≡ store_op number }
{
    match number {
        40 => Some(StoreOp::Sb),
        41 => Some(StoreOp::Sh),
        42 => Some(StoreOp::Swl),
        43 => Some(StoreOp::Sw),
        46 => Some(StoreOp::Swr),
        _ => None,
    }
}
