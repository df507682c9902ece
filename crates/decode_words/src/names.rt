//! The names of the operations.

ghost use Rattle.decode_words.specs.Text.{branch_name, hi_lo_name, imm_name, load_name, mul_name, name_of, shift_name, stop_name, store_name, three_name};
ghost use Rattle.std.specs.Prelude.{◌≡◌};

use mips_decode::{BranchOp, HiLoOp, ImmOp, Instr, LoadOp, MulOp, Op3, ShiftOp, StopOp, StoreOp};

/// The name of an operation on two registers.
fn three_name(op: Op3) -> &'static str
    ensures { result.now ≡ three_name op }
{
    match op {
        Op3::Sllv => "sllv",
        Op3::Srlv => "srlv",
        Op3::Srav => "srav",
        Op3::Add => "add",
        Op3::Addu => "addu",
        Op3::Sub => "sub",
        Op3::Subu => "subu",
        Op3::And => "and",
        Op3::Or => "or",
        Op3::Xor => "xor",
        Op3::Nor => "nor",
        Op3::Slt => "slt",
        Op3::Sltu => "sltu",
    }
}

/// The name of a shift.
fn shift_name(op: ShiftOp) -> &'static str
    ensures { result.now ≡ shift_name op }
{
    match op {
        ShiftOp::Sll => "sll",
        ShiftOp::Srl => "srl",
        ShiftOp::Sra => "sra",
    }
}

/// The name of a move from or to HI or LO.
fn hi_lo_name(op: HiLoOp) -> &'static str
    ensures { result.now ≡ hi_lo_name op }
{
    match op {
        HiLoOp::Mfhi => "mfhi",
        HiLoOp::Mthi => "mthi",
        HiLoOp::Mflo => "mflo",
        HiLoOp::Mtlo => "mtlo",
    }
}

/// The name of a multiplication or division.
fn mul_name(op: MulOp) -> &'static str
    ensures { result.now ≡ mul_name op }
{
    match op {
        MulOp::Mult => "mult",
        MulOp::Multu => "multu",
        MulOp::Div => "div",
        MulOp::Divu => "divu",
    }
}

/// The name of an operation on an immediate.
fn imm_name(op: ImmOp) -> &'static str
    ensures { result.now ≡ imm_name op }
{
    match op {
        ImmOp::Addi => "addi",
        ImmOp::Addiu => "addiu",
        ImmOp::Slti => "slti",
        ImmOp::Sltiu => "sltiu",
        ImmOp::Andi => "andi",
        ImmOp::Ori => "ori",
        ImmOp::Xori => "xori",
    }
}

/// The name of a load.
fn load_name(op: LoadOp) -> &'static str
    ensures { result.now ≡ load_name op }
{
    match op {
        LoadOp::Lb => "lb",
        LoadOp::Lh => "lh",
        LoadOp::Lwl => "lwl",
        LoadOp::Lw => "lw",
        LoadOp::Lbu => "lbu",
        LoadOp::Lhu => "lhu",
        LoadOp::Lwr => "lwr",
    }
}

/// The name of a store.
fn store_name(op: StoreOp) -> &'static str
    ensures { result.now ≡ store_name op }
{
    match op {
        StoreOp::Sb => "sb",
        StoreOp::Sh => "sh",
        StoreOp::Swl => "swl",
        StoreOp::Sw => "sw",
        StoreOp::Swr => "swr",
    }
}

/// The name of a branch.
fn branch_name(op: BranchOp) -> &'static str
    ensures { result.now ≡ branch_name op }
{
    match op {
        BranchOp::Beq => "beq",
        BranchOp::Bne => "bne",
        BranchOp::Blez => "blez",
        BranchOp::Bgtz => "bgtz",
        BranchOp::Bltz => "bltz",
        BranchOp::Bgez => "bgez",
        BranchOp::Bltzal => "bltzal",
        BranchOp::Bgezal => "bgezal",
    }
}

/// The name of a system call or breakpoint.
fn stop_name(op: StopOp) -> &'static str
    ensures { result.now ≡ stop_name op }
{
    match op {
        StopOp::Syscall => "syscall",
        StopOp::Break => "break",
    }
}

/// The name of an instruction's operation.
pub fn name_of(instr: &Instr) -> &'static str
    ensures { result.now ≡ name_of instr.now }
{
    match *instr {
        Instr::Three { op, .. } => three_name(op),
        Instr::Shift { op, .. } => shift_name(op),
        Instr::HiLo { op, .. } => hi_lo_name(op),
        Instr::MulDiv { op, .. } => mul_name(op),
        Instr::Imm { op, .. } => imm_name(op),
        Instr::Lui { .. } => "lui",
        Instr::Load { op, .. } => load_name(op),
        Instr::Store { op, .. } => store_name(op),
        Instr::Branch { op, .. } => branch_name(op),
        Instr::Jump { link, .. } => { if link { "jal" } else { "j" } }
        Instr::JumpReg { .. } => "jr",
        Instr::JumpLink { .. } => "jalr",
        Instr::Stop { op, .. } => stop_name(op),
    }
}
