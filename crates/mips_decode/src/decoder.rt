//! From a word to its instruction.

ghost use Rattle.mips_decode.specs.Decoded.{decoded};
ghost use Rattle.mips_decode.specs.Decoder.{by_fields, by_op, equal_branch, hi_lo, immediate, jump_link, jump_reg, load, move_from, move_to, mul_div, register_jump, shift, sign_branch, sign_branches, special, stop, store, three, upper, zero_branch};
ghost use Rattle.mips_decode.specs.Table.{IsRow, IsValid, word_of};
ghost use Rattle.mips_decode.specs.declared.instr.Instr.{Instr};
ghost use Rattle.std.specs.Prelude.{◌≡◌, ◌==◌, IfSome, Option};

use crate::fields::{Fields, fields_of};
use crate::instr::{
    BranchOp, HiLoOp, ImmOp, Instr, LoadOp, MulOp, Op3, Reg, ShiftOp, StopOp, StoreOp,
};
use crate::numbers::{hi_lo_op, imm_op, load_op, mul_op, shift_op, stop_op, store_op, three_op};

/// Whether a register is register 0.
fn is_zero(reg: Reg) -> bool
    ensures { result ≡ (reg == 0) }
{
    reg.number() == 0
}

fn three(fields: &Fields, op: Op3) -> Option<Instr>
    ensures { result ≡ three fields.now op }
{
    let instr = Instr::Three {
        op,
        rd: fields.rd,
        rs: fields.rs,
        rt: fields.rt,
    };
    (fields.sa == 0).then_some(instr)
}

fn shift(fields: &Fields, op: ShiftOp) -> Option<Instr>
    ensures { result ≡ shift fields.now op }
{
    let instr = Instr::Shift {
        op,
        rd: fields.rd,
        rt: fields.rt,
        by: fields.sa,
    };
    is_zero(fields.rs).then_some(instr)
}

fn move_from(fields: &Fields, op: HiLoOp) -> Option<Instr>
    ensures { result ≡ move_from fields.now op }
{
    let instr = Instr::HiLo { op, reg: fields.rd };
    (is_zero(fields.rs) && is_zero(fields.rt) && fields.sa == 0).then_some(instr)
}

fn move_to(fields: &Fields, op: HiLoOp) -> Option<Instr>
    ensures { result ≡ move_to fields.now op }
{
    let instr = Instr::HiLo { op, reg: fields.rs };
    (is_zero(fields.rt) && is_zero(fields.rd) && fields.sa == 0).then_some(instr)
}

fn hi_lo(fields: &Fields, op: HiLoOp) -> Option<Instr>
    ensures { result ≡ hi_lo fields.now op }
{
    match op {
        HiLoOp::Mfhi => move_from(fields, op),
        HiLoOp::Mthi => move_to(fields, op),
        HiLoOp::Mflo => move_from(fields, op),
        HiLoOp::Mtlo => move_to(fields, op),
    }
}

fn mul_div(fields: &Fields, op: MulOp) -> Option<Instr>
    ensures { result ≡ mul_div fields.now op }
{
    let instr = Instr::MulDiv {
        op,
        rs: fields.rs,
        rt: fields.rt,
    };
    (is_zero(fields.rd) && fields.sa == 0).then_some(instr)
}

fn stop(fields: &Fields, op: StopOp) -> Option<Instr>
    ensures { result ≡ stop fields.now op }
{
    Some(Instr::Stop {
        op,
        code: fields.code,
    })
}

fn jump_reg(fields: &Fields) -> Option<Instr>
    ensures { result ≡ jump_reg fields.now }
{
    let instr = Instr::JumpReg { rs: fields.rs };
    (is_zero(fields.rt) && is_zero(fields.rd) && fields.sa == 0).then_some(instr)
}

fn jump_link(fields: &Fields) -> Option<Instr>
    ensures { result ≡ jump_link fields.now }
{
    let instr = Instr::JumpLink {
        rd: fields.rd,
        rs: fields.rs,
    };
    (is_zero(fields.rt) && fields.sa == 0).then_some(instr)
}

/// The jumps whose op is 0.
fn register_jump(fields: &Fields) -> Option<Instr>
    ensures { result ≡ register_jump fields.now }
{
    match fields.function {
        8 => jump_reg(fields),
        9 => jump_link(fields),
        _ => None,
    }
}

/// The instruction of a word whose op is 0.
fn special(fields: &Fields) -> Option<Instr>
    ensures { result ≡ special fields.now }
{
    if let Some(op) = three_op(fields.function) {
        return three(fields, op);
    }
    if let Some(op) = shift_op(fields.function) {
        return shift(fields, op);
    }
    if let Some(op) = hi_lo_op(fields.function) {
        return hi_lo(fields, op);
    }
    if let Some(op) = mul_op(fields.function) {
        return mul_div(fields, op);
    }
    if let Some(op) = stop_op(fields.function) {
        return stop(fields, op);
    }
    register_jump(fields)
}

fn upper(fields: &Fields) -> Option<Instr>
    ensures { result ≡ upper fields.now }
{
    let instr = Instr::Lui {
        rt: fields.rt,
        imm: fields.imm,
    };
    is_zero(fields.rs).then_some(instr)
}

fn immediate(fields: &Fields, op: ImmOp) -> Option<Instr>
    ensures { result ≡ immediate fields.now op }
{
    Some(Instr::Imm {
        op,
        rt: fields.rt,
        rs: fields.rs,
        imm: fields.imm,
    })
}

fn load(fields: &Fields, op: LoadOp) -> Option<Instr>
    ensures { result ≡ load fields.now op }
{
    Some(Instr::Load {
        op,
        rt: fields.rt,
        base: fields.rs,
        offset: fields.imm,
    })
}

fn store(fields: &Fields, op: StoreOp) -> Option<Instr>
    ensures { result ≡ store fields.now op }
{
    Some(Instr::Store {
        op,
        rt: fields.rt,
        base: fields.rs,
        offset: fields.imm,
    })
}

fn sign_branch(fields: &Fields, op: BranchOp) -> Option<Instr>
    ensures { result ≡ sign_branch fields.now op }
{
    Some(Instr::Branch {
        op,
        rs: fields.rs,
        rt: Reg::low(0),
        offset: fields.imm,
    })
}

/// The branches whose op is 1.
fn sign_branches(fields: &Fields) -> Option<Instr>
    ensures { result ≡ sign_branches fields.now }
{
    match fields.rt.number() {
        0 => sign_branch(fields, BranchOp::Bltz),
        1 => sign_branch(fields, BranchOp::Bgez),
        16 => sign_branch(fields, BranchOp::Bltzal),
        17 => sign_branch(fields, BranchOp::Bgezal),
        _ => None,
    }
}

fn equal_branch(fields: &Fields, op: BranchOp) -> Option<Instr>
    ensures { result ≡ equal_branch fields.now op }
{
    Some(Instr::Branch {
        op,
        rs: fields.rs,
        rt: fields.rt,
        offset: fields.imm,
    })
}

fn zero_branch(fields: &Fields, op: BranchOp) -> Option<Instr>
    ensures { result ≡ zero_branch fields.now op }
{
    let instr = Instr::Branch {
        op,
        rs: fields.rs,
        rt: fields.rt,
        offset: fields.imm,
    };
    is_zero(fields.rt).then_some(instr)
}

/// What isn't a load, a store or an operation on an immediate.
fn by_op(fields: &Fields) -> Option<Instr>
    ensures { result ≡ by_op fields.now }
{
    match fields.op {
        0 => special(fields),
        1 => sign_branches(fields),
        2 => Some(Instr::Jump {
            link: false,
            index: fields.index,
        }),
        3 => Some(Instr::Jump {
            link: true,
            index: fields.index,
        }),
        4 => equal_branch(fields, BranchOp::Beq),
        5 => equal_branch(fields, BranchOp::Bne),
        6 => zero_branch(fields, BranchOp::Blez),
        7 => zero_branch(fields, BranchOp::Bgtz),
        15 => upper(fields),
        _ => None,
    }
}

fn by_fields(fields: &Fields) -> Option<Instr>
    ensures { result ≡ by_fields fields.now }
{
    if let Some(op) = imm_op(fields.op) {
        return immediate(fields, op);
    }
    if let Some(op) = load_op(fields.op) {
        return load(fields, op);
    }
    if let Some(op) = store_op(fields.op) {
        return store(fields, op);
    }
    by_op(fields)
}

/// The instruction that the table has for a word; none where it has no row, and so also where a field that its operation
/// doesn't have isn't 0 (MIPS RISC Architecture, Kane and Heinrich 1992, appendix A).
pub fn decode(word: u32) -> Option<Instr>
    ensures exact { result ≡ decoded word }
    ensures found { IfSome result (IsRow word) }
    ensures only { (i : Instr) → IsValid i → word_of i ≡ word → result ≡ Some i }
{
    by_fields(&fields_of(word))
}
