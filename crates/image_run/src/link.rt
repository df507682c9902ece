//! Whether a unit calls or returns, told before it is done.

ghost use Rattle.std.specs.Prelude.{◌≡◌};
ghost use Rattle.image_run.specs.Links.{IsLow, branch_link, call_if, kind_by, link_in, return_link};

use mips_decode::{BranchOp, Instr, LinkKind, Reg};
use mips_machine::Machine;

/// What an instruction does to the open calls, as far as it is known before it is done.
#[derive(Clone, Copy, Debug, PartialEq, Eq)]
pub enum Link {
    /// It neither calls nor returns.
    Plain,
    Call,
    /// `jr $31`.
    Return,
    /// BLTZAL: it calls if the register of this number is negative.
    IfNegative(u32),
    /// BGEZAL: it calls unless the register of this number is negative.
    UnlessNegative(u32),
}

/// What a branch of this register does; just BLTZAL and BGEZAL call.
fn branch_link(op: BranchOp, register: u32) -> Link
    ensures { result ≡ branch_link op register }
{
    match op {
        BranchOp::Bltzal => Link::IfNegative(register),
        BranchOp::Bgezal => Link::UnlessNegative(register),
        _ => Link::Plain,
    }
}

/// What JR of a register does.
fn return_link(register: u32) -> Link
    ensures { result ≡ return_link register }
{
    if register == 31 {
        Link::Return
    } else {
        Link::Plain
    }
}

/// What an instruction does.
pub fn link_of(instr: &Instr) -> Link
    ensures { result ≡ link_in instr.now }
{
    match *instr {
        Instr::Branch { op, rs, .. } => branch_link(op, rs.number()),
        Instr::Jump { link: true, .. } => Link::Call,
        Instr::JumpReg { rs } => return_link(rs.number()),
        Instr::JumpLink { .. } => Link::Call,
        _ => Link::Plain,
    }
}

/// A call, if it takes place.
fn call_if(calls: bool) -> LinkKind
    ensures { result ≡ call_if calls }
{
    if calls {
        LinkKind::Call
    } else {
        LinkKind::Plain
    }
}

impl Link {
    /// Whether the unit at the machine's program counter calls or returns.
    pub fn kind(&self, machine: &Machine) -> LinkKind
        requires { IsLow self.now }
        ensures { result ≡ kind_by self.now machine.now.values.regs }
    {
        match *self {
            Link::Plain => LinkKind::Plain,
            Link::Call => LinkKind::Call,
            Link::Return => LinkKind::Return,
            Link::IfNegative(register) => {
                call_if(machine.reg(Reg::low(register)).cast_signed() < 0)
            }
            Link::UnlessNegative(register) => {
                call_if(0 <= machine.reg(Reg::low(register)).cast_signed())
            }
        }
    }
}
