//! Where jumps and branches go.

ghost use Rattle.mips_decode.specs.Arithmetic.{signed};
ghost use Rattle.mips_decode.specs.Transfer.{branch_links, branch_target, call_of, decided, is_taken, jump_target, link_address, linked, link_of, linking_of};
ghost use Rattle.mips_decode.specs.Table.{IsValid};
ghost use Rattle.std.specs.Prelude.{◌≡◌, ◌+◌, ◌<◌, ◌^◌, ◌&&◌, IfNone, IfSome, Option, if◌then◌else◌, is_some, ℕ};

use crate::arithmetic::sign_extended;
use crate::instr::{BranchOp, Instr, Reg};
use crate::step::Regs;

/// Whether a transfer calls, returns to its caller (`jr $31`), or does neither.
#[derive(Clone, Copy, Debug, PartialEq, Eq)]
pub enum LinkKind {
    /// It neither calls nor returns: no link is written, or the branch isn't taken.
    Plain,
    /// It goes to its target with a link behind its delay slot: JAL, JALR, and BLTZAL or BGEZAL where it is taken.
    Call,
    /// It goes to the address in register 31: `jr $31`.
    Return,
}

/// Where a transfer goes, and whether it calls or returns.
#[derive(Clone, Copy, Debug, PartialEq, Eq)]
pub struct Way {
    /// The address of the unit behind the delay slot: the target, or where the branch isn't taken that of the instruction
    /// behind the slot.
    pub next: u32,
    /// Whether it calls or returns.
    pub kind: LinkKind,
}

/// The address behind a transfer's delay slot.
fn link_address(pc: u32) -> u32
    ensures { result ≡ link_address pc }
{
    pc.wrapping_add(8)
}

/// The target of the branch at `pc`: the address of its slot and four times its signed offset.
pub fn branch_target(pc: u32, offset: u16) -> u32
    ensures { result ≡ branch_target pc offset }
{
    pc.wrapping_add(4)
        .wrapping_add(sign_extended(offset).wrapping_mul(4))
}

/// The target of J and JAL at `pc`: four times the index, with the top four bits of the address of the slot.
pub fn jump_target(pc: u32, index: u32) -> u32
    requires slot { pc + 4 < 2 ^ 32 }
    requires index { index < 2 ^ 26 }
    ensures { result ≡ jump_target pc index }
{
    ((pc + 4) >> 28 << 28) + (index << 2)
}

/// Whether a branch is taken, by its registers' numbers.
fn is_taken(op: BranchOp, s: u32, t: u32) -> bool
    ensures { result ≡ is_taken op s t }
{
    match op {
        BranchOp::Beq => s == t,
        BranchOp::Bne => !(s == t),
        BranchOp::Blez => s.cast_signed() <= 0,
        BranchOp::Bgtz => 0 < s.cast_signed(),
        BranchOp::Bltz => s.cast_signed() < 0,
        BranchOp::Bgez => 0 <= s.cast_signed(),
        BranchOp::Bltzal => s.cast_signed() < 0,
        BranchOp::Bgezal => 0 <= s.cast_signed(),
    }
}

/// Whether a branch links, taken or not: BLTZAL and BGEZAL.
pub fn branch_links(op: BranchOp) -> bool
    ensures { result ≡ branch_links op }
{
    match op {
        BranchOp::Bltzal => true,
        BranchOp::Bgezal => true,
        _ => false,
    }
}

/// Writes the link of a transfer that links into register 31.
fn link(links: bool, pc: u32, regs: &mut Regs)
    ensures { regs.new ≡ linked links pc regs.old }
{
    if links {
        regs.set(Reg::low(31), link_address(pc));
    }
}

/// The way of a branch with this target.
fn branch_way(links: bool, taken: bool, pc: u32, target: u32) -> Way
    requires { pc + 8 < 2 ^ 32 }
    ensures next { result.next ≡ (if taken then target else pc + 8) }
    ensures kind { linking_of result.kind pc result.next ≡ call_of (links && taken) pc target }
{
    let next = if taken { target } else { pc + 8 };
    let kind = if links && taken {
        LinkKind::Call
    } else {
        LinkKind::Plain
    };
    Way { next, kind }
}

/// The way of a jump with this target.
fn jump_way(links: bool, target: u32) -> Way
    ensures next { result.next ≡ target }
    ensures kind { (pc : ℕ) → linking_of result.kind pc target ≡ call_of links pc target }
{
    let kind = if links {
        LinkKind::Call
    } else {
        LinkKind::Plain
    };
    Way { next: target, kind }
}

/// What JR of a register does: `jr $31` returns.
fn return_kind(rs: Reg) -> LinkKind
    ensures { (pc next : ℕ) → linking_of result pc next ≡ link_of rs }
{
    if rs.number() == 31 {
        LinkKind::Return
    } else {
        LinkKind::Plain
    }
}

/// Whether an instruction is a jump or a branch, which has a delay slot.
pub fn is_transfer(instr: &Instr) -> bool
    ensures { (pc : ℕ) (regs : Regs) → result ≡ is_some (decided instr.now pc regs) }
{
    match *instr {
        Instr::Branch { .. } => true,
        Instr::Jump { .. } => true,
        Instr::JumpReg { .. } => true,
        Instr::JumpLink { .. } => true,
        _ => false,
    }
}

/// Decides where the transfer at `pc` goes and writes its link, which is the address behind its delay slot; none for an
/// instruction that is no transfer (MIPS RISC Architecture, Kane and Heinrich 1992, appendix A: jumps and branches).
pub fn decide(instr: &Instr, pc: u32, regs: &mut Regs) -> Option<Way>
    requires valid { IsValid instr.now }
    requires slot { pc + 8 < 2 ^ 32 }
    ensures way { IfSome result (λ way. decided instr.now pc regs.old ≡ Some (record {
      next = way.next;
      regs = regs.new;
      link = linking_of way.kind pc way.next;
    })) }
    ensures none { IfNone result (decided instr.now pc regs.old ≡ None) }
    ensures kept { IfNone result (regs.new ≡ regs.old) }
{
    match *instr {
        Instr::Branch { op, rs, rt, offset } => {
            let taken = is_taken(op, regs.get(rs), regs.get(rt));
            let links = branch_links(op);
            link(links, pc, regs);
            Some(branch_way(links, taken, pc, branch_target(pc, offset)))
        }
        Instr::Jump { link: links, index } => {
            link(links, pc, regs);
            Some(jump_way(links, jump_target(pc, index)))
        }
        Instr::JumpReg { rs } => Some(Way {
            next: regs.get(rs),
            kind: return_kind(rs),
        }),
        Instr::JumpLink { rd, rs } => {
            let next = regs.get(rs);
            regs.set(rd, link_address(pc));
            Some(Way {
                next,
                kind: LinkKind::Call,
            })
        }
        _ => None,
    }
}
