//! The instructions of MIPS I and their registers.

ghost use Rattle.std.specs.Prelude.{◌≡◌, ℕ, ◌<◌, ◌≤◌, ◌%◌, ◌^◌, IsSome, IfSome, IsTrue, ◌↔◌};

use std::marker::Model;

/// A register's number, 0 to 31.
#[derive(Clone, Copy, Debug, PartialEq, Eq)]
pub struct Reg {
    number: u32,
}

impl Model for Reg {
    ghost Value = { ℕ };

    ghost view = { λ r. r.number };

    ghost invariant = { λ r. r.number < 32 };

    ghost inverse = { λ n. record { number = n } };
}

impl Reg {
    /// The register of this number; none from 32 on.
    pub fn new(n: u32) -> Option<Reg>
        ensures found { IsSome result ↔ (n < 32) }
        ensures value { IfSome result (λ r. r ≡ n) }
    {
        if n < 32 {
            Some(Reg { number: n })
        } else {
            None
        }
    }

    /// The register whose number is in the low five bits.
    pub fn low(bits: u32) -> Reg
        ensures { result ≡ bits % 2 ^ 5 }
    {
        Reg {
            number: bits & 0x1f,
        }
    }

    /// Whether the number is below 32, as the type keeps it.
    pub fn in_range(&self) -> bool
        ensures { IsTrue result ↔ (self.now < 32) }
    {
        self.number < 32
    }

    /// The register's number.
    pub fn number(&self) -> u32
        ensures value { result ≡ self.now }
        ensures small { result < 32 }
    {
        self.number
    }
}

/// Operations on two registers.
#[derive(Clone, Copy, Debug, PartialEq, Eq)]
pub enum Op3 {
    Sllv,
    Srlv,
    Srav,
    Add,
    Addu,
    Sub,
    Subu,
    And,
    Or,
    Xor,
    Nor,
    Slt,
    Sltu,
}

/// Shifts by a fixed number of bits.
#[derive(Clone, Copy, Debug, PartialEq, Eq)]
pub enum ShiftOp {
    Sll,
    Srl,
    Sra,
}

/// Moves from and to HI and LO.
#[derive(Clone, Copy, Debug, PartialEq, Eq)]
pub enum HiLoOp {
    Mfhi,
    Mthi,
    Mflo,
    Mtlo,
}

/// Multiplication and division into HI and LO.
#[derive(Clone, Copy, Debug, PartialEq, Eq)]
pub enum MulOp {
    Mult,
    Multu,
    Div,
    Divu,
}

/// Operations on a register and an immediate.
#[derive(Clone, Copy, Debug, PartialEq, Eq)]
pub enum ImmOp {
    Addi,
    Addiu,
    Slti,
    Sltiu,
    Andi,
    Ori,
    Xori,
}

/// Loads. LWL and LWR load a part of the aligned word that holds their address.
#[derive(Clone, Copy, Debug, PartialEq, Eq)]
pub enum LoadOp {
    Lb,
    Lh,
    Lwl,
    Lw,
    Lbu,
    Lhu,
    Lwr,
}

/// Stores. SWL and SWR store a part of a register into the aligned word that holds their
/// address.
#[derive(Clone, Copy, Debug, PartialEq, Eq)]
pub enum StoreOp {
    Sb,
    Sh,
    Swl,
    Sw,
    Swr,
}

/// Branches. BLTZAL and BGEZAL also link, whether they are taken or not.
#[derive(Clone, Copy, Debug, PartialEq, Eq)]
pub enum BranchOp {
    Beq,
    Bne,
    Blez,
    Bgtz,
    Bltz,
    Bgez,
    Bltzal,
    Bgezal,
}

/// System call and breakpoint.
#[derive(Clone, Copy, Debug, PartialEq, Eq)]
pub enum StopOp {
    Syscall,
    Break,
}

/// One instruction with its fields. In a branch that compares with zero, `rt` is register 0.
#[derive(Clone, Copy, Debug, PartialEq, Eq)]
pub enum Instr {
    Three {
        op: Op3,
        rd: Reg,
        rs: Reg,
        rt: Reg,
    },
    Shift {
        op: ShiftOp,
        rd: Reg,
        rt: Reg,
        by: u8,
    },
    HiLo {
        op: HiLoOp,
        reg: Reg,
    },
    MulDiv {
        op: MulOp,
        rs: Reg,
        rt: Reg,
    },
    Imm {
        op: ImmOp,
        rt: Reg,
        rs: Reg,
        imm: u16,
    },
    Lui {
        rt: Reg,
        imm: u16,
    },
    Load {
        op: LoadOp,
        rt: Reg,
        base: Reg,
        offset: u16,
    },
    Store {
        op: StoreOp,
        rt: Reg,
        base: Reg,
        offset: u16,
    },
    Branch {
        op: BranchOp,
        rs: Reg,
        rt: Reg,
        offset: u16,
    },
    Jump {
        link: bool,
        index: u32,
    },
    JumpReg {
        rs: Reg,
    },
    JumpLink {
        rd: Reg,
        rs: Reg,
    },
    Stop {
        op: StopOp,
        code: u32,
    },
}
