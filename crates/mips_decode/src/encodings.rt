//! Tests of the encodings, from the formats of the MIPS I manual.

use crate::{
    BranchOp, HiLoOp, ImmOp, Instr, LoadOp, MulOp, Op3, Reg, ShiftOp, StopOp, StoreOp, decode,
    encode,
};

// The words have rs 1, rt 2, rd 3, sa 4 and the immediate 0xfff0, where they have these fields.

/// A register by its number.
fn r(n: u32) -> Reg {
    Reg::low(n)
}

#[test]
fn operations_on_registers_are_decoded(rt: HostRuntime) {
    let rows = [
        (0x0022_1804, Op3::Sllv),
        (0x0022_1806, Op3::Srlv),
        (0x0022_1807, Op3::Srav),
        (0x0022_1820, Op3::Add),
        (0x0022_1821, Op3::Addu),
        (0x0022_1822, Op3::Sub),
        (0x0022_1823, Op3::Subu),
        (0x0022_1824, Op3::And),
        (0x0022_1825, Op3::Or),
        (0x0022_1826, Op3::Xor),
        (0x0022_1827, Op3::Nor),
        (0x0022_182a, Op3::Slt),
        (0x0022_182b, Op3::Sltu),
    ];
    for (word, op) in rows {
        let instr = Instr::Three {
            op,
            rd: r(3),
            rs: r(1),
            rt: r(2),
        };
        assert_eq!(rt; decode(word), Some(instr), "at {word:08x}");
    }
}

#[test]
fn shifts_are_decoded(rt: HostRuntime) {
    let rows = [
        (0x0002_1900, ShiftOp::Sll),
        (0x0002_1902, ShiftOp::Srl),
        (0x0002_1903, ShiftOp::Sra),
    ];
    for (word, op) in rows {
        let instr = Instr::Shift {
            op,
            rd: r(3),
            rt: r(2),
            by: 4,
        };
        assert_eq!(rt; decode(word), Some(instr), "at {word:08x}");
    }
}

#[test]
fn products_are_decoded(rt: HostRuntime) {
    let rows = [
        (0x0022_0018, MulOp::Mult),
        (0x0022_0019, MulOp::Multu),
        (0x0022_001a, MulOp::Div),
        (0x0022_001b, MulOp::Divu),
    ];
    for (word, op) in rows {
        let instr = Instr::MulDiv {
            op,
            rs: r(1),
            rt: r(2),
        };
        assert_eq!(rt; decode(word), Some(instr), "at {word:08x}");
    }
}

#[test]
fn operations_on_immediates_are_decoded(rt: HostRuntime) {
    let rows = [
        (0x2022_fff0, ImmOp::Addi),
        (0x2422_fff0, ImmOp::Addiu),
        (0x2822_fff0, ImmOp::Slti),
        (0x2c22_fff0, ImmOp::Sltiu),
        (0x3022_fff0, ImmOp::Andi),
        (0x3422_fff0, ImmOp::Ori),
        (0x3822_fff0, ImmOp::Xori),
    ];
    for (word, op) in rows {
        let instr = Instr::Imm {
            op,
            rt: r(2),
            rs: r(1),
            imm: 0xfff0,
        };
        assert_eq!(rt; decode(word), Some(instr), "at {word:08x}");
    }
}

#[test]
fn loads_are_decoded(rt: HostRuntime) {
    let rows = [
        (0x8022_fff0, LoadOp::Lb),
        (0x8422_fff0, LoadOp::Lh),
        (0x8822_fff0, LoadOp::Lwl),
        (0x8c22_fff0, LoadOp::Lw),
        (0x9022_fff0, LoadOp::Lbu),
        (0x9422_fff0, LoadOp::Lhu),
        (0x9822_fff0, LoadOp::Lwr),
    ];
    for (word, op) in rows {
        let instr = Instr::Load {
            op,
            rt: r(2),
            base: r(1),
            offset: 0xfff0,
        };
        assert_eq!(rt; decode(word), Some(instr), "at {word:08x}");
    }
}

#[test]
fn stores_are_decoded(rt: HostRuntime) {
    let rows = [
        (0xa022_fff0, StoreOp::Sb),
        (0xa422_fff0, StoreOp::Sh),
        (0xa822_fff0, StoreOp::Swl),
        (0xac22_fff0, StoreOp::Sw),
        (0xb822_fff0, StoreOp::Swr),
    ];
    for (word, op) in rows {
        let instr = Instr::Store {
            op,
            rt: r(2),
            base: r(1),
            offset: 0xfff0,
        };
        assert_eq!(rt; decode(word), Some(instr), "at {word:08x}");
    }
}

#[test]
fn branches_on_two_registers_are_decoded(rt: HostRuntime) {
    let rows = [(0x1022_fff0, BranchOp::Beq), (0x1422_fff0, BranchOp::Bne)];
    for (word, op) in rows {
        let instr = Instr::Branch {
            op,
            rs: r(1),
            rt: r(2),
            offset: 0xfff0,
        };
        assert_eq!(rt; decode(word), Some(instr), "at {word:08x}");
    }
}

#[test]
fn branches_on_zero_are_decoded(rt: HostRuntime) {
    let rows = [
        (0x1820_fff0, BranchOp::Blez),
        (0x1c20_fff0, BranchOp::Bgtz),
        (0x0420_fff0, BranchOp::Bltz),
        (0x0421_fff0, BranchOp::Bgez),
        (0x0430_fff0, BranchOp::Bltzal),
        (0x0431_fff0, BranchOp::Bgezal),
    ];
    for (word, op) in rows {
        let instr = Instr::Branch {
            op,
            rs: r(1),
            rt: r(0),
            offset: 0xfff0,
        };
        assert_eq!(rt; decode(word), Some(instr), "at {word:08x}");
    }
}

#[test]
fn other_operations_are_decoded(rt: HostRuntime) {
    let rows = [
        // lui $2, 0xfff0
        (
            0x3c02_fff0,
            Instr::Lui {
                rt: r(2),
                imm: 0xfff0,
            },
        ),
        // j, with the index 0x1234567
        (
            0x0923_4567,
            Instr::Jump {
                link: false,
                index: 0x123_4567,
            },
        ),
        // jal, with the index 0x1234567
        (
            0x0d23_4567,
            Instr::Jump {
                link: true,
                index: 0x123_4567,
            },
        ),
        // jr $1
        (0x0020_0008, Instr::JumpReg { rs: r(1) }),
        // jalr $3, $1
        (0x0020_1809, Instr::JumpLink { rd: r(3), rs: r(1) }),
        // syscall, with the code 0x12345
        (
            0x0048_d14c,
            Instr::Stop {
                op: StopOp::Syscall,
                code: 0x1_2345,
            },
        ),
        // break, with the code 0x54321
        (
            0x0150_c84d,
            Instr::Stop {
                op: StopOp::Break,
                code: 0x5_4321,
            },
        ),
        // mfhi $3
        (
            0x0000_1810,
            Instr::HiLo {
                op: HiLoOp::Mfhi,
                reg: r(3),
            },
        ),
        // mflo $3
        (
            0x0000_1812,
            Instr::HiLo {
                op: HiLoOp::Mflo,
                reg: r(3),
            },
        ),
        // mthi $1
        (
            0x0020_0011,
            Instr::HiLo {
                op: HiLoOp::Mthi,
                reg: r(1),
            },
        ),
        // mtlo $1
        (
            0x0020_0013,
            Instr::HiLo {
                op: HiLoOp::Mtlo,
                reg: r(1),
            },
        ),
    ];
    for (word, instr) in rows {
        assert_eq!(rt; decode(word), Some(instr), "at {word:08x}");
        assert!(rt; instr.valid());
        assert_eq!(rt; encode(&instr), word);
    }
}

#[test]
fn bits_in_empty_fields_are_refused(rt: HostRuntime) {
    // Each word with the bits of its empty fields.
    let rows = [
        (0x0022_1804, 0x0000_07c0),
        (0x0022_1806, 0x0000_07c0),
        (0x0022_1807, 0x0000_07c0),
        (0x0022_1820, 0x0000_07c0),
        (0x0022_1821, 0x0000_07c0),
        (0x0022_1822, 0x0000_07c0),
        (0x0022_1823, 0x0000_07c0),
        (0x0022_1824, 0x0000_07c0),
        (0x0022_1825, 0x0000_07c0),
        (0x0022_1826, 0x0000_07c0),
        (0x0022_1827, 0x0000_07c0),
        (0x0022_182a, 0x0000_07c0),
        (0x0022_182b, 0x0000_07c0),
        (0x0002_1900, 0x03e0_0000),
        (0x0002_1902, 0x03e0_0000),
        (0x0002_1903, 0x03e0_0000),
        (0x0000_1810, 0x03ff_07c0),
        (0x0000_1812, 0x03ff_07c0),
        (0x0020_0011, 0x001f_ffc0),
        (0x0020_0013, 0x001f_ffc0),
        (0x0022_0018, 0x0000_ffc0),
        (0x0022_0019, 0x0000_ffc0),
        (0x0022_001a, 0x0000_ffc0),
        (0x0022_001b, 0x0000_ffc0),
        (0x0020_0008, 0x001f_ffc0),
        (0x0020_1809, 0x001f_07c0),
        (0x1820_fff0, 0x001f_0000),
        (0x1c20_fff0, 0x001f_0000),
        (0x3c02_fff0, 0x03e0_0000),
    ];
    for (word, empty) in rows {
        for at in 0..32u32 {
            let bit = 1u32 << at;
            let found = decode(word | bit);
            assert!(rt; empty & bit == 0 || found.is_none(), "at {word:08x}");
        }
    }
}

#[test]
fn numbers_without_an_operation_are_refused(rt: HostRuntime) {
    // For each number of six bits a bit that says whether an operation has it: as op, as fn
    // where op is 0, and as rt where op is 1.
    let ops: u64 = 0x00004f7f0000ffff;
    let functions: u64 = 0x00000cff0f0f33dd;
    let signs: u64 = 0x0000000000030003;
    for n in 0..64u32 {
        assert_eq!(rt; decode(n << 26).is_some(), ops >> n & 1 == 1, "op {n}");
        assert_eq!(rt; decode(n).is_some(), functions >> n & 1 == 1, "fn {n}");
        let sign = decode(1 << 26 | (n & 31) << 16);
        assert_eq!(rt; sign.is_some(), signs >> (n & 31) & 1 == 1, "rt {n}");
    }
}
