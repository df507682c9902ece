//! Values worked by hand, and results compared with those of the machine.

ghost use Rattle.mips_decode.specs.Table.{IsValid};

use crate::Strided;
use domain_laws::{Lattice, Widen};
use mips_decode::{ImmOp, Instr, Op3, Reg, Regs, ShiftOp, apply};
use std::alloc::AllocError;
use std::test::Fail;

const THREES: [Op3; 13] = [
    Op3::Sllv,
    Op3::Srlv,
    Op3::Srav,
    Op3::Add,
    Op3::Addu,
    Op3::Sub,
    Op3::Subu,
    Op3::And,
    Op3::Or,
    Op3::Xor,
    Op3::Nor,
    Op3::Slt,
    Op3::Sltu,
];

const SHIFTS: [ShiftOp; 3] = [ShiftOp::Sll, ShiftOp::Srl, ShiftOp::Sra];

const IMMS: [ImmOp; 7] = [
    ImmOp::Addi,
    ImmOp::Addiu,
    ImmOp::Slti,
    ImmOp::Sltiu,
    ImmOp::Andi,
    ImmOp::Ori,
    ImmOp::Xori,
];

const EDGES: [u32; 8] = [
    0,
    1,
    31,
    0x7fff,
    0x8000,
    0x7fff_ffff,
    0x8000_0000,
    0xffff_ffff,
];

/// What the machine leaves in register 1 after an instruction on registers 2 and 3; none where it traps.
fn left_by(instr: Instr, s: u32, t: u32) -> Option<u32>
    requires { IsValid instr }
{
    let mut regs = Regs {
        general: [0; 32],
        hi: 0,
        lo: 0,
    };
    regs.general[2] = s;
    regs.general[3] = t;
    if apply(&instr, &mut regs) {
        Some(regs.general[1])
    } else {
        None
    }
}

fn three(op: Op3, s: u32, t: u32) -> Option<u32> {
    let (rd, rs, rt) = (Reg::low(1), Reg::low(2), Reg::low(3));
    left_by(Instr::Three { op, rd, rs, rt }, s, t)
}

fn shift(op: ShiftOp, t: u32, by: u8) -> Option<u32> {
    let (rd, rt) = (Reg::low(1), Reg::low(3));
    if by < 32 {
        left_by(Instr::Shift { op, rd, rt, by }, 0, t)
    } else {
        None
    }
}

fn imm(op: ImmOp, s: u32, imm: u16) -> Option<u32> {
    let (rt, rs) = (Reg::low(1), Reg::low(2));
    left_by(Instr::Imm { op, rt, rs, imm }, s, 0)
}

/// Whether a value holds the machine's result, if there is one.
fn holds(value: &Strided, expected: Option<u32>) -> bool {
    match expected {
        Some(number) => value.holds(number),
        None => true,
    }
}

/// Whether a value is the machine's result alone, if there is one.
fn is(value: &Strided, expected: Option<u32>) -> bool {
    match expected {
        Some(number) => *value == Strided::one(number),
        None => true,
    }
}

/// Whether the operations on two numbers alone give the machine's results.
fn are_results(s: u32, t: u32) -> bool {
    let (a, b) = (Strided::one(s), Strided::one(t));
    let low = (t % 0x1_0000) as u16;
    let by = (t % 32) as u8;
    for op in THREES {
        if !is(&Strided::three(op, &a, &b), three(op, s, t)) {
            return false;
        }
    }
    for op in IMMS {
        if !is(&Strided::imm(op, &a, low), imm(op, s, low)) {
            return false;
        }
    }
    for op in SHIFTS {
        if !is(&Strided::shift(op, &a, by), shift(op, s, by)) {
            return false;
        }
    }
    true
}

/// Whether the operations on two values hold the machine's results for two of their numbers.
fn hold_results(a: &Strided, b: &Strided, s: u32, t: u32) -> bool {
    let low = (t % 0x1_0000) as u16;
    let by = (t % 32) as u8;
    for op in THREES {
        if !holds(&Strided::three(op, a, b), three(op, s, t)) {
            return false;
        }
    }
    for op in IMMS {
        if !holds(&Strided::imm(op, a, low), imm(op, s, low)) {
            return false;
        }
    }
    for op in SHIFTS {
        if !holds(&Strided::shift(op, a, by), shift(op, s, by)) {
            return false;
        }
    }
    true
}

#[test]
fn single_numbers_give_the_result_of_the_machine(rt: HostRuntime) {
    for s in EDGES {
        for t in EDGES {
            assert!(rt; are_results(s, t));
        }
    }
}

/// The next number of a row of random ones (Press, Teukolsky, Vetterling and Flannery 1992, 7.1).
fn next(seed: u32) -> u32 {
    seed.wrapping_mul(1_664_525).wrapping_add(1_013_904_223)
}

#[test]
fn results_of_held_numbers_are_held(rt: HostRuntime) {
    // Eleven numbers by a step of 16.
    let row = Strided::shift(ShiftOp::Sll, &Strided::between(0, 10), 4);
    let pair = Strided::between(0, 1);
    let mut seed = 1;
    for _round in 0..500 {
        let x = next(seed);
        let y = next(x);
        seed = y;
        let a = Strided::three(Op3::Addu, &Strided::one(x), &row);
        let b = Strided::three(Op3::Addu, &Strided::one(y), &pair);
        let (s, t) = (x.wrapping_add(16 * (y % 11)), y.wrapping_add(x % 2));
        assert!(rt; a.holds(s) && b.holds(t) && hold_results(&a, &b, s, t));
    }
}

/// The ends and the step.
fn parts(value: &Strided) -> (u32, u32, u32) {
    (value.lo(), value.hi(), value.step())
}

#[test]
fn ends_and_steps_worked_by_hand(rt: HostRuntime) {
    let zero = Strided::one(0);
    let pair = Strided::between(1, 3);
    let fours = Strided::shift(ShiftOp::Sll, &Strided::between(0, 2), 2);
    let top = Strided::three(Op3::Addu, &Strided::one(0xffff_fff0), &fours);
    let rows = [
        (Op3::Addu, fours, pair, (1, 11, 1)),
        (Op3::Addu, fours, fours, (0, 16, 4)),
        (Op3::Addu, top, Strided::one(0x20), (0x10, 0x18, 4)),
        (Op3::Addu, top, Strided::one(0xc), (0, 0xffff_ffff, 1)),
        (Op3::Subu, zero, pair, (0xffff_fffd, 0xffff_ffff, 1)),
        (Op3::Subu, fours, fours, (0, 0xffff_ffff, 1)),
        (Op3::Nor, fours, zero, (0xffff_fff7, 0xffff_ffff, 1)),
        (Op3::And, Strided::all(), Strided::one(0xff), (0, 0xff, 1)),
        (Op3::Or, fours, Strided::one(3), (3, 11, 1)),
        (Op3::Slt, top, zero, (1, 1, 0)),
        (Op3::Sltu, top, Strided::one(5), (0, 0, 0)),
        (Op3::Sltu, fours, Strided::one(5), (0, 1, 1)),
        (Op3::Sllv, Strided::one(2), pair, (4, 12, 4)),
        (Op3::Srlv, Strided::one(2), fours, (0, 2, 1)),
        (Op3::Srlv, Strided::one(3), fours, (0, 1, 1)),
        (
            Op3::Srav,
            Strided::one(2),
            top,
            (0xffff_fffc, 0xffff_fffe, 1),
        ),
    ];
    for (op, a, b, ends) in rows {
        assert_eq!(rt; parts(&Strided::three(op, &a, &b)), ends);
    }
}

/// The join of copies of two values, and whether the first one grew.
fn joined(first: &Strided, second: &Strided) -> Result<(Strided, bool), AllocError> {
    let _shape = (first.step(), second.step());
    let mut value = first.copy()?;
    let grew = value.join(second)?;
    Ok((value, grew))
}

/// The first value widened by the second, and whether it grew.
fn widened(first: &Strided, second: &Strided) -> Result<(Strided, bool), AllocError> {
    let _shape = (first.step(), second.step());
    let mut value = first.copy()?;
    let grew = value.widen(second)?;
    Ok((value, grew))
}

#[test]
fn joins_and_widening_worked_by_hand(rt: HostRuntime) -> Result<(), Fail> {
    let (far, grew) = joined(&Strided::one(4), &Strided::one(12))?;
    assert_eq!(rt; (parts(&far), grew), ((4, 12, 8), true));
    let (near, _) = joined(&far, &Strided::one(8))?;
    assert_eq!(rt; parts(&near), (4, 12, 4));
    let (up, _) = widened(&near, &Strided::one(16))?;
    assert_eq!(rt; parts(&up), (4, 0xffff_fffc, 4));
    let (down, grew) = widened(&up, &Strided::one(2))?;
    assert_eq!(rt; (parts(&down), grew), ((0, 0xffff_fffc, 2), true));
    Ok(())
}
