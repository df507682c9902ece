//! Tests of the operations' edges, from the rules of the MIPS I manual.

use crate::{
    BranchOp, CostClass, LinkKind, LoadOp, Reg, Regs, StoreOp, Touched, address_of, apply,
    branch_links, branch_target, cost_class, decide, decode, jump_target, load_touched, load_value,
    number_at, put_number, reads, store_touched, store_value, writes,
};

/// A register by its number.
fn r(n: u32) -> Reg {
    Reg::low(n)
}

#[test]
fn parts_of_words_are_merged(rt: HostRuntime) {
    // By the place of the address in its word, for a word or register of 01 02 03 04 that is put
    // over a0 b0 c0 d0.
    let rows = [
        (0, 0x0102_0304, 0xa0b0_c001, 0x0102_0304, 0x04b0_c0d0),
        (1, 0x0203_04d0, 0xa0b0_0102, 0xa001_0203, 0x0304_c0d0),
        (2, 0x0304_c0d0, 0xa001_0203, 0xa0b0_0102, 0x0203_04d0),
        (3, 0x04b0_c0d0, 0x0102_0304, 0xa0b0_c001, 0x0102_0304),
    ];
    let (old, new) = (0xa0b0_c0d0, 0x0102_0304);
    for (place, lwl, lwr, swl, swr) in rows {
        assert!(rt; place < 4);
        assert_eq!(rt;
            load_value(LoadOp::Lwl, place, old, new),
            lwl,
            "lwl {place}"
        );
        assert_eq!(rt;
            load_value(LoadOp::Lwr, place, old, new),
            lwr,
            "lwr {place}"
        );
        assert_eq!(rt;
            store_value(StoreOp::Swl, place, old, new),
            swl,
            "swl {place}"
        );
        assert_eq!(rt;
            store_value(StoreOp::Swr, place, old, new),
            swr,
            "swr {place}"
        );
    }
}

#[test]
fn numbers_move_between_registers_and_bytes(rt: HostRuntime) {
    let mut bytes = [0x80, 0x01, 0xff, 0x7f, 0x00, 0x00, 0x00, 0x00];
    assert_eq!(rt; number_at(&bytes, 4, 0), 0x8001_ff7f);
    assert_eq!(rt;
        load_value(LoadOp::Lb, 0, 0, number_at(&bytes, 1, 0)),
        0xffff_ff80
    );
    assert_eq!(rt;
        load_value(LoadOp::Lbu, 0, 0, number_at(&bytes, 1, 0)),
        0x80
    );
    assert_eq!(rt;
        load_value(LoadOp::Lh, 0, 0, number_at(&bytes, 2, 0)),
        0xffff_8001
    );
    assert_eq!(rt;
        load_value(LoadOp::Lhu, 0, 0, number_at(&bytes, 2, 0)),
        0x8001
    );
    put_number(
        &mut bytes,
        store_value(StoreOp::Sh, 0, 0, 0x1234_5678),
        2,
        5,
    );
    assert_eq!(rt; bytes, [0x80, 0x01, 0xff, 0x7f, 0x00, 0x56, 0x78, 0x00]);
    let mut regs = Regs {
        general: [0; 32],
        hi: 0,
        lo: 0,
    };
    regs.set(r(29), 0x7fff_fffe);
    let address = address_of(&regs, r(29), 0xffff);
    let whole = Touched {
        address: 0x7fff_fffc,
        size: 4,
        store: true,
    };
    assert_eq!(rt; store_touched(StoreOp::Swr, address), whole);
    assert_eq!(rt; load_touched(LoadOp::Lb, address).address, 0x7fff_fffd);
}

/// The registers after the word's instruction at `$1` and `$2`, with `$3` = HI = LO = 7 before.
fn after(word: u32, s: u32, t: u32) -> Option<Regs> {
    let instr = decode(word)?;
    let mut regs = Regs {
        general: [0; 32],
        hi: 7,
        lo: 7,
    };
    regs.set(r(1), s);
    regs.set(r(2), t);
    regs.set(r(3), 7);
    apply(&instr, &mut regs).then_some(regs)
}

#[test]
fn results_wrap_or_trap(rt: HostRuntime) {
    let rows = [
        // add
        (0x0022_1820, 0x7fff_ffff, 0x0000_0001, None),
        // add
        (0x0022_1820, 0x7fff_ffff, 0x0000_0000, Some(0x7fff_ffff)),
        // add
        (0x0022_1820, 0x8000_0000, 0xffff_ffff, None),
        // add
        (0x0022_1820, 0xffff_ffff, 0x0000_0001, Some(0x0000_0000)),
        // sub
        (0x0022_1822, 0x8000_0000, 0x0000_0001, None),
        // sub
        (0x0022_1822, 0x0000_0000, 0x8000_0000, None),
        // sub
        (0x0022_1822, 0xffff_ffff, 0x8000_0000, Some(0x7fff_ffff)),
        // addu
        (0x0022_1821, 0xffff_ffff, 0x0000_0002, Some(0x0000_0001)),
        // subu
        (0x0022_1823, 0x0000_0000, 0x0000_0001, Some(0xffff_ffff)),
        // sllv
        (0x0022_1804, 0x0000_0021, 0x8000_0001, Some(0x0000_0002)),
        // srlv
        (0x0022_1806, 0x0000_003f, 0x8000_0000, Some(0x0000_0001)),
        // srav
        (0x0022_1807, 0x0000_001f, 0x8000_0000, Some(0xffff_ffff)),
        // srav
        (0x0022_1807, 0x0000_0020, 0x8000_0000, Some(0x8000_0000)),
        // slt
        (0x0022_182a, 0x8000_0000, 0x0000_0000, Some(0x0000_0001)),
        // sltu
        (0x0022_182b, 0x8000_0000, 0x0000_0000, Some(0x0000_0000)),
        // nor
        (0x0022_1827, 0x0000_0000, 0x0000_0000, Some(0xffff_ffff)),
    ];
    for (word, s, t, want) in rows {
        let found = match after(word, s, t) {
            Some(regs) => Some(regs.get(r(3))),
            None => None,
        };
        assert_eq!(rt; found, want, "{word:08x} at {s:08x} and {t:08x}");
    }
}

#[test]
fn immediates_are_extended(rt: HostRuntime) {
    // The immediate is 0xfff0.
    let rows = [
        // addi $2, $1, -16
        (0x2022_fff0, 0x8000_0000, None),
        // addiu $2, $1, -16
        (0x2422_fff0, 0x8000_0000, Some(0x7fff_fff0)),
        // slti
        (0x2822_fff0, 0xffff_ff00, Some(0x0000_0001)),
        // sltiu
        (0x2c22_fff0, 0xffff_ff00, Some(0x0000_0001)),
        // sltiu
        (0x2c22_fff0, 0x0000_fff0, Some(0x0000_0001)),
        // slti
        (0x2822_fff0, 0x0000_fff0, Some(0x0000_0000)),
        // andi
        (0x3022_fff0, 0xffff_ffff, Some(0x0000_fff0)),
        // ori
        (0x3422_fff0, 0x0000_0000, Some(0x0000_fff0)),
        // xori
        (0x3822_fff0, 0xffff_ffff, Some(0xffff_000f)),
    ];
    for (word, s, want) in rows {
        let found = match after(word, s, 7) {
            Some(regs) => Some(regs.get(r(2))),
            None => None,
        };
        assert_eq!(rt; found, want, "{word:08x} at {s:08x}");
    }
}

#[test]
fn products_and_quotients_are_left_in_hi_and_lo(rt: HostRuntime) {
    let rows = [
        // mult
        (
            0x0022_0018,
            0xffff_ffff,
            0x0000_0002,
            (0xffff_ffff, 0xffff_fffe),
        ),
        // mult
        (
            0x0022_0018,
            0x8000_0000,
            0x8000_0000,
            (0x4000_0000, 0x0000_0000),
        ),
        // multu
        (
            0x0022_0019,
            0xffff_ffff,
            0xffff_ffff,
            (0xffff_fffe, 0x0000_0001),
        ),
        // div
        (
            0x0022_001a,
            0xffff_fff9,
            0x0000_0002,
            (0xffff_ffff, 0xffff_fffd),
        ),
        // div
        (
            0x0022_001a,
            0x0000_0007,
            0xffff_fffe,
            (0x0000_0001, 0xffff_fffd),
        ),
        // div
        (
            0x0022_001a,
            0x8000_0000,
            0xffff_ffff,
            (0x0000_0000, 0x8000_0000),
        ),
        // div
        (
            0x0022_001a,
            0x0000_0005,
            0x0000_0000,
            (0x0000_0000, 0x0000_0000),
        ),
        // divu
        (
            0x0022_001b,
            0xffff_fff9,
            0x0000_0002,
            (0x0000_0001, 0x7fff_fffc),
        ),
        // divu
        (
            0x0022_001b,
            0x0000_0005,
            0x0000_0000,
            (0x0000_0000, 0x0000_0000),
        ),
    ];
    for (word, s, t, want) in rows {
        let found = match after(word, s, t) {
            Some(regs) => (regs.hi, regs.lo),
            None => (1, 1),
        };
        assert_eq!(rt; found, want, "{word:08x} at {s:08x} and {t:08x}");
    }
}

#[test]
fn transfers_go_and_link(rt: HostRuntime) {
    // At 0FFFFFFC, whose slot is the first word of the next 256 MiB. Branches have the offset
    // -16, jumps the index 0x1234567. Each row: the word, $1, the next address, $31, the kind.
    let rows = [
        // bltz, taken and not
        (0x0420_fff0, 0x8000_0000, 0x0fff_ffc0, 7, LinkKind::Plain),
        (0x0420_fff0, 0x0000_0000, 0x1000_0004, 7, LinkKind::Plain),
        // bgezal, taken and not
        (
            0x0431_fff0,
            0x0000_0000,
            0x0fff_ffc0,
            0x1000_0004,
            LinkKind::Call,
        ),
        (
            0x0431_fff0,
            0xffff_ffff,
            0x1000_0004,
            0x1000_0004,
            LinkKind::Plain,
        ),
        // blez and bgtz of 0
        (0x1820_fff0, 0x0000_0000, 0x0fff_ffc0, 7, LinkKind::Plain),
        (0x1c20_fff0, 0x0000_0000, 0x1000_0004, 7, LinkKind::Plain),
        // j and jal
        (0x0923_4567, 0x0000_0000, 0x148d_159c, 7, LinkKind::Plain),
        (
            0x0d23_4567,
            0x0000_0000,
            0x148d_159c,
            0x1000_0004,
            LinkKind::Call,
        ),
        // jr $1, jr $31, and jalr $31, $1
        (0x0020_0008, 0x0040_0000, 0x0040_0000, 7, LinkKind::Plain),
        (0x03e0_0008, 0x0040_0000, 0x0000_0007, 7, LinkKind::Return),
        (
            0x0020_f809,
            0x0040_0000,
            0x0040_0000,
            0x1000_0004,
            LinkKind::Call,
        ),
    ];
    for (word, s, next, link, kind) in rows {
        let instr = decode(word).expect(&rt, "a word of the table");
        let mut regs = Regs {
            general: [7; 32],
            hi: 0,
            lo: 0,
        };
        regs.set(r(1), s);
        let way = decide(&instr, 0x0fff_fffc, &mut regs).expect(&rt, "a transfer");
        let found = (way.next, regs.get(r(31)), way.kind);
        assert_eq!(rt; found, (next, link, kind), "{word:08x} at {s:08x}");
    }
}

#[test]
fn targets_count_from_the_slot(rt: HostRuntime) {
    // By 3 words; then at 0FFFFFFC, whose slot is the first word of the next 256 MiB, by -16 words.
    assert_eq!(rt; branch_target(0x0040_0000, 3), 0x0040_0010);
    assert_eq!(rt; branch_target(0x0fff_fffc, 0xfff0), 0x0fff_ffc0);
    assert_eq!(rt; jump_target(0x0fff_fffc, 0x0123_4567), 0x148d_159c);
    assert!(rt; branch_links(BranchOp::Bgezal) && !branch_links(BranchOp::Bgez));
}

#[test]
fn places_and_classes(rt: HostRuntime) {
    let rows = [
        (0x0022_1820, 0x6, 0x8, CostClass::Alu),
        (0x0022_1804, 0x6, 0x8, CostClass::Shift),
        (0x0000_1810, 0x100000000, 0x8, CostClass::Move),
        (0x0020_0013, 0x2, 0x200000000, CostClass::Move),
        (0x0022_0018, 0x6, 0x300000000, CostClass::Mult),
        (0x0022_001b, 0x6, 0x300000000, CostClass::Div),
        (0x8822_fff0, 0x6, 0x4, CostClass::Load),
        (0x8c22_fff0, 0x2, 0x4, CostClass::Load),
        (0xac22_fff0, 0x6, 0x0, CostClass::Store),
        (0x1022_fff0, 0x6, 0x0, CostClass::Branch),
        (0x0431_fff0, 0x2, 0x80000000, CostClass::Branch),
        (0x0c00_0001, 0x0, 0x80000000, CostClass::Jump),
        (0x0000_000c, 0x0, 0x0, CostClass::Stop),
        (0x0000_0000, 0x1, 0x0, CostClass::Shift),
    ];
    for (word, read, written, class) in rows {
        let instr = decode(word).expect(&rt, "a word of the table");
        let found = (reads(&instr), writes(&instr), cost_class(&instr));
        assert_eq!(rt; found, (read, written, class), "at {word:08x}");
    }
}
