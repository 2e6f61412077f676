//! Words worked out by hand from the figures of the standard.

use crate::{BranchOp, ImmOp, Inst, LoadOp, RegOp, StoreOp, UpperOp, decode, encode};
use rv_ext::{AmoOp, MulOp};
use std::process::Abort;
use std::test::Fail;

#[test]
fn decode_shifts(rt: HostRuntime) {
    let addi = Inst::Imm {
        op: ImmOp::Addi,
        rd: 5,
        rs1: 5,
        imm: 1,
    };
    let slliw = Inst::Imm {
        op: ImmOp::Slliw,
        rd: 1,
        rs1: 1,
        imm: 1,
    };
    let slli = Inst::Imm {
        op: ImmOp::Slli,
        rd: 1,
        rs1: 1,
        imm: 33,
    };
    assert_eq!(rt; decode(0x00128293), Some(addi));
    assert_eq!(rt; decode(0x0010909b), Some(slliw));
    assert_eq!(rt; decode(0x0210909b), None);
    assert_eq!(rt; decode(0x02109093), Some(slli));
}

#[test]
fn decode_extension(rt: HostRuntime) {
    let mul = Inst::Mul {
        op: MulOp::Mul,
        rd: 5,
        rs1: 6,
        rs2: 7,
    };
    let amo = Inst::Amo {
        op: AmoOp::Add,
        size: 8,
        aq: false,
        rl: false,
        rd: 10,
        rs1: 12,
        rs2: 11,
    };
    assert_eq!(rt; decode(0x027302b3), Some(mul));
    assert_eq!(rt; decode(0x00b6352f), Some(amo));
}

#[test]
fn load_reserved_illegal(rt: HostRuntime) {
    assert_eq!(rt; decode(0x1005b52f), None);
    assert_eq!(rt; decode(0x00000000), None);
    assert_eq!(rt; decode(0xffffffff), None);
}

fn imm(op: ImmOp, rd: u8, rs1: u8, imm: i64) -> Inst {
    Inst::Imm { op, rd, rs1, imm }
}

fn branch(imm: i64) -> Inst {
    Inst::Branch {
        op: BranchOp::Bgeu,
        rs1: 1,
        rs2: 2,
        imm,
    }
}

fn store(imm: i64) -> Inst {
    Inst::Store {
        op: StoreOp::Sd,
        rs1: 3,
        rs2: 4,
        imm,
    }
}

fn upper(imm: i64) -> Inst {
    Inst::Upper {
        op: UpperOp::Lui,
        rd: 0,
        imm,
    }
}

/// Checks that the word is the instruction, and the instruction the word.
fn check_both_ways(rt: &impl Abort, word: u32, inst: Inst) -> Result<(), Fail> {
    let found = decode(word).ok_or("in the table")?;
    assert_eq!(rt; found, inst, "at {word}");
    assert_eq!(rt; encode(&found), word, "at {word}");
    Ok(())
}

#[test]
fn edges_of_immediates_and_shifts(rt: HostRuntime) -> Result<(), Fail> {
    for (word, inst) in [
        (0x80000013, imm(ImmOp::Addi, 0, 0, -2048)),
        (0x7fff8f93, imm(ImmOp::Addi, 31, 31, 2047)),
        (0x00001013, imm(ImmOp::Slli, 0, 0, 0)),
        (0x43f0d093, imm(ImmOp::Srai, 1, 1, 63)),
        (0x0200d093, imm(ImmOp::Srli, 1, 1, 32)),
        (0x41f0d09b, imm(ImmOp::Sraiw, 1, 1, 31)),
        (0x8020f063, branch(-4096)),
        (0x7e20ffe3, branch(4094)),
        (0x0020f0e3, branch(2048)),
        (0x8041b023, store(-2048)),
        (0x7e41bfa3, store(2047)),
        (0x80000037, upper(-2147483648)),
        (0x7ffff037, upper(2147479552)),
    ] {
        check_both_ways(&rt, word, inst)?;
    }
    Ok(())
}

#[test]
fn jumps_and_loads_both_ways(rt: HostRuntime) -> Result<(), Fail> {
    let load = Inst::Load {
        op: LoadOp::Lwu,
        rd: 6,
        rs1: 7,
        imm: -1,
    };
    let jalr = Inst::Jalr {
        rd: 1,
        rs1: 2,
        imm: 3,
    };
    for (word, inst) in [
        (
            0x8000006f,
            Inst::Jal {
                rd: 0,
                imm: -1048576,
            },
        ),
        (
            0x7ffff0ef,
            Inst::Jal {
                rd: 1,
                imm: 1048574,
            },
        ),
        (0x001000ef, Inst::Jal { rd: 1, imm: 2048 }),
        (0x003100e7, jalr),
        (0xfff3e303, load),
    ] {
        check_both_ways(&rt, word, inst)?;
    }
    Ok(())
}

#[test]
fn registers_atomics_and_system_both_ways(rt: HostRuntime) -> Result<(), Fail> {
    let subw = Inst::Reg {
        op: RegOp::Subw,
        rd: 3,
        rs1: 4,
        rs2: 5,
    };
    let swap = Inst::Amo {
        op: AmoOp::Swap,
        size: 4,
        aq: true,
        rl: false,
        rd: 1,
        rs1: 2,
        rs2: 3,
    };
    let fence = Inst::Fence {
        rd: 0,
        rs1: 0,
        imm: 255,
    };
    for (word, inst) in [
        (0x405201bb, subw),
        (0x0c3120af, swap),
        (0x0ff0000f, fence),
        (0x00000073, Inst::Ecall),
        (0x00100073, Inst::Ebreak),
        (0x12628073, Inst::Sfence { rs1: 5, rs2: 6 }),
    ] {
        check_both_ways(&rt, word, inst)?;
    }
    Ok(())
}
