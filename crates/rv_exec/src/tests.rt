//! Effects, worked out by hand from the standard.

use crate::{Effect, execute, finish_load};
use rv_decode::{BranchOp, ImmOp, Inst, LoadOp, RegOp, StoreOp, UpperOp};
use rv_ext::{AmoOp, MulOp};

const PC: u64 = 2147483904;

const ALL: u64 = 18446744073709551615;

const LEAST: u64 = 9223372036854775808;

const LEAST_WORD: u64 = 18446744071562067968;

/// Registers 1 and 2 hold the values; what stands in the place of register 0 is never read.
fn registers(a: u64, b: u64) -> [u64; 32] {
    let mut regs = [0; 32];
    regs[0] = 7;
    regs[1] = a;
    regs[2] = b;
    regs
}

fn next(value: u64) -> Effect {
    Effect::Next {
        pc: 2147483908,
        rd: 3,
        value,
    }
}

#[test]
fn operations(rt: HostRuntime) {
    let (rd, rs1, rs2) = (3, 1, 2);
    for (op, a, b, value) in [
        (RegOp::Add, ALL, 2, 1),
        (RegOp::Sub, 0, 1, ALL),
        (RegOp::Sll, 1, 65, 2),
        (RegOp::Slt, ALL, 1, 1),
        (RegOp::Sltu, ALL, 1, 0),
        (RegOp::Xor, 12, 10, 6),
        (RegOp::Srl, LEAST, 63, 1),
        (RegOp::Sra, LEAST, 63, ALL),
        // -16 by 2^4
        (RegOp::Sra, 18446744073709551600, 68, ALL),
        (RegOp::Or, 12, 10, 14),
        (RegOp::And, 12, 10, 8),
        (RegOp::Addw, 2147483647, 1, LEAST_WORD),
        (RegOp::Subw, 4294967296, 1, ALL),
        (RegOp::Sllw, 1, 31, LEAST_WORD),
        (RegOp::Sllw, 1, 33, 2),
        (RegOp::Srlw, LEAST_WORD, 31, 1),
        (RegOp::Sraw, LEAST_WORD, 31, ALL),
        (RegOp::Sraw, 2147483648, 32, LEAST_WORD),
    ] {
        let inst = Inst::Reg { op, rd, rs1, rs2 };
        assert_eq!(rt;
            execute(&inst, PC, &registers(a, b)),
            next(value),
            "at {op:?}"
        );
    }
}

#[test]
fn operands(rt: HostRuntime) {
    let regs = registers(5, 1);
    let (rd, rs1, rs2) = (3, 1, 2);
    let op = ImmOp::Sltiu;
    let inst = Inst::Imm {
        op,
        rd,
        rs1,
        imm: -1,
    };
    assert_eq!(rt; execute(&inst, PC, &regs), next(1));
    let op = ImmOp::Addiw;
    let inst = Inst::Imm {
        op,
        rd,
        rs1,
        imm: -6,
    };
    assert_eq!(rt; execute(&inst, PC, &regs), next(ALL));
    let op = ImmOp::Slliw;
    let inst = Inst::Imm {
        op,
        rd,
        rs1,
        imm: 31,
    };
    assert_eq!(rt; execute(&inst, PC, &regs), next(LEAST_WORD));
    let op = RegOp::Add;
    let inst = Inst::Reg {
        op,
        rd,
        rs1: 0,
        rs2,
    };
    assert_eq!(rt; execute(&inst, PC, &regs), next(1));
    let op = MulOp::Divu;
    let inst = Inst::Mul {
        op,
        rd,
        rs1,
        rs2: 0,
    };
    assert_eq!(rt; execute(&inst, PC, &regs), next(ALL));
    let op = UpperOp::Lui;
    let inst = Inst::Upper {
        op,
        rd,
        imm: -2147483648,
    };
    assert_eq!(rt; execute(&inst, PC, &regs), next(LEAST_WORD));
    let op = UpperOp::Auipc;
    let inst = Inst::Upper { op, rd, imm: 4096 };
    assert_eq!(rt; execute(&inst, PC, &regs), next(2147488000));
}

#[test]
fn branches(rt: HostRuntime) {
    let (rs1, rs2) = (1, 2);
    for (op, taken) in [
        (BranchOp::Beq, false),
        (BranchOp::Bne, true),
        (BranchOp::Blt, true),
        (BranchOp::Bge, false),
        (BranchOp::Bltu, false),
        (BranchOp::Bgeu, true),
    ] {
        let regs = registers(ALL, 1);
        let near = Inst::Branch {
            op,
            rs1,
            rs2,
            imm: -8,
        };
        let pc = if taken { 2147483896 } else { 2147483908 };
        let value = 0;
        assert_eq!(rt;
            execute(&near, PC, &regs),
            Effect::Next { pc, rd: 0, value },
            "at {op:?}"
        );
        let odd = Inst::Branch {
            op,
            rs1,
            rs2,
            imm: 6,
        };
        let effect = if taken {
            Effect::Trap {
                cause: 0,
                value: 2147483910,
            }
        } else {
            Effect::Next { pc, rd: 0, value }
        };
        assert_eq!(rt; execute(&odd, PC, &regs), effect, "at {op:?}");
    }
}

#[test]
fn jalr_misaligned(rt: HostRuntime) {
    let regs = registers(0, 2147483648);
    let (rd, rs1) = (1, 2);
    let value = 2147483650;
    let trap = Effect::Trap { cause: 0, value };
    assert_eq!(rt; execute(&Inst::Jalr { rd, rs1, imm: 3 }, PC, &regs), trap);
    let (pc, value) = (2147483648, 2147483908);
    let jump = Effect::Next { pc, rd, value };
    assert_eq!(rt; execute(&Inst::Jalr { rd, rs1, imm: 1 }, PC, &regs), jump);
}

#[test]
fn jal_both_ways(rt: HostRuntime) {
    let regs = registers(0, 0);
    let (pc, rd, value) = (2147483900, 1, 2147483908);
    let jump = Effect::Next { pc, rd, value };
    assert_eq!(rt; execute(&Inst::Jal { rd, imm: -4 }, PC, &regs), jump);
    let value = 2147483906;
    let trap = Effect::Trap { cause: 0, value };
    assert_eq!(rt; execute(&Inst::Jal { rd, imm: 2 }, PC, &regs), trap);
}

#[test]
fn memory(rt: HostRuntime) {
    let regs = registers(0, 511);
    let (rd, rs1, rs2) = (3, 1, 2);
    let op = LoadOp::Lb;
    let load = Effect::Load {
        address: ALL,
        size: 1,
        signed: true,
        rd,
    };
    assert_eq!(rt;
        execute(
            &Inst::Load {
                op,
                rd,
                rs1,
                imm: -1
            },
            PC,
            &regs
        ),
        load
    );
    let op = LoadOp::Lhu;
    let load = Effect::Load {
        address: 6,
        size: 2,
        signed: false,
        rd,
    };
    assert_eq!(rt;
        execute(
            &Inst::Load {
                op,
                rd,
                rs1,
                imm: 6
            },
            PC,
            &regs
        ),
        load
    );
    let op = StoreOp::Sb;
    let store = Effect::Store {
        address: 9,
        size: 1,
        value: 255,
    };
    assert_eq!(rt;
        execute(
            &Inst::Store {
                op,
                rs1,
                rs2,
                imm: 9
            },
            PC,
            &regs
        ),
        store
    );
    let op = StoreOp::Sd;
    let store = Effect::Store {
        address: 8,
        size: 8,
        value: 511,
    };
    assert_eq!(rt;
        execute(
            &Inst::Store {
                op,
                rs1,
                rs2,
                imm: 8
            },
            PC,
            &regs
        ),
        store
    );
    let (op, size, aq, rl) = (AmoOp::Add, 4, true, false);
    let inst = Inst::Amo {
        op,
        size,
        aq,
        rl,
        rd,
        rs1,
        rs2,
    };
    let amo = Effect::Amo {
        address: 0,
        size,
        op,
        value: 511,
        rd,
    };
    assert_eq!(rt; execute(&inst, PC, &regs), amo);
}

#[test]
fn the_rest(rt: HostRuntime) {
    let regs = registers(0, 0);
    let (rd, rs1, rs2) = (0, 0, 0);
    assert_eq!(rt; execute(&Inst::Ecall, PC, &regs), Effect::Call);
    assert_eq!(rt;
        execute(&Inst::Ebreak, PC, &regs),
        Effect::Trap {
            cause: 3,
            value: PC
        }
    );
    assert_eq!(rt;
        execute(&Inst::Fence { rd, rs1, imm: 255 }, PC, &regs),
        Effect::Fence
    );
    assert_eq!(rt;
        execute(&Inst::Sfence { rs1, rs2 }, PC, &regs),
        Effect::Flush
    );
}

#[test]
fn loaded_values(rt: HostRuntime) {
    assert_eq!(rt; finish_load(1, true, 128), 18446744073709551488);
    assert_eq!(rt; finish_load(1, false, 511), 255);
    assert_eq!(rt; finish_load(2, true, 32768), 18446744073709518848);
    assert_eq!(rt; finish_load(2, false, 32768), 32768);
    assert_eq!(rt; finish_load(4, true, 2147483648), LEAST_WORD);
    assert_eq!(rt; finish_load(4, false, 2147483648), 2147483648);
    assert_eq!(rt; finish_load(8, true, LEAST), LEAST);
}
