//! Instructions.

use crate::op::{BranchOp, ImmOp, LoadOp, RegOp, StoreOp, UpperOp};
use rv_ext::{AmoOp, MulOp};

/// An instruction. `rd`, `rs1` and `rs2` are numbers of registers, 0 to 31, and `imm` is the immediate
/// with its sign extended.
#[derive(Clone, Copy, Debug, PartialEq, Eq)]
pub enum Inst {
    /// `imm` is a multiple of 4096.
    Upper {
        op: UpperOp,
        rd: u8,
        imm: i64,
    },
    /// `imm` is the distance in bytes to the target, an even number.
    Jal {
        rd: u8,
        imm: i64,
    },
    Jalr {
        rd: u8,
        rs1: u8,
        imm: i64,
    },
    /// `imm` is the distance in bytes to the target, an even number.
    Branch {
        op: BranchOp,
        rs1: u8,
        rs2: u8,
        imm: i64,
    },
    Load {
        op: LoadOp,
        rd: u8,
        rs1: u8,
        imm: i64,
    },
    Store {
        op: StoreOp,
        rs1: u8,
        rs2: u8,
        imm: i64,
    },
    /// For a shift `imm` is the number of bits.
    Imm {
        op: ImmOp,
        rd: u8,
        rs1: u8,
        imm: i64,
    },
    Reg {
        op: RegOp,
        rd: u8,
        rs1: u8,
        rs2: u8,
    },
    Mul {
        op: MulOp,
        rd: u8,
        rs1: u8,
        rs2: u8,
    },
    /// `size` is the number of bytes, 4 or 8; `aq` and `rl` are the bits acquire and release.
    Amo {
        op: AmoOp,
        size: u8,
        aq: bool,
        rl: bool,
        rd: u8,
        rs1: u8,
        rs2: u8,
    },
    /// The operands say what is ordered; they are kept, and change nothing on this machine.
    Fence {
        rd: u8,
        rs1: u8,
        imm: i64,
    },
    Ecall,
    Ebreak,
    Sfence {
        rs1: u8,
        rs2: u8,
    },
}
