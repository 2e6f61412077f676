//! From instructions to effects.

ghost use Rattle.std.specs.Prelude.{◌≡◌};
ghost use Rattle.rv_decode.specs.Table.{IsInst, IsRegister};
ghost use Rattle.rv_exec.specs.Effects.{register, plus, at_next, at_target, upper_value, loading, storing, effect_of};
ghost use Rattle.rv_exec.specs.Sizes.{HasSizes};

use crate::effect::Effect;
use crate::operation::{compute, register_operation, takes_branch};
use rv_decode::{Inst, LoadOp, StoreOp, UpperOp};
use rv_ext::{bits_of, multiply};

/// What an instruction does at `pc`, where `regs` holds the values of the registers; register 0 reads
/// 0 whatever stands there. A branch that is taken and a jump whose target is no multiple of 4 are
/// `Trap` with cause 0 and the target. A load and a store have 1, 2, 4 or 8 bytes, an atomic instruction
/// 4 or 8.
pub fn execute(inst: &Inst, pc: u64, regs: &[u64; 32]) -> Effect
    requires { IsInst inst.now }
    ensures effect { result ≡ effect_of inst.now pc regs.now }
    ensures sizes { HasSizes result }
{
    match *inst {
        Inst::Upper { op, rd, imm } => go_on(pc, rd, upper(op, pc, imm)),
        Inst::Jal { rd, imm } => go_to(offset(pc, imm), rd, pc.wrapping_add(4)),
        Inst::Jalr { rd, rs1, imm } => {
            go_to(offset(read(regs, rs1), imm) / 2 * 2, rd, pc.wrapping_add(4))
        }
        Inst::Branch { op, rs1, rs2, imm } => {
            if takes_branch(op, read(regs, rs1), read(regs, rs2)) {
                go_to(offset(pc, imm), 0, 0)
            } else {
                go_on(pc, 0, 0)
            }
        }
        Inst::Load { op, rd, rs1, imm } => load(op, offset(read(regs, rs1), imm), rd),
        Inst::Store { op, rs1, rs2, imm } => {
            store(op, offset(read(regs, rs1), imm), read(regs, rs2))
        }
        Inst::Imm { op, rd, rs1, imm } => {
            let value = compute(register_operation(op), read(regs, rs1), bits_of(imm));
            go_on(pc, rd, value)
        }
        Inst::Reg { op, rd, rs1, rs2 } => {
            go_on(pc, rd, compute(op, read(regs, rs1), read(regs, rs2)))
        }
        Inst::Mul { op, rd, rs1, rs2 } => {
            go_on(pc, rd, multiply(op, read(regs, rs1), read(regs, rs2)))
        }
        Inst::Amo {
            op,
            size,
            rd,
            rs1,
            rs2,
            ..
        } => Effect::Amo {
            address: read(regs, rs1),
            size,
            op,
            value: read(regs, rs2),
            rd,
        },
        Inst::Fence { .. } => Effect::Fence,
        Inst::Ecall => Effect::Call,
        Inst::Ebreak => Effect::Trap {
            cause: 3,
            value: pc,
        },
        Inst::Sfence { .. } => Effect::Flush,
    }
}

fn read(regs: &[u64; 32], r: u8) -> u64
    requires { IsRegister r }
    ensures { result ≡ register regs.now r }
{
    if r == 0 { 0 } else { regs[usize::from(r)] }
}

/// A value and an immediate, mod 2^64.
fn offset(x: u64, imm: i64) -> u64
    ensures { result ≡ plus x imm }
{
    x.wrapping_add_signed(imm)
}

fn go_on(pc: u64, rd: u8, value: u64) -> Effect
    ensures effect { result ≡ at_next pc rd value }
    ensures sizes { HasSizes result }
{
    Effect::Next {
        pc: pc.wrapping_add(4),
        rd,
        value,
    }
}

fn go_to(target: u64, rd: u8, value: u64) -> Effect
    ensures effect { result ≡ at_target target rd value }
    ensures sizes { HasSizes result }
{
    if target.is_multiple_of(4) {
        Effect::Next {
            pc: target,
            rd,
            value,
        }
    } else {
        Effect::Trap {
            cause: 0,
            value: target,
        }
    }
}

fn upper(op: UpperOp, pc: u64, imm: i64) -> u64
    ensures { result ≡ upper_value op pc imm }
{
    match op {
        UpperOp::Lui => bits_of(imm),
        UpperOp::Auipc => offset(pc, imm),
    }
}

fn load(op: LoadOp, address: u64, rd: u8) -> Effect
    ensures effect { result ≡ loading op address rd }
    ensures sizes { HasSizes result }
{
    let (size, signed) = match op {
        LoadOp::Lb => (1, true),
        LoadOp::Lh => (2, true),
        LoadOp::Lw => (4, true),
        LoadOp::Ld => (8, true),
        LoadOp::Lbu => (1, false),
        LoadOp::Lhu => (2, false),
        LoadOp::Lwu => (4, false),
    };
    Effect::Load {
        address,
        size,
        signed,
        rd,
    }
}

fn store(op: StoreOp, address: u64, value: u64) -> Effect
    ensures effect { result ≡ storing op address value }
    ensures sizes { HasSizes result }
{
    let (size, value) = match op {
        StoreOp::Sb => (1, value % (1 << 8)),
        StoreOp::Sh => (2, value % (1 << 16)),
        StoreOp::Sw => (4, value % (1 << 32)),
        StoreOp::Sd => (8, value),
    };
    Effect::Store {
        address,
        size,
        value,
    }
}
