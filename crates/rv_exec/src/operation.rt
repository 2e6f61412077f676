//! Operations on two values, and the comparisons of branches.

ghost use Rattle.std.specs.Prelude.{◌≡◌};
ghost use Rattle.rv_exec.specs.Operations.{computed, operation_of, is_taken};

use rv_decode::{BranchOp, ImmOp, RegOp};
use rv_ext::{bits_of, bits_of_word, extend_word, low_word, signed_of, signed_of_word};

/// The operation on two registers that an operation with an immediate is.
pub fn register_operation(op: ImmOp) -> RegOp
    ensures { result ≡ operation_of op }
{
    match op {
        ImmOp::Addi => RegOp::Add,
        ImmOp::Slti => RegOp::Slt,
        ImmOp::Sltiu => RegOp::Sltu,
        ImmOp::Xori => RegOp::Xor,
        ImmOp::Ori => RegOp::Or,
        ImmOp::Andi => RegOp::And,
        ImmOp::Slli => RegOp::Sll,
        ImmOp::Srli => RegOp::Srl,
        ImmOp::Srai => RegOp::Sra,
        ImmOp::Addiw => RegOp::Addw,
        ImmOp::Slliw => RegOp::Sllw,
        ImmOp::Srliw => RegOp::Srlw,
        ImmOp::Sraiw => RegOp::Sraw,
    }
}

/// What an operation makes of the values of its two sources.
pub fn compute(op: RegOp, a: u64, b: u64) -> u64
    ensures { result ≡ computed op a b }
{
    match op {
        RegOp::Add => a.wrapping_add(b),
        RegOp::Sub => a.wrapping_sub(b),
        RegOp::Sll => a << (b % 64),
        RegOp::Slt => u64::from(signed_of(a) < signed_of(b)),
        RegOp::Sltu => u64::from(a < b),
        RegOp::Xor => a ^ b,
        RegOp::Srl => a >> (b % 64),
        RegOp::Sra => bits_of(signed_of(a) >> (b % 64)),
        RegOp::Or => a | b,
        RegOp::And => a & b,
        RegOp::Addw => extend_word(low_word(a).wrapping_add(low_word(b))),
        RegOp::Subw => extend_word(low_word(a).wrapping_sub(low_word(b))),
        RegOp::Sllw => extend_word(low_word(a) << (b % 32)),
        RegOp::Srlw => extend_word(low_word(a) >> (b % 32)),
        RegOp::Sraw => extend_word(bits_of_word(signed_of_word(low_word(a)) >> (b % 32))),
    }
}

/// Whether the branch is taken, by the values of its two sources.
pub fn takes_branch(op: BranchOp, a: u64, b: u64) -> bool
    ensures { result ≡ is_taken op a b }
{
    match op {
        BranchOp::Beq => a == b,
        BranchOp::Bne => a != b,
        BranchOp::Blt => signed_of(a) < signed_of(b),
        BranchOp::Bge => signed_of(a) >= signed_of(b),
        BranchOp::Bltu => a < b,
        BranchOp::Bgeu => a >= b,
    }
}
