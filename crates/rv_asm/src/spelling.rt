//! How instructions are spelled: the words that `name` reads.

ghost use Rattle.std.specs.Prelude.{◌≡◌, ◌≤◌, length};
ghost use Rattle.rv_asm.specs.Names.{upper_name, branch_name, load_name, store_name, imm_name, reg_name, mul_name, amo_name, order};

use rv_decode::{BranchOp, ImmOp, LoadOp, RegOp, StoreOp, UpperOp};
use rv_ext::{AmoOp, MulOp};

/// The name of an instruction with an upper immediate.
pub fn upper_name(op: UpperOp) -> &'static str
    ensures name { result.now ≡ upper_name op }
    ensures short { length result.now ≤ 10 }
{
    match op {
        UpperOp::Lui => "lui",
        UpperOp::Auipc => "auipc",
    }
}

/// The name of a branch.
pub fn branch_name(op: BranchOp) -> &'static str
    ensures name { result.now ≡ branch_name op }
    ensures short { length result.now ≤ 10 }
{
    match op {
        BranchOp::Beq => "beq",
        BranchOp::Bne => "bne",
        BranchOp::Blt => "blt",
        BranchOp::Bge => "bge",
        BranchOp::Bltu => "bltu",
        BranchOp::Bgeu => "bgeu",
    }
}

/// The name of a load.
pub fn load_name(op: LoadOp) -> &'static str
    ensures name { result.now ≡ load_name op }
    ensures short { length result.now ≤ 10 }
{
    match op {
        LoadOp::Lb => "lb",
        LoadOp::Lh => "lh",
        LoadOp::Lw => "lw",
        LoadOp::Ld => "ld",
        LoadOp::Lbu => "lbu",
        LoadOp::Lhu => "lhu",
        LoadOp::Lwu => "lwu",
    }
}

/// The name of a store.
pub fn store_name(op: StoreOp) -> &'static str
    ensures name { result.now ≡ store_name op }
    ensures short { length result.now ≤ 10 }
{
    match op {
        StoreOp::Sb => "sb",
        StoreOp::Sh => "sh",
        StoreOp::Sw => "sw",
        StoreOp::Sd => "sd",
    }
}

/// The name of an operation with an immediate.
pub fn imm_name(op: ImmOp) -> &'static str
    ensures name { result.now ≡ imm_name op }
    ensures short { length result.now ≤ 10 }
{
    match op {
        ImmOp::Addi => "addi",
        ImmOp::Slti => "slti",
        ImmOp::Sltiu => "sltiu",
        ImmOp::Xori => "xori",
        ImmOp::Ori => "ori",
        ImmOp::Andi => "andi",
        ImmOp::Slli => "slli",
        ImmOp::Srli => "srli",
        ImmOp::Srai => "srai",
        ImmOp::Addiw => "addiw",
        ImmOp::Slliw => "slliw",
        ImmOp::Srliw => "srliw",
        ImmOp::Sraiw => "sraiw",
    }
}

/// The name of an operation on registers.
pub fn reg_name(op: RegOp) -> &'static str
    ensures name { result.now ≡ reg_name op }
    ensures short { length result.now ≤ 10 }
{
    match op {
        RegOp::Add => "add",
        RegOp::Sub => "sub",
        RegOp::Sll => "sll",
        RegOp::Slt => "slt",
        RegOp::Sltu => "sltu",
        RegOp::Xor => "xor",
        RegOp::Srl => "srl",
        RegOp::Sra => "sra",
        RegOp::Or => "or",
        RegOp::And => "and",
        RegOp::Addw => "addw",
        RegOp::Subw => "subw",
        RegOp::Sllw => "sllw",
        RegOp::Srlw => "srlw",
        RegOp::Sraw => "sraw",
    }
}

/// The name of a multiplication or division.
pub fn mul_name(op: MulOp) -> &'static str
    ensures name { result.now ≡ mul_name op }
    ensures short { length result.now ≤ 10 }
{
    match op {
        MulOp::Mul => "mul",
        MulOp::Mulh => "mulh",
        MulOp::Mulhsu => "mulhsu",
        MulOp::Mulhu => "mulhu",
        MulOp::Div => "div",
        MulOp::Divu => "divu",
        MulOp::Rem => "rem",
        MulOp::Remu => "remu",
        MulOp::Mulw => "mulw",
        MulOp::Divw => "divw",
        MulOp::Divuw => "divuw",
        MulOp::Remw => "remw",
        MulOp::Remuw => "remuw",
    }
}

/// The name of an atomic instruction, up to its first dot.
pub fn amo_name(op: AmoOp) -> &'static str
    ensures name { result.now ≡ amo_name op }
    ensures short { length result.now ≤ 7 }
{
    match op {
        AmoOp::Swap => "amoswap",
        AmoOp::Add => "amoadd",
        AmoOp::Xor => "amoxor",
        AmoOp::And => "amoand",
        AmoOp::Or => "amoor",
        AmoOp::Min => "amomin",
        AmoOp::Max => "amomax",
        AmoOp::Minu => "amominu",
        AmoOp::Maxu => "amomaxu",
    }
}

/// What acquire and release put behind the name of an atomic instruction.
pub fn order(aq: bool, rl: bool) -> &'static str
    ensures name { result.now ≡ order aq rl }
    ensures short { length result.now ≤ 5 }
{
    match (aq, rl) {
        (false, false) => "",
        (true, false) => ".aq",
        (false, true) => ".rl",
        (true, true) => ".aqrl",
    }
}
