//! The codes of the operations: opcode, funct3, funct7 and their like, both ways.

ghost use Rattle.std.specs.Prelude.{◌≡◌, ℕ, ◌<◌, Some, IfSome};
ghost use Rattle.rv_ext.specs.declared.op.MulOp.{MulOp};
ghost use Rattle.rv_ext.specs.declared.op.AmoOp.{AmoOp};
ghost use Rattle.rv_decode.specs.declared.op.UpperOp.{UpperOp};
ghost use Rattle.rv_decode.specs.declared.op.BranchOp.{BranchOp};
ghost use Rattle.rv_decode.specs.declared.op.LoadOp.{LoadOp};
ghost use Rattle.rv_decode.specs.declared.op.StoreOp.{StoreOp};
ghost use Rattle.rv_decode.specs.declared.op.ImmOp.{ImmOp};
ghost use Rattle.rv_decode.specs.declared.op.RegOp.{RegOp};
ghost use Rattle.rv_decode.specs.Table.{upper_opcode, branch_funct3, load_funct3, store_funct3, imm_form, reg_code, mul_code, amo_code};
ghost use Rattle.rv_decode.specs.Parts.{HasForm, FormFits};
ghost use Rattle.rv_decode.specs.Decoded.{upper_op_of, branch_op_of, load_op_of, store_op_of, imm_op_of, reg_op_of, mul_op_of, amo_op_of};

use crate::op::{BranchOp, ImmOp, LoadOp, RegOp, StoreOp, UpperOp};
use rv_ext::{AmoOp, MulOp};

/// How an operation with an immediate is written.
#[derive(Clone, Copy, Debug, PartialEq, Eq)]
pub enum ImmForm {
    /// With twelve bits of a number.
    Plain {
        opcode: u32,
        funct3: u32,
    },
    /// As a shift by a number below `limit`; `upper` are the word's six upper bits.
    Shift {
        opcode: u32,
        funct3: u32,
        limit: u32,
        upper: u32,
    },
}

/// The opcode of an instruction with an upper immediate.
pub fn upper_opcode(op: UpperOp) -> u32
    ensures code { result ≡ upper_opcode op }
    ensures fits { result < 128 }
{
    match op {
        UpperOp::Lui => 0x37,
        UpperOp::Auipc => 0x17,
    }
}

/// The instruction with an upper immediate that has this opcode, if there is one.
pub fn upper_op(opcode: u32) -> Option<UpperOp>
    ensures found { IfSome result (λ op. upper_opcode op ≡ opcode) }
    ensures only { (op : UpperOp) → upper_opcode op ≡ opcode → result ≡ Some op }
    ensures whole { result ≡ upper_op_of opcode }
{
    match opcode {
        0x37 => Some(UpperOp::Lui),
        0x17 => Some(UpperOp::Auipc),
        _ => None,
    }
}

/// funct3 of a branch.
pub fn branch_funct3(op: BranchOp) -> u32
    ensures code { result ≡ branch_funct3 op }
    ensures fits { result < 8 }
{
    match op {
        BranchOp::Beq => 0,
        BranchOp::Bne => 1,
        BranchOp::Blt => 4,
        BranchOp::Bge => 5,
        BranchOp::Bltu => 6,
        BranchOp::Bgeu => 7,
    }
}

/// The branch that has this funct3, if there is one.
pub fn branch_op(funct3: u32) -> Option<BranchOp>
    ensures found { IfSome result (λ op. branch_funct3 op ≡ funct3) }
    ensures only { (op : BranchOp) → branch_funct3 op ≡ funct3 → result ≡ Some op }
    ensures whole { result ≡ branch_op_of funct3 }
{
    match funct3 {
        0 => Some(BranchOp::Beq),
        1 => Some(BranchOp::Bne),
        4 => Some(BranchOp::Blt),
        5 => Some(BranchOp::Bge),
        6 => Some(BranchOp::Bltu),
        7 => Some(BranchOp::Bgeu),
        _ => None,
    }
}

/// funct3 of a load.
pub fn load_funct3(op: LoadOp) -> u32
    ensures code { result ≡ load_funct3 op }
    ensures fits { result < 8 }
{
    match op {
        LoadOp::Lb => 0,
        LoadOp::Lh => 1,
        LoadOp::Lw => 2,
        LoadOp::Ld => 3,
        LoadOp::Lbu => 4,
        LoadOp::Lhu => 5,
        LoadOp::Lwu => 6,
    }
}

/// The load that has this funct3, if there is one.
pub fn load_op(funct3: u32) -> Option<LoadOp>
    ensures found { IfSome result (λ op. load_funct3 op ≡ funct3) }
    ensures only { (op : LoadOp) → load_funct3 op ≡ funct3 → result ≡ Some op }
    ensures whole { result ≡ load_op_of funct3 }
{
    match funct3 {
        0 => Some(LoadOp::Lb),
        1 => Some(LoadOp::Lh),
        2 => Some(LoadOp::Lw),
        3 => Some(LoadOp::Ld),
        4 => Some(LoadOp::Lbu),
        5 => Some(LoadOp::Lhu),
        6 => Some(LoadOp::Lwu),
        _ => None,
    }
}

/// funct3 of a store.
pub fn store_funct3(op: StoreOp) -> u32
    ensures code { result ≡ store_funct3 op }
    ensures fits { result < 8 }
{
    match op {
        StoreOp::Sb => 0,
        StoreOp::Sh => 1,
        StoreOp::Sw => 2,
        StoreOp::Sd => 3,
    }
}

/// The store that has this funct3, if there is one.
pub fn store_op(funct3: u32) -> Option<StoreOp>
    ensures found { IfSome result (λ op. store_funct3 op ≡ funct3) }
    ensures only { (op : StoreOp) → store_funct3 op ≡ funct3 → result ≡ Some op }
    ensures whole { result ≡ store_op_of funct3 }
{
    match funct3 {
        0 => Some(StoreOp::Sb),
        1 => Some(StoreOp::Sh),
        2 => Some(StoreOp::Sw),
        3 => Some(StoreOp::Sd),
        _ => None,
    }
}

/// How an operation with an immediate is written.
pub fn imm_form(op: ImmOp) -> ImmForm
    ensures code { result ≡ imm_form op }
    ensures fits { FormFits result }
{
    let plain = |opcode, funct3| ImmForm::Plain { opcode, funct3 };
    let shift = |opcode, funct3, limit, upper| ImmForm::Shift {
        opcode,
        funct3,
        limit,
        upper,
    };
    match op {
        ImmOp::Addi => plain(0x13, 0),
        ImmOp::Slti => plain(0x13, 2),
        ImmOp::Sltiu => plain(0x13, 3),
        ImmOp::Xori => plain(0x13, 4),
        ImmOp::Ori => plain(0x13, 6),
        ImmOp::Andi => plain(0x13, 7),
        ImmOp::Slli => shift(0x13, 1, 64, 0x00),
        ImmOp::Srli => shift(0x13, 5, 64, 0x00),
        ImmOp::Srai => shift(0x13, 5, 64, 0x10),
        ImmOp::Addiw => plain(0x1b, 0),
        ImmOp::Slliw => shift(0x1b, 1, 32, 0x00),
        ImmOp::Srliw => shift(0x1b, 5, 32, 0x00),
        ImmOp::Sraiw => shift(0x1b, 5, 32, 0x10),
    }
}

/// The operation with an immediate that has this opcode and funct3 and, where it is a shift, these six
/// upper bits, if there is one.
pub fn imm_op(opcode: u32, funct3: u32, upper: u32) -> Option<ImmOp>
    ensures found { IfSome result (λ op. HasForm opcode funct3 upper (imm_form op)) }
    ensures only { (op : ImmOp) → HasForm opcode funct3 upper (imm_form op) → result ≡ Some op }
    ensures whole { result ≡ imm_op_of opcode funct3 upper }
{
    match (opcode, funct3, upper) {
        (0x13, 0, _) => Some(ImmOp::Addi),
        (0x13, 2, _) => Some(ImmOp::Slti),
        (0x13, 3, _) => Some(ImmOp::Sltiu),
        (0x13, 4, _) => Some(ImmOp::Xori),
        (0x13, 6, _) => Some(ImmOp::Ori),
        (0x13, 7, _) => Some(ImmOp::Andi),
        (0x13, 1, 0x00) => Some(ImmOp::Slli),
        (0x13, 5, 0x00) => Some(ImmOp::Srli),
        (0x13, 5, 0x10) => Some(ImmOp::Srai),
        (0x1b, 0, _) => Some(ImmOp::Addiw),
        (0x1b, 1, 0x00) => Some(ImmOp::Slliw),
        (0x1b, 5, 0x00) => Some(ImmOp::Srliw),
        (0x1b, 5, 0x10) => Some(ImmOp::Sraiw),
        _ => None,
    }
}

/// Opcode, funct3 and funct7 of an operation on two registers.
pub fn reg_code(op: RegOp) -> (u32, u32, u32)
    ensures code { result ≡ reg_code op }
    ensures opcode_fits { result.0 < 128 }
    ensures funct3_fits { result.1 < 8 }
    ensures funct7_fits { result.2 < 128 }
{
    match op {
        RegOp::Add => (0x33, 0, 0x00),
        RegOp::Sub => (0x33, 0, 0x20),
        RegOp::Sll => (0x33, 1, 0x00),
        RegOp::Slt => (0x33, 2, 0x00),
        RegOp::Sltu => (0x33, 3, 0x00),
        RegOp::Xor => (0x33, 4, 0x00),
        RegOp::Srl => (0x33, 5, 0x00),
        RegOp::Sra => (0x33, 5, 0x20),
        RegOp::Or => (0x33, 6, 0x00),
        RegOp::And => (0x33, 7, 0x00),
        RegOp::Addw => (0x3b, 0, 0x00),
        RegOp::Subw => (0x3b, 0, 0x20),
        RegOp::Sllw => (0x3b, 1, 0x00),
        RegOp::Srlw => (0x3b, 5, 0x00),
        RegOp::Sraw => (0x3b, 5, 0x20),
    }
}

/// The operation on two registers that has this opcode, funct3 and funct7, if there is one.
pub fn reg_op(opcode: u32, funct3: u32, funct7: u32) -> Option<RegOp>
    ensures found { IfSome result (λ op. reg_code op ≡ (opcode, funct3, funct7)) }
    ensures only { (op : RegOp) → reg_code op ≡ (opcode, funct3, funct7) → result ≡ Some op }
    ensures whole { result ≡ reg_op_of opcode funct3 funct7 }
{
    match (opcode, funct3, funct7) {
        (0x33, 0, 0x00) => Some(RegOp::Add),
        (0x33, 0, 0x20) => Some(RegOp::Sub),
        (0x33, 1, 0x00) => Some(RegOp::Sll),
        (0x33, 2, 0x00) => Some(RegOp::Slt),
        (0x33, 3, 0x00) => Some(RegOp::Sltu),
        (0x33, 4, 0x00) => Some(RegOp::Xor),
        (0x33, 5, 0x00) => Some(RegOp::Srl),
        (0x33, 5, 0x20) => Some(RegOp::Sra),
        (0x33, 6, 0x00) => Some(RegOp::Or),
        (0x33, 7, 0x00) => Some(RegOp::And),
        (0x3b, 0, 0x00) => Some(RegOp::Addw),
        (0x3b, 0, 0x20) => Some(RegOp::Subw),
        (0x3b, 1, 0x00) => Some(RegOp::Sllw),
        (0x3b, 5, 0x00) => Some(RegOp::Srlw),
        (0x3b, 5, 0x20) => Some(RegOp::Sraw),
        _ => None,
    }
}

/// Opcode and funct3 of a multiplication or division.
pub fn mul_code(op: MulOp) -> (u32, u32)
    ensures code { result ≡ mul_code op }
    ensures opcode_fits { result.0 < 128 }
    ensures funct3_fits { result.1 < 8 }
{
    match op {
        MulOp::Mul => (0x33, 0),
        MulOp::Mulh => (0x33, 1),
        MulOp::Mulhsu => (0x33, 2),
        MulOp::Mulhu => (0x33, 3),
        MulOp::Div => (0x33, 4),
        MulOp::Divu => (0x33, 5),
        MulOp::Rem => (0x33, 6),
        MulOp::Remu => (0x33, 7),
        MulOp::Mulw => (0x3b, 0),
        MulOp::Divw => (0x3b, 4),
        MulOp::Divuw => (0x3b, 5),
        MulOp::Remw => (0x3b, 6),
        MulOp::Remuw => (0x3b, 7),
    }
}

/// The multiplication or division that has this opcode and funct3, if there is one.
pub fn mul_op(opcode: u32, funct3: u32) -> Option<MulOp>
    ensures found { IfSome result (λ op. mul_code op ≡ (opcode, funct3)) }
    ensures only { (op : MulOp) → mul_code op ≡ (opcode, funct3) → result ≡ Some op }
    ensures whole { result ≡ mul_op_of opcode funct3 }
{
    match (opcode, funct3) {
        (0x33, 0) => Some(MulOp::Mul),
        (0x33, 1) => Some(MulOp::Mulh),
        (0x33, 2) => Some(MulOp::Mulhsu),
        (0x33, 3) => Some(MulOp::Mulhu),
        (0x33, 4) => Some(MulOp::Div),
        (0x33, 5) => Some(MulOp::Divu),
        (0x33, 6) => Some(MulOp::Rem),
        (0x33, 7) => Some(MulOp::Remu),
        (0x3b, 0) => Some(MulOp::Mulw),
        (0x3b, 4) => Some(MulOp::Divw),
        (0x3b, 5) => Some(MulOp::Divuw),
        (0x3b, 6) => Some(MulOp::Remw),
        (0x3b, 7) => Some(MulOp::Remuw),
        _ => None,
    }
}

/// The bits 31 to 27 of an atomic instruction.
pub fn amo_code(op: AmoOp) -> u32
    ensures code { result ≡ amo_code op }
    ensures fits { result < 32 }
{
    match op {
        AmoOp::Swap => 0x01,
        AmoOp::Add => 0x00,
        AmoOp::Xor => 0x04,
        AmoOp::And => 0x0c,
        AmoOp::Or => 0x08,
        AmoOp::Min => 0x10,
        AmoOp::Max => 0x14,
        AmoOp::Minu => 0x18,
        AmoOp::Maxu => 0x1c,
    }
}

/// The atomic operation that has these bits 31 to 27, if there is one.
pub fn amo_op(code: u32) -> Option<AmoOp>
    ensures found { IfSome result (λ op. amo_code op ≡ code) }
    ensures only { (op : AmoOp) → amo_code op ≡ code → result ≡ Some op }
    ensures whole { result ≡ amo_op_of code }
{
    match code {
        0x01 => Some(AmoOp::Swap),
        0x00 => Some(AmoOp::Add),
        0x04 => Some(AmoOp::Xor),
        0x0c => Some(AmoOp::And),
        0x08 => Some(AmoOp::Or),
        0x10 => Some(AmoOp::Min),
        0x14 => Some(AmoOp::Max),
        0x18 => Some(AmoOp::Minu),
        0x1c => Some(AmoOp::Maxu),
        _ => None,
    }
}
