//! From instructions to words.

ghost use Rattle.std.specs.Prelude.{◌≡◌, ℕ, ◌<◌, ◌⊎◌};
ghost use Rattle.rv_decode.specs.declared.inst.Inst.TheVariants as insts;
ghost use Rattle.rv_decode.specs.Table.{IsInst, IsRow, IsImm, IsOperand, IsRegister, amo_funct7};
ghost use Rattle.rv_decode.specs.Parts.{FormFits};

use crate::codes::{
    ImmForm, amo_code, branch_funct3, imm_form, load_funct3, mul_code, reg_code, store_funct3,
    upper_opcode,
};
use crate::inst::Inst;
use crate::op::RegOp;
use crate::words::{b_word, i_word, j_word, r_word, s_word, shift_word, u_word};
use rv_ext::{AmoOp, MulOp};

/// The word of an operation with an immediate that is written in this form.
fn imm_word(form: ImmForm, rd: u8, rs1: u8, imm: i64) -> u32
    requires form { FormFits form }
    requires rd_fits { IsRegister rd }
    requires rs1_fits { IsRegister rs1 }
    requires imm_fits { IsOperand form imm }
    ensures { IsImm result form rd rs1 imm }
{
    match form {
        ImmForm::Plain { opcode, funct3 } => i_word(opcode, rd, funct3, rs1, imm),
        ImmForm::Shift {
            opcode,
            funct3,
            upper,
            ..
        } => shift_word(opcode, rd, funct3, rs1, upper, imm as u32),
    }
}

/// The word of an operation on two registers.
fn reg_word(op: RegOp, rd: u8, rs1: u8, rs2: u8) -> u32
    requires rd_fits { IsRegister rd }
    requires rs1_fits { IsRegister rs1 }
    requires rs2_fits { IsRegister rs2 }
    ensures { IsRow result (insts.Reg op rd rs1 rs2) }
{
    let (opcode, funct3, funct7) = reg_code(op);
    r_word(opcode, rd, funct3, rs1, rs2, funct7)
}

/// The word of a multiplication or division.
fn mul_word(op: MulOp, rd: u8, rs1: u8, rs2: u8) -> u32
    requires rd_fits { IsRegister rd }
    requires rs1_fits { IsRegister rs1 }
    requires rs2_fits { IsRegister rs2 }
    ensures { IsRow result (insts.Mul op rd rs1 rs2) }
{
    let (opcode, funct3) = mul_code(op);
    r_word(opcode, rd, funct3, rs1, rs2, 0x01)
}

/// funct3 of an atomic instruction on this many bytes, 4 or 8.
fn amo_funct3(size: u8) -> u32
    requires { (size ≡ 4) ⊎ (size ≡ 8) }
    ensures four { size ≡ 4 → result ≡ 2 }
    ensures eight { size ≡ 8 → result ≡ 3 }
{
    if size == 4 { 2 } else { 3 }
}

/// The seven upper bits of an atomic instruction.
fn amo_funct7(op: AmoOp, aq: bool, rl: bool) -> u32
    ensures bits { result ≡ amo_funct7 op aq rl }
    ensures fits { result < 128 }
{
    4 * amo_code(op) + 2 * u32::from(aq) + u32::from(rl)
}

/// The one word of an instruction whose operands are in range: registers below 32, a size of 4 or 8
/// bytes, and an immediate that its format can hold.
pub fn encode(inst: &Inst) -> u32
    requires { IsInst inst.now }
    ensures row { IsRow result inst.now }
    ensures only { (word : ℕ) → IsRow word inst.now → result ≡ word }
{
    match *inst {
        Inst::Upper { op, rd, imm } => u_word(upper_opcode(op), rd, imm),
        Inst::Jal { rd, imm } => j_word(0x6f, rd, imm),
        Inst::Jalr { rd, rs1, imm } => i_word(0x67, rd, 0, rs1, imm),
        Inst::Branch { op, rs1, rs2, imm } => b_word(0x63, branch_funct3(op), rs1, rs2, imm),
        Inst::Load { op, rd, rs1, imm } => i_word(0x03, rd, load_funct3(op), rs1, imm),
        Inst::Store { op, rs1, rs2, imm } => s_word(0x23, store_funct3(op), rs1, rs2, imm),
        Inst::Imm { op, rd, rs1, imm } => imm_word(imm_form(op), rd, rs1, imm),
        Inst::Reg { op, rd, rs1, rs2 } => reg_word(op, rd, rs1, rs2),
        Inst::Mul { op, rd, rs1, rs2 } => mul_word(op, rd, rs1, rs2),
        Inst::Amo {
            op,
            size,
            aq,
            rl,
            rd,
            rs1,
            rs2,
        } => r_word(0x2f, rd, amo_funct3(size), rs1, rs2, amo_funct7(op, aq, rl)),
        Inst::Fence { rd, rs1, imm } => i_word(0x0f, rd, 0, rs1, imm),
        Inst::Ecall => 0x00000073,
        Inst::Ebreak => 0x00100073,
        Inst::Sfence { rs1, rs2 } => r_word(0x73, 0, 0, rs1, rs2, 0x09),
    }
}
