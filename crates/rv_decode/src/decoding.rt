//! From words to instructions.

ghost use Rattle.std.specs.Prelude.{◌≡◌, ℕ, ℤ, Bool, ◌/◌, ◌^◌, ◌⊎◌, Some, IfSome};
ghost use Rattle.rv_ext.specs.declared.op.MulOp.{MulOp};
ghost use Rattle.rv_ext.specs.declared.op.AmoOp.{AmoOp};
ghost use Rattle.rv_decode.specs.declared.op.UpperOp.{UpperOp};
ghost use Rattle.rv_decode.specs.declared.op.BranchOp.{BranchOp};
ghost use Rattle.rv_decode.specs.declared.op.LoadOp.{LoadOp};
ghost use Rattle.rv_decode.specs.declared.op.StoreOp.{StoreOp};
ghost use Rattle.rv_decode.specs.declared.op.ImmOp.{ImmOp};
ghost use Rattle.rv_decode.specs.declared.op.RegOp.{RegOp};
ghost use Rattle.rv_decode.specs.declared.inst.Inst.{Inst};
ghost use Rattle.rv_decode.specs.declared.inst.Inst.TheVariants as insts;
ghost use Rattle.rv_decode.specs.Table.{IsInst, IsRow};
ghost use Rattle.rv_decode.specs.Parts.{HasOperand, opcode_of};
ghost use Rattle.rv_decode.specs.Decoded.{amo_size_of, upper_of, jal_of, jalr_of, branch_of, load_of, store_of, operand_of, immediate_of, multiplication_of, operation_of, registers_of, atomic_of, fence_of, sfence_of, system_of, decoded};

use crate::codes::{
    ImmForm, amo_op, branch_op, imm_form, imm_op, load_op, mul_op, reg_op, store_op, upper_op,
};
use crate::fields::{FUNCT7, RS2, funct3, funct7, opcode, rd, rs1, rs2};
use crate::immediates::{b_immediate, i_immediate, j_immediate, s_immediate, u_immediate};
use crate::inst::Inst;

fn upper(word: u32) -> Option<Inst>
    ensures found { IfSome result (IsRow word) }
    ensures only { (op : UpperOp) (rd : ℕ) (imm : ℤ) → IsRow word (insts.Upper op rd imm) → result ≡ Some (insts.Upper op rd imm) }
    ensures whole { result ≡ upper_of word }
{
    let op = upper_op(opcode(word))?;
    Some(Inst::Upper {
        op,
        rd: rd(word),
        imm: u_immediate(word),
    })
}

fn jal(word: u32) -> Inst
    requires { opcode_of word ≡ 0x6f }
    ensures found { IsRow word result }
    ensures only { (rd : ℕ) (imm : ℤ) → IsRow word (insts.Jal rd imm) → result ≡ insts.Jal rd imm }
    ensures whole { result ≡ jal_of word }
{
    Inst::Jal {
        rd: rd(word),
        imm: j_immediate(word),
    }
}

fn jalr(word: u32) -> Option<Inst>
    requires { opcode_of word ≡ 0x67 }
    ensures found { IfSome result (IsRow word) }
    ensures only { (rd rs1 : ℕ) (imm : ℤ) → IsRow word (insts.Jalr rd rs1 imm) → result ≡ Some (insts.Jalr rd rs1 imm) }
    ensures whole { result ≡ jalr_of word }
{
    if funct3(word) != 0 {
        return None;
    }
    Some(Inst::Jalr {
        rd: rd(word),
        rs1: rs1(word),
        imm: i_immediate(word),
    })
}

fn branch(word: u32) -> Option<Inst>
    requires { opcode_of word ≡ 0x63 }
    ensures found { IfSome result (IsRow word) }
    ensures only { (op : BranchOp) (rs1 rs2 : ℕ) (imm : ℤ) → IsRow word (insts.Branch op rs1 rs2 imm) → result ≡ Some (insts.Branch op rs1 rs2 imm) }
    ensures whole { result ≡ branch_of word }
{
    let op = branch_op(funct3(word))?;
    Some(Inst::Branch {
        op,
        rs1: rs1(word),
        rs2: rs2(word),
        imm: b_immediate(word),
    })
}

fn load(word: u32) -> Option<Inst>
    requires { opcode_of word ≡ 0x03 }
    ensures found { IfSome result (IsRow word) }
    ensures only { (op : LoadOp) (rd rs1 : ℕ) (imm : ℤ) → IsRow word (insts.Load op rd rs1 imm) → result ≡ Some (insts.Load op rd rs1 imm) }
    ensures whole { result ≡ load_of word }
{
    let op = load_op(funct3(word))?;
    Some(Inst::Load {
        op,
        rd: rd(word),
        rs1: rs1(word),
        imm: i_immediate(word),
    })
}

fn store(word: u32) -> Option<Inst>
    requires { opcode_of word ≡ 0x23 }
    ensures found { IfSome result (IsRow word) }
    ensures only { (op : StoreOp) (rs1 rs2 : ℕ) (imm : ℤ) → IsRow word (insts.Store op rs1 rs2 imm) → result ≡ Some (insts.Store op rs1 rs2 imm) }
    ensures whole { result ≡ store_of word }
{
    let op = store_op(funct3(word))?;
    Some(Inst::Store {
        op,
        rs1: rs1(word),
        rs2: rs2(word),
        imm: s_immediate(word),
    })
}

/// The immediate of a word that is written in this form; None where the number of a shift is not below
/// its limit.
fn operand(word: u32, form: ImmForm) -> Option<i64>
    ensures found { IfSome result (HasOperand word form) }
    ensures only { (imm : ℤ) → HasOperand word form imm → result ≡ Some imm }
    ensures whole { result ≡ operand_of word form }
{
    match form {
        ImmForm::Plain { .. } => Some(i_immediate(word)),
        ImmForm::Shift { limit, .. } => {
            let number = word / RS2 % 64;
            if number < limit {
                Some(i64::from(number))
            } else {
                None
            }
        }
    }
}

fn immediate(word: u32) -> Option<Inst>
    ensures found { IfSome result (IsRow word) }
    ensures only { (op : ImmOp) (rd rs1 : ℕ) (imm : ℤ) → IsRow word (insts.Imm op rd rs1 imm) → result ≡ Some (insts.Imm op rd rs1 imm) }
    ensures whole { result ≡ immediate_of word }
{
    let op = imm_op(opcode(word), funct3(word), word / (2 * FUNCT7))?;
    let imm = operand(word, imm_form(op))?;
    Some(Inst::Imm {
        op,
        rd: rd(word),
        rs1: rs1(word),
        imm,
    })
}

fn multiplication(word: u32) -> Option<Inst>
    requires { word / 2 ^ 25 ≡ 1 }
    ensures found { IfSome result (IsRow word) }
    ensures only { (op : MulOp) (rd rs1 rs2 : ℕ) → IsRow word (insts.Mul op rd rs1 rs2) → result ≡ Some (insts.Mul op rd rs1 rs2) }
    ensures whole { result ≡ multiplication_of word }
{
    let op = mul_op(opcode(word), funct3(word))?;
    Some(Inst::Mul {
        op,
        rd: rd(word),
        rs1: rs1(word),
        rs2: rs2(word),
    })
}

fn operation(word: u32) -> Option<Inst>
    ensures found { IfSome result (IsRow word) }
    ensures only { (op : RegOp) (rd rs1 rs2 : ℕ) → IsRow word (insts.Reg op rd rs1 rs2) → result ≡ Some (insts.Reg op rd rs1 rs2) }
    ensures whole { result ≡ operation_of word }
{
    let op = reg_op(opcode(word), funct3(word), funct7(word))?;
    Some(Inst::Reg {
        op,
        rd: rd(word),
        rs1: rs1(word),
        rs2: rs2(word),
    })
}

/// The instruction on two registers: with funct7 1 a multiplication or division.
fn registers(word: u32) -> Option<Inst>
    ensures found { IfSome result (IsRow word) }
    ensures only_reg { (op : RegOp) (rd rs1 rs2 : ℕ) → IsRow word (insts.Reg op rd rs1 rs2) → result ≡ Some (insts.Reg op rd rs1 rs2) }
    ensures only_mul { (op : MulOp) (rd rs1 rs2 : ℕ) → IsRow word (insts.Mul op rd rs1 rs2) → result ≡ Some (insts.Mul op rd rs1 rs2) }
    ensures whole { result ≡ registers_of word }
{
    if funct7(word) == 1 {
        multiplication(word)
    } else {
        operation(word)
    }
}

/// The number of bytes of an atomic instruction.
fn amo_size(funct3: u32) -> Option<u8>
    ensures found { IfSome result (λ size. ((size ≡ 4) × (funct3 ≡ 2)) ⊎ ((size ≡ 8) × (funct3 ≡ 3))) }
    ensures four { funct3 ≡ 2 → result ≡ Some 4 }
    ensures eight { funct3 ≡ 3 → result ≡ Some 8 }
    ensures whole { result ≡ amo_size_of funct3 }
{
    match funct3 {
        2 => Some(4),
        3 => Some(8),
        _ => None,
    }
}

fn atomic(word: u32) -> Option<Inst>
    requires { opcode_of word ≡ 0x2f }
    ensures found { IfSome result (IsRow word) }
    ensures only { (op : AmoOp) (size : ℕ) (aq rl : Bool) (rd rs1 rs2 : ℕ) → IsRow word (insts.Amo op size aq rl rd rs1 rs2) → result ≡ Some (insts.Amo op size aq rl rd rs1 rs2) }
    ensures whole { result ≡ atomic_of word }
{
    let op = amo_op(funct7(word) / 4)?;
    let size = amo_size(funct3(word))?;
    Some(Inst::Amo {
        op,
        size,
        aq: funct7(word) / 2 % 2 == 1,
        rl: funct7(word) % 2 == 1,
        rd: rd(word),
        rs1: rs1(word),
        rs2: rs2(word),
    })
}

fn fence(word: u32) -> Option<Inst>
    requires { opcode_of word ≡ 0x0f }
    ensures found { IfSome result (IsRow word) }
    ensures only { (rd rs1 : ℕ) (imm : ℤ) → IsRow word (insts.Fence rd rs1 imm) → result ≡ Some (insts.Fence rd rs1 imm) }
    ensures whole { result ≡ fence_of word }
{
    if funct3(word) != 0 {
        return None;
    }
    Some(Inst::Fence {
        rd: rd(word),
        rs1: rs1(word),
        imm: i_immediate(word),
    })
}

fn sfence(word: u32) -> Option<Inst>
    requires { opcode_of word ≡ 0x73 }
    ensures found { IfSome result (IsRow word) }
    ensures only { (rs1 rs2 : ℕ) → IsRow word (insts.Sfence rs1 rs2) → result ≡ Some (insts.Sfence rs1 rs2) }
    ensures whole { result ≡ sfence_of word }
{
    if rd(word) != 0 || funct3(word) != 0 || funct7(word) != 0x09 {
        return None;
    }
    Some(Inst::Sfence {
        rs1: rs1(word),
        rs2: rs2(word),
    })
}

fn system(word: u32) -> Option<Inst>
    requires { opcode_of word ≡ 0x73 }
    ensures found { IfSome result (IsRow word) }
    ensures only_ecall { IsRow word insts.Ecall → result ≡ Some insts.Ecall }
    ensures only_ebreak { IsRow word insts.Ebreak → result ≡ Some insts.Ebreak }
    ensures only_sfence { (rs1 rs2 : ℕ) → IsRow word (insts.Sfence rs1 rs2) → result ≡ Some (insts.Sfence rs1 rs2) }
    ensures whole { result ≡ system_of word }
{
    match word {
        0x00000073 => Some(Inst::Ecall),
        0x00100073 => Some(Inst::Ebreak),
        _ => sfence(word),
    }
}

/// The instruction whose word this is; None exactly where the word is in no row of the instruction
/// table.
#[tactic(auto, unfolding(crate::specs::Decoded::decoded))]
pub fn decode(word: u32) -> Option<Inst>
    ensures found { IfSome result (IsRow word) }
    ensures valid { IfSome result IsInst }
    ensures only { (inst : Inst) → IsRow word inst → result ≡ Some inst }
    ensures whole { result ≡ decoded word }
{
    match opcode(word) {
        0x37 | 0x17 => upper(word),
        0x6f => Some(jal(word)),
        0x67 => jalr(word),
        0x63 => branch(word),
        0x03 => load(word),
        0x23 => store(word),
        0x13 | 0x1b => immediate(word),
        0x33 | 0x3b => registers(word),
        0x2f => atomic(word),
        0x0f => fence(word),
        0x73 => system(word),
        _ => None,
    }
}
