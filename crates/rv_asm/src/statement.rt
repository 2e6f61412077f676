//! Statements.

ghost use Rattle.std.specs.Prelude.{◌≡◌, ◌<◌, ◌^◌, IfOk, pos, neg_ℤ, ◌≤ℤ◌};
ghost use Rattle.rv_decode.specs.declared.inst.Inst.TheVariants as insts;
ghost use Rattle.rv_decode.specs.Table.{imm_form, IsInst, IsImmediate};
ghost use Rattle.rv_asm.specs.Text.{operands_of};
ghost use Rattle.rv_asm.specs.Parts.{spots_in};
ghost use Rattle.rv_asm.specs.Statements.{statement_of, upper_of, upper_statement, jal_statement, branch_statement, displaced, displaced_operands, least_of, most_of, immediate_of, immediate_operands, registers_of, registers_operands, amo_statement, sfence_statement, alone, word_statement, double_word_statement, fill_statement, FitsStatement};

use crate::fault::AsmKind;
use crate::label::Labels;
use crate::name::{Name, Width};
use crate::operand::{based, displaced, fill, none, number, one, register, target, three, two};
use rv_decode::{BranchOp, ImmOp, Inst, LoadOp, RegOp, StoreOp, UpperOp};
use rv_ext::{AmoOp, MulOp};

/// A statement. It stands for as many words as it says.
#[derive(Clone, Copy, Debug, PartialEq, Eq)]
pub enum Statement {
    /// One word, the instruction's.
    Make(Inst),
    /// One word.
    Word(u32),
    /// Two words, the low one first.
    DoubleWord(u64),
    /// So many zero words.
    Fill(u32),
}

/// The statement of this name with the operands that the text has, behind so many words of a text that
/// has at most `limit` words.
#[tactic(auto, unfolding(crate::specs::Statements::statement_of))]
pub fn read_statement<'a>(
    labels: &Labels<'a>,
    limit: u32,
    words: u32,
    name: Name,
    text: &'a [u8],
) -> Result<Statement, AsmKind>
    ensures value { result ≡ statement_of limit (spots_in labels.now) words name (operands_of text.now) }
    ensures fits { IfOk result FitsStatement }
{
    match name {
        Name::Upper(op) => read_upper(op, text),
        Name::Jal => read_jal(labels, words, text),
        Name::Jalr => read_jalr(text),
        Name::Branch(op) => read_branch(labels, words, op, text),
        Name::Load(op) => read_load(op, text),
        Name::Store(op) => read_store(op, text),
        Name::Imm(op) => read_imm(op, text),
        Name::Reg(op) => read_reg(op, text),
        Name::Mul(op) => read_mul(op, text),
        Name::Amo(op, width, aq, rl) => read_amo(op, width, aq, rl, text),
        Name::Fence => read_fence(text),
        Name::Ecall => read_alone(Inst::Ecall, text),
        Name::Ebreak => read_alone(Inst::Ebreak, text),
        Name::Sfence => read_sfence(text),
        Name::Word => read_word(text),
        Name::DoubleWord => read_double_word(text),
        Name::At => read_fill(limit, words, text),
    }
}

fn read_upper(op: UpperOp, text: &[u8]) -> Result<Statement, AsmKind>
    ensures value { result ≡ upper_statement op (operands_of text.now) }
    ensures fits { IfOk result FitsStatement }
{
    let (rd, imm) = two(text)?;
    let rd = register(rd)?;
    let imm = upper_immediate(number(imm, 0, 0xf_ffff)? as i64);
    Ok(Statement::Make(Inst::Upper { op, rd, imm }))
}

/// The upper immediate of twenty bits, as a number of 32 bits with a sign.
fn upper_immediate(n: i64) -> i64
    requires least { pos 0 ≤ℤ n }
    requires most { n ≤ℤ pos 1048575 }
    ensures value { result ≡ upper_of n }
    ensures fits { IsImmediate (2 ^ 31) 4096 result }
{
    if n >= 1 << 19 {
        4096 * n - (1 << 32)
    } else {
        4096 * n
    }
}

fn read_jal<'a>(labels: &Labels<'a>, words: u32, text: &'a [u8]) -> Result<Statement, AsmKind>
    ensures value { result ≡ jal_statement (spots_in labels.now) words (operands_of text.now) }
    ensures fits { IfOk result FitsStatement }
{
    let (rd, to) = two(text)?;
    let rd = register(rd)?;
    let imm = target(labels, 1 << 20, words, to)?;
    Ok(Statement::Make(Inst::Jal { rd, imm }))
}

fn read_branch<'a>(
    labels: &Labels<'a>,
    words: u32,
    op: BranchOp,
    text: &'a [u8],
) -> Result<Statement, AsmKind>
    ensures value { result ≡ branch_statement (spots_in labels.now) words op (operands_of text.now) }
    ensures fits { IfOk result FitsStatement }
{
    let (rs1, rs2, to) = three(text)?;
    let rs1 = register(rs1)?;
    let rs2 = register(rs2)?;
    let imm = target(labels, 4096, words, to)?;
    Ok(Statement::Make(Inst::Branch { op, rs1, rs2, imm }))
}

fn read_jalr(text: &[u8]) -> Result<Statement, AsmKind>
    ensures value { result ≡ displaced insts.Jalr (operands_of text.now) }
    ensures fits { IfOk result FitsStatement }
{
    let (rd, imm, rs1) = read_displaced(text)?;
    Ok(Statement::Make(Inst::Jalr { rd, rs1, imm }))
}

fn read_load(op: LoadOp, text: &[u8]) -> Result<Statement, AsmKind>
    ensures value { result ≡ displaced (insts.Load op) (operands_of text.now) }
    ensures fits { IfOk result FitsStatement }
{
    let (rd, imm, rs1) = read_displaced(text)?;
    Ok(Statement::Make(Inst::Load { op, rd, rs1, imm }))
}

fn read_store(op: StoreOp, text: &[u8]) -> Result<Statement, AsmKind>
    ensures value { result ≡ displaced (λ rs2 rs1 imm. insts.Store op rs1 rs2 imm) (operands_of text.now) }
    ensures fits { IfOk result FitsStatement }
{
    let (rs2, imm, rs1) = read_displaced(text)?;
    Ok(Statement::Make(Inst::Store { op, rs1, rs2, imm }))
}

fn read_displaced(text: &[u8]) -> Result<(u8, i64, u8), AsmKind>
    ensures value { result ≡ displaced_operands (operands_of text.now) }
    ensures fits { IfOk result (λ p. (p.0 < 32) × IsImmediate 2048 1 p.1 × (p.2 < 32)) }
{
    let (first, place) = two(text)?;
    let first = register(first)?;
    let (imm, base) = displaced(place)?;
    Ok((first, imm, base))
}

fn read_imm(op: ImmOp, text: &[u8]) -> Result<Statement, AsmKind>
    ensures value { result ≡ immediate_of (least_of (imm_form op)) (most_of (imm_form op)) (insts.Imm op) (operands_of text.now) }
    ensures fits { IfOk result FitsStatement }
{
    let (least, most) = imm_range(op);
    let (rd, rs1, imm) = read_immediate(text, least, most)?;
    Ok(Statement::Make(Inst::Imm { op, rd, rs1, imm }))
}

fn read_fence(text: &[u8]) -> Result<Statement, AsmKind>
    ensures value { result ≡ immediate_of (neg_ℤ (pos 2048)) (pos 2047) insts.Fence (operands_of text.now) }
    ensures fits { IfOk result FitsStatement }
{
    let (rd, rs1, imm) = read_immediate(text, -2048, 2047)?;
    Ok(Statement::Make(Inst::Fence { rd, rs1, imm }))
}

/// The least and the most that the immediate of an operation may be.
fn imm_range(op: ImmOp) -> (i64, i64)
    ensures least { result.0 ≡ least_of (imm_form op) }
    ensures most { result.1 ≡ most_of (imm_form op) }
{
    match op {
        ImmOp::Addi
        | ImmOp::Slti
        | ImmOp::Sltiu
        | ImmOp::Xori
        | ImmOp::Ori
        | ImmOp::Andi
        | ImmOp::Addiw => (-2048, 2047),
        ImmOp::Slli | ImmOp::Srli | ImmOp::Srai => (0, 63),
        ImmOp::Slliw | ImmOp::Srliw | ImmOp::Sraiw => (0, 31),
    }
}

fn read_immediate(text: &[u8], least: i64, most: i64) -> Result<(u8, u8, i64), AsmKind>
    ensures value { result ≡ immediate_operands least most (operands_of text.now) }
    ensures first { IfOk result (λ p. p.0 < 32) }
    ensures second { IfOk result (λ p. p.1 < 32) }
    ensures least { IfOk result (λ p. least ≤ℤ p.2) }
    ensures most { IfOk result (λ p. p.2 ≤ℤ most) }
{
    let (first, second, imm) = three(text)?;
    let first = register(first)?;
    let second = register(second)?;
    let imm = number(imm, i128::from(least), i128::from(most))?;
    Ok((first, second, imm as i64))
}

fn read_reg(op: RegOp, text: &[u8]) -> Result<Statement, AsmKind>
    ensures value { result ≡ registers_of (insts.Reg op) (operands_of text.now) }
    ensures fits { IfOk result FitsStatement }
{
    let (rd, rs1, rs2) = read_registers(text)?;
    Ok(Statement::Make(Inst::Reg { op, rd, rs1, rs2 }))
}

fn read_mul(op: MulOp, text: &[u8]) -> Result<Statement, AsmKind>
    ensures value { result ≡ registers_of (insts.Mul op) (operands_of text.now) }
    ensures fits { IfOk result FitsStatement }
{
    let (rd, rs1, rs2) = read_registers(text)?;
    Ok(Statement::Make(Inst::Mul { op, rd, rs1, rs2 }))
}

fn read_registers(text: &[u8]) -> Result<(u8, u8, u8), AsmKind>
    ensures value { result ≡ registers_operands (operands_of text.now) }
    ensures fits { IfOk result (λ p. (p.0 < 32) × (p.1 < 32) × (p.2 < 32)) }
{
    let (first, second, third) = three(text)?;
    let first = register(first)?;
    let second = register(second)?;
    let third = register(third)?;
    Ok((first, second, third))
}

fn read_amo(op: AmoOp, width: Width, aq: bool, rl: bool, text: &[u8]) -> Result<Statement, AsmKind>
    ensures value { result ≡ amo_statement op width aq rl (operands_of text.now) }
    ensures fits { IfOk result FitsStatement }
{
    let (rd, rs2, rs1) = three(text)?;
    let rd = register(rd)?;
    let rs2 = register(rs2)?;
    let rs1 = based(rs1)?;
    Ok(Statement::Make(Inst::Amo {
        op,
        size: width.bytes(),
        aq,
        rl,
        rd,
        rs1,
        rs2,
    }))
}

fn read_sfence(text: &[u8]) -> Result<Statement, AsmKind>
    ensures value { result ≡ sfence_statement (operands_of text.now) }
    ensures fits { IfOk result FitsStatement }
{
    let (rs1, rs2) = two(text)?;
    let rs1 = register(rs1)?;
    let rs2 = register(rs2)?;
    Ok(Statement::Make(Inst::Sfence { rs1, rs2 }))
}

fn read_alone(inst: Inst, text: &[u8]) -> Result<Statement, AsmKind>
    requires { IsInst inst }
    ensures value { result ≡ alone inst (operands_of text.now) }
    ensures fits { IfOk result FitsStatement }
{
    none(text)?;
    Ok(Statement::Make(inst))
}

fn read_word(text: &[u8]) -> Result<Statement, AsmKind>
    ensures value { result ≡ word_statement (operands_of text.now) }
    ensures fits { IfOk result FitsStatement }
{
    let n = number(one(text)?, 0, 0xffff_ffff)?;
    Ok(Statement::Word(n as u32))
}

fn read_double_word(text: &[u8]) -> Result<Statement, AsmKind>
    ensures value { result ≡ double_word_statement (operands_of text.now) }
    ensures fits { IfOk result FitsStatement }
{
    let n = number(one(text)?, 0, 0xffff_ffff_ffff_ffff)?;
    Ok(Statement::DoubleWord(n as u64))
}

fn read_fill(limit: u32, words: u32, text: &[u8]) -> Result<Statement, AsmKind>
    ensures value { result ≡ fill_statement limit words (operands_of text.now) }
    ensures fits { IfOk result FitsStatement }
{
    let count = fill(limit, u64::from(words), text)?;
    Ok(Statement::Fill(count))
}
