//! The text of an instruction.

ghost use Rattle.std.specs.Prelude.{◌≡◌, ◌≤◌, ◌+◌, ◌++◌, ◌∷◌, [], ℕ, length};
ghost use Rattle.std.specs.Fmt.{decimal};
ghost use Rattle.arrayvec.specs.ArrayString.{array_string_len};
ghost use Rattle.rv_decode.specs.Table.{IsInst, IsRow};
ghost use Rattle.rv_asm.specs.Grammar.{IsText};
ghost use Rattle.rv_asm.specs.Names.{name_text, name_of};
ghost use Rattle.rv_asm.specs.Printing.{register_text, number_text, upper_bits, based_text, displaced_text, operand_texts, behind, printed};

use crate::spelling::{
    amo_name, branch_name, imm_name, load_name, mul_name, order, reg_name, store_name, upper_name,
};
use arrayvec::ArrayString;
use itoa::Buffer;
use rv_decode::Inst;

/// A text that is being made.
type Text = ArrayString<64>;

/// The text of an instruction: its name, and behind a space its operands, in the form that `assemble`
/// reads. Offsets are numbers. It takes no memory.
#[tactic(auto, unfolding(crate::specs::Printing::printed))]
pub fn print(inst: &Inst) -> ArrayString<64>
    ensures exact { result.bytes ≡ printed inst.now }
    ensures reads_back { IsInst inst.now → (word : ℕ) → IsRow word inst.now → IsText 1 result.bytes (word ∷ []) }
{
    let mut text = ArrayString::new();
    add_name(&mut text, inst);
    add_operands(&mut text, inst);
    text
}

/// The name.
#[tactic(auto, unfolding(crate::specs::Names::name_text))]
fn add_name(text: &mut Text, inst: &Inst)
    requires { text.old.bytes ≡ [] }
    ensures text { text.new.bytes ≡ name_text (name_of inst.now) }
    ensures len { array_string_len text.new ≤ 14 }
{
    match *inst {
        Inst::Upper { op, .. } => text.push_str(upper_name(op)),
        Inst::Jal { .. } => text.push_str("jal"),
        Inst::Jalr { .. } => text.push_str("jalr"),
        Inst::Branch { op, .. } => text.push_str(branch_name(op)),
        Inst::Load { op, .. } => text.push_str(load_name(op)),
        Inst::Store { op, .. } => text.push_str(store_name(op)),
        Inst::Imm { op, .. } => text.push_str(imm_name(op)),
        Inst::Reg { op, .. } => text.push_str(reg_name(op)),
        Inst::Mul { op, .. } => text.push_str(mul_name(op)),
        Inst::Amo {
            op,
            size,
            aq,
            rl,
            ..
        } => {
            text.push_str(amo_name(op));
            text.push_str(if size == 4 { ".w" } else { ".d" });
            text.push_str(order(aq, rl));
        }
        Inst::Fence { .. } => text.push_str("fence"),
        Inst::Ecall => text.push_str("ecall"),
        Inst::Ebreak => text.push_str("ebreak"),
        Inst::Sfence { .. } => text.push_str("sfence.vma"),
    }
}

/// What stands behind the name: a space and the operands, or nothing.
fn add_operands(text: &mut Text, inst: &Inst)
    requires { array_string_len text.old ≤ 14 }
    ensures text { text.new.bytes ≡ text.old.bytes ++ behind (operand_texts inst.now) }
    ensures within { array_string_len text.new ≤ 64 }
{
    match *inst {
        Inst::Upper { rd, imm, .. } => add_upper(text, rd, imm),
        Inst::Jal { rd, imm } => add_jump(text, rd, imm),
        Inst::Jalr { rd, rs1, imm } => add_access(text, rd, imm, rs1),
        Inst::Branch { rs1, rs2, imm, .. } => add_immediate(text, rs1, rs2, imm),
        Inst::Load { rd, rs1, imm, .. } => add_access(text, rd, imm, rs1),
        Inst::Store { rs1, rs2, imm, .. } => add_access(text, rs2, imm, rs1),
        Inst::Imm { rd, rs1, imm, .. } => add_immediate(text, rd, rs1, imm),
        Inst::Reg { rd, rs1, rs2, .. } => add_three(text, rd, rs1, rs2),
        Inst::Mul { rd, rs1, rs2, .. } => add_three(text, rd, rs1, rs2),
        Inst::Amo { rd, rs1, rs2, .. } => add_atomic(text, rd, rs2, rs1),
        Inst::Fence { rd, rs1, imm } => add_immediate(text, rd, rs1, imm),
        Inst::Ecall | Inst::Ebreak => {}
        Inst::Sfence { rs1, rs2 } => add_two(text, rs1, rs2),
    }
}

/// A space, a register and the upper bits of an immediate.
fn add_upper(text: &mut Text, rd: u8, imm: i64)
    requires { array_string_len text.old ≤ 14 }
    ensures text { text.new.bytes ≡ text.old.bytes ++ behind (register_text rd ∷ decimal (upper_bits imm) ∷ []) }
    ensures within { array_string_len text.new ≤ 64 }
{
    add_first(text, rd);
    text.push_str(", ");
    let mut buffer = Buffer::new();
    text.push_str(buffer.format(upper_bits(imm)));
}

/// The upper bits of an immediate.
fn upper_bits(imm: i64) -> u64
    ensures { result ≡ upper_bits imm }
{
    let bits = if imm >= 0 { imm } else { imm + (1 << 32) };
    bits.unsigned_abs() / 4096
}

/// A space, a register and a number.
fn add_jump(text: &mut Text, rd: u8, imm: i64)
    requires { array_string_len text.old ≤ 14 }
    ensures text { text.new.bytes ≡ text.old.bytes ++ behind (register_text rd ∷ number_text imm ∷ []) }
    ensures within { array_string_len text.new ≤ 64 }
{
    add_first(text, rd);
    text.push_str(", ");
    add_number(text, imm);
}

/// A space, a register, and a number with a base register.
fn add_access(text: &mut Text, first: u8, imm: i64, base: u8)
    requires { array_string_len text.old ≤ 14 }
    ensures text { text.new.bytes ≡ text.old.bytes ++ behind (register_text first ∷ displaced_text imm base ∷ []) }
    ensures within { array_string_len text.new ≤ 64 }
{
    add_first(text, first);
    text.push_str(", ");
    add_number(text, imm);
    add_based(text, base);
}

/// A space, two registers and a number.
fn add_immediate(text: &mut Text, first: u8, second: u8, imm: i64)
    requires { array_string_len text.old ≤ 14 }
    ensures text { text.new.bytes ≡ text.old.bytes ++ behind (register_text first ∷ register_text second ∷ number_text imm ∷ []) }
    ensures within { array_string_len text.new ≤ 64 }
{
    add_two(text, first, second);
    text.push_str(", ");
    add_number(text, imm);
}

/// A space and three registers.
fn add_three(text: &mut Text, first: u8, second: u8, third: u8)
    requires { array_string_len text.old ≤ 14 }
    ensures text { text.new.bytes ≡ text.old.bytes ++ behind (register_text first ∷ register_text second ∷ register_text third ∷ []) }
    ensures within { array_string_len text.new ≤ 64 }
{
    add_two(text, first, second);
    text.push_str(", ");
    add_register(text, third);
}

/// A space, two registers and a base register.
fn add_atomic(text: &mut Text, first: u8, second: u8, base: u8)
    requires { array_string_len text.old ≤ 14 }
    ensures text { text.new.bytes ≡ text.old.bytes ++ behind (register_text first ∷ register_text second ∷ based_text base ∷ []) }
    ensures within { array_string_len text.new ≤ 64 }
{
    add_two(text, first, second);
    text.push_str(", ");
    add_based(text, base);
}

/// A space and two registers.
fn add_two(text: &mut Text, first: u8, second: u8)
    requires { array_string_len text.old ≤ 14 }
    ensures text { text.new.bytes ≡ text.old.bytes ++ behind (register_text first ∷ register_text second ∷ []) }
    ensures len { array_string_len text.new ≤ array_string_len text.old + 11 }
{
    add_first(text, first);
    text.push_str(", ");
    add_register(text, second);
}

/// A space and a register.
fn add_first(text: &mut Text, r: u8)
    requires { array_string_len text.old ≤ 14 }
    ensures text { text.new.bytes ≡ text.old.bytes ++ behind (register_text r ∷ []) }
    ensures len { array_string_len text.new ≤ array_string_len text.old + 5 }
{
    text.push_str(" ");
    add_register(text, r);
}

/// A register.
fn add_register(text: &mut Text, r: u8)
    requires { array_string_len text.old ≤ 60 }
    ensures text { text.new.bytes ≡ text.old.bytes ++ register_text r }
    ensures len { array_string_len text.new ≤ array_string_len text.old + 4 }
{
    text.push_str("x");
    let mut buffer = Buffer::new();
    text.push_str(buffer.format(r));
}

/// A register between parentheses.
fn add_based(text: &mut Text, r: u8)
    requires { array_string_len text.old ≤ 58 }
    ensures text { text.new.bytes ≡ text.old.bytes ++ based_text r }
    ensures within { array_string_len text.new ≤ 64 }
{
    text.push_str("(");
    add_register(text, r);
    text.push_str(")");
}

/// A number in decimal digits.
fn add_number(text: &mut Text, n: i64)
    requires { array_string_len text.old ≤ 44 }
    ensures text { text.new.bytes ≡ text.old.bytes ++ number_text n }
    ensures len { array_string_len text.new ≤ array_string_len text.old + 20 }
{
    let mut buffer = Buffer::new();
    text.push_str(buffer.format(n));
}
