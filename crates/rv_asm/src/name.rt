//! The names of statements.

ghost use Rattle.std.specs.Prelude.{◌≡◌};
ghost use Rattle.std.specs.Map.{lookup};
ghost use Rattle.std.specs.Str.{bytes_eq};
ghost use Rattle.rv_asm.specs.Names.{named};
ghost use Rattle.rv_asm.specs.Statements.{bytes_of};

use Width::{Eight, Four};
use rv_decode::{BranchOp, ImmOp, LoadOp, RegOp, StoreOp, UpperOp};
use rv_ext::{AmoOp, MulOp};

/// How many bytes an atomic instruction has.
#[derive(Clone, Copy, Debug, PartialEq, Eq)]
pub enum Width {
    Four,
    Eight,
}

impl Width {
    pub fn bytes(self) -> u8
        ensures { result ≡ bytes_of self }
    {
        match self {
            Width::Four => 4,
            Width::Eight => 8,
        }
    }
}

/// What a statement's name says; it also says which operands follow.
#[derive(Clone, Copy, Debug, PartialEq, Eq)]
pub enum Name {
    Upper(UpperOp),
    Jal,
    Jalr,
    Branch(BranchOp),
    Load(LoadOp),
    Store(StoreOp),
    Imm(ImmOp),
    Reg(RegOp),
    Mul(MulOp),
    /// The operation, its width, and whether it acquires and releases.
    Amo(AmoOp, Width, bool, bool),
    Fence,
    Ecall,
    Ebreak,
    Sfence,
    /// `.word`: a number of 32 bits.
    Word,
    /// `.dword`: a number of 64 bits, its low word first.
    DoubleWord,
    /// `.at`: zero words up to a place.
    At,
}

/// Every name.
const NAMES: [(&str, Name); 141] = [
    ("lui", Name::Upper(UpperOp::Lui)),
    ("auipc", Name::Upper(UpperOp::Auipc)),
    ("jal", Name::Jal),
    ("jalr", Name::Jalr),
    ("beq", Name::Branch(BranchOp::Beq)),
    ("bne", Name::Branch(BranchOp::Bne)),
    ("blt", Name::Branch(BranchOp::Blt)),
    ("bge", Name::Branch(BranchOp::Bge)),
    ("bltu", Name::Branch(BranchOp::Bltu)),
    ("bgeu", Name::Branch(BranchOp::Bgeu)),
    ("lb", Name::Load(LoadOp::Lb)),
    ("lh", Name::Load(LoadOp::Lh)),
    ("lw", Name::Load(LoadOp::Lw)),
    ("ld", Name::Load(LoadOp::Ld)),
    ("lbu", Name::Load(LoadOp::Lbu)),
    ("lhu", Name::Load(LoadOp::Lhu)),
    ("lwu", Name::Load(LoadOp::Lwu)),
    ("sb", Name::Store(StoreOp::Sb)),
    ("sh", Name::Store(StoreOp::Sh)),
    ("sw", Name::Store(StoreOp::Sw)),
    ("sd", Name::Store(StoreOp::Sd)),
    ("addi", Name::Imm(ImmOp::Addi)),
    ("slti", Name::Imm(ImmOp::Slti)),
    ("sltiu", Name::Imm(ImmOp::Sltiu)),
    ("xori", Name::Imm(ImmOp::Xori)),
    ("ori", Name::Imm(ImmOp::Ori)),
    ("andi", Name::Imm(ImmOp::Andi)),
    ("slli", Name::Imm(ImmOp::Slli)),
    ("srli", Name::Imm(ImmOp::Srli)),
    ("srai", Name::Imm(ImmOp::Srai)),
    ("addiw", Name::Imm(ImmOp::Addiw)),
    ("slliw", Name::Imm(ImmOp::Slliw)),
    ("srliw", Name::Imm(ImmOp::Srliw)),
    ("sraiw", Name::Imm(ImmOp::Sraiw)),
    ("add", Name::Reg(RegOp::Add)),
    ("sub", Name::Reg(RegOp::Sub)),
    ("sll", Name::Reg(RegOp::Sll)),
    ("slt", Name::Reg(RegOp::Slt)),
    ("sltu", Name::Reg(RegOp::Sltu)),
    ("xor", Name::Reg(RegOp::Xor)),
    ("srl", Name::Reg(RegOp::Srl)),
    ("sra", Name::Reg(RegOp::Sra)),
    ("or", Name::Reg(RegOp::Or)),
    ("and", Name::Reg(RegOp::And)),
    ("addw", Name::Reg(RegOp::Addw)),
    ("subw", Name::Reg(RegOp::Subw)),
    ("sllw", Name::Reg(RegOp::Sllw)),
    ("srlw", Name::Reg(RegOp::Srlw)),
    ("sraw", Name::Reg(RegOp::Sraw)),
    ("mul", Name::Mul(MulOp::Mul)),
    ("mulh", Name::Mul(MulOp::Mulh)),
    ("mulhsu", Name::Mul(MulOp::Mulhsu)),
    ("mulhu", Name::Mul(MulOp::Mulhu)),
    ("div", Name::Mul(MulOp::Div)),
    ("divu", Name::Mul(MulOp::Divu)),
    ("rem", Name::Mul(MulOp::Rem)),
    ("remu", Name::Mul(MulOp::Remu)),
    ("mulw", Name::Mul(MulOp::Mulw)),
    ("divw", Name::Mul(MulOp::Divw)),
    ("divuw", Name::Mul(MulOp::Divuw)),
    ("remw", Name::Mul(MulOp::Remw)),
    ("remuw", Name::Mul(MulOp::Remuw)),
    ("amoswap.w", Name::Amo(AmoOp::Swap, Four, false, false)),
    ("amoswap.w.aq", Name::Amo(AmoOp::Swap, Four, true, false)),
    ("amoswap.w.rl", Name::Amo(AmoOp::Swap, Four, false, true)),
    ("amoswap.w.aqrl", Name::Amo(AmoOp::Swap, Four, true, true)),
    ("amoswap.d", Name::Amo(AmoOp::Swap, Eight, false, false)),
    ("amoswap.d.aq", Name::Amo(AmoOp::Swap, Eight, true, false)),
    ("amoswap.d.rl", Name::Amo(AmoOp::Swap, Eight, false, true)),
    ("amoswap.d.aqrl", Name::Amo(AmoOp::Swap, Eight, true, true)),
    ("amoadd.w", Name::Amo(AmoOp::Add, Four, false, false)),
    ("amoadd.w.aq", Name::Amo(AmoOp::Add, Four, true, false)),
    ("amoadd.w.rl", Name::Amo(AmoOp::Add, Four, false, true)),
    ("amoadd.w.aqrl", Name::Amo(AmoOp::Add, Four, true, true)),
    ("amoadd.d", Name::Amo(AmoOp::Add, Eight, false, false)),
    ("amoadd.d.aq", Name::Amo(AmoOp::Add, Eight, true, false)),
    ("amoadd.d.rl", Name::Amo(AmoOp::Add, Eight, false, true)),
    ("amoadd.d.aqrl", Name::Amo(AmoOp::Add, Eight, true, true)),
    ("amoxor.w", Name::Amo(AmoOp::Xor, Four, false, false)),
    ("amoxor.w.aq", Name::Amo(AmoOp::Xor, Four, true, false)),
    ("amoxor.w.rl", Name::Amo(AmoOp::Xor, Four, false, true)),
    ("amoxor.w.aqrl", Name::Amo(AmoOp::Xor, Four, true, true)),
    ("amoxor.d", Name::Amo(AmoOp::Xor, Eight, false, false)),
    ("amoxor.d.aq", Name::Amo(AmoOp::Xor, Eight, true, false)),
    ("amoxor.d.rl", Name::Amo(AmoOp::Xor, Eight, false, true)),
    ("amoxor.d.aqrl", Name::Amo(AmoOp::Xor, Eight, true, true)),
    ("amoand.w", Name::Amo(AmoOp::And, Four, false, false)),
    ("amoand.w.aq", Name::Amo(AmoOp::And, Four, true, false)),
    ("amoand.w.rl", Name::Amo(AmoOp::And, Four, false, true)),
    ("amoand.w.aqrl", Name::Amo(AmoOp::And, Four, true, true)),
    ("amoand.d", Name::Amo(AmoOp::And, Eight, false, false)),
    ("amoand.d.aq", Name::Amo(AmoOp::And, Eight, true, false)),
    ("amoand.d.rl", Name::Amo(AmoOp::And, Eight, false, true)),
    ("amoand.d.aqrl", Name::Amo(AmoOp::And, Eight, true, true)),
    ("amoor.w", Name::Amo(AmoOp::Or, Four, false, false)),
    ("amoor.w.aq", Name::Amo(AmoOp::Or, Four, true, false)),
    ("amoor.w.rl", Name::Amo(AmoOp::Or, Four, false, true)),
    ("amoor.w.aqrl", Name::Amo(AmoOp::Or, Four, true, true)),
    ("amoor.d", Name::Amo(AmoOp::Or, Eight, false, false)),
    ("amoor.d.aq", Name::Amo(AmoOp::Or, Eight, true, false)),
    ("amoor.d.rl", Name::Amo(AmoOp::Or, Eight, false, true)),
    ("amoor.d.aqrl", Name::Amo(AmoOp::Or, Eight, true, true)),
    ("amomin.w", Name::Amo(AmoOp::Min, Four, false, false)),
    ("amomin.w.aq", Name::Amo(AmoOp::Min, Four, true, false)),
    ("amomin.w.rl", Name::Amo(AmoOp::Min, Four, false, true)),
    ("amomin.w.aqrl", Name::Amo(AmoOp::Min, Four, true, true)),
    ("amomin.d", Name::Amo(AmoOp::Min, Eight, false, false)),
    ("amomin.d.aq", Name::Amo(AmoOp::Min, Eight, true, false)),
    ("amomin.d.rl", Name::Amo(AmoOp::Min, Eight, false, true)),
    ("amomin.d.aqrl", Name::Amo(AmoOp::Min, Eight, true, true)),
    ("amomax.w", Name::Amo(AmoOp::Max, Four, false, false)),
    ("amomax.w.aq", Name::Amo(AmoOp::Max, Four, true, false)),
    ("amomax.w.rl", Name::Amo(AmoOp::Max, Four, false, true)),
    ("amomax.w.aqrl", Name::Amo(AmoOp::Max, Four, true, true)),
    ("amomax.d", Name::Amo(AmoOp::Max, Eight, false, false)),
    ("amomax.d.aq", Name::Amo(AmoOp::Max, Eight, true, false)),
    ("amomax.d.rl", Name::Amo(AmoOp::Max, Eight, false, true)),
    ("amomax.d.aqrl", Name::Amo(AmoOp::Max, Eight, true, true)),
    ("amominu.w", Name::Amo(AmoOp::Minu, Four, false, false)),
    ("amominu.w.aq", Name::Amo(AmoOp::Minu, Four, true, false)),
    ("amominu.w.rl", Name::Amo(AmoOp::Minu, Four, false, true)),
    ("amominu.w.aqrl", Name::Amo(AmoOp::Minu, Four, true, true)),
    ("amominu.d", Name::Amo(AmoOp::Minu, Eight, false, false)),
    ("amominu.d.aq", Name::Amo(AmoOp::Minu, Eight, true, false)),
    ("amominu.d.rl", Name::Amo(AmoOp::Minu, Eight, false, true)),
    ("amominu.d.aqrl", Name::Amo(AmoOp::Minu, Eight, true, true)),
    ("amomaxu.w", Name::Amo(AmoOp::Maxu, Four, false, false)),
    ("amomaxu.w.aq", Name::Amo(AmoOp::Maxu, Four, true, false)),
    ("amomaxu.w.rl", Name::Amo(AmoOp::Maxu, Four, false, true)),
    ("amomaxu.w.aqrl", Name::Amo(AmoOp::Maxu, Four, true, true)),
    ("amomaxu.d", Name::Amo(AmoOp::Maxu, Eight, false, false)),
    ("amomaxu.d.aq", Name::Amo(AmoOp::Maxu, Eight, true, false)),
    ("amomaxu.d.rl", Name::Amo(AmoOp::Maxu, Eight, false, true)),
    ("amomaxu.d.aqrl", Name::Amo(AmoOp::Maxu, Eight, true, true)),
    ("fence", Name::Fence),
    ("ecall", Name::Ecall),
    ("ebreak", Name::Ebreak),
    ("sfence.vma", Name::Sfence),
    (".word", Name::Word),
    (".dword", Name::DoubleWord),
    (".at", Name::At),
];

impl Name {
    /// The statement whose name the word is; None where it is no name.
    #[tactic(auto, unfolding(crate::specs::Names::named, crate::specs::Names::name_text))]
    pub fn of_word(word: &[u8]) -> Option<Name>
        ensures { result ≡ named word.now }
    {
        Name::among(&NAMES, word)
    }

    fn among(names: &[(&str, Name)], word: &[u8]) -> Option<Name>
        ensures { result ≡ lookup (λ text. bytes_eq word.now text.now) names.now }
    {
        for (text, name) in names {
            if word == text.as_bytes() {
                return Some(*name);
            }
        }
        None
    }
}
