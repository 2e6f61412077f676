//! The fields of an instruction word that stand in one place in every format. A field of the
//! word counts its place as often as the field says.

ghost use Rattle.std.specs.Prelude.{◌≡◌};
ghost use Rattle.rv_decode.specs.Parts.{opcode_of, rd_of, funct3_of, rs1_of, rs2_of, funct7_of};

/// The place of rd, bits 11 to 7.
pub const RD: u32 = 1 << 7;
/// The place of funct3, bits 14 to 12.
pub const FUNCT3: u32 = 1 << 12;
/// The place of rs1, bits 19 to 15.
pub const RS1: u32 = 1 << 15;
/// The place of rs2, bits 24 to 20.
pub const RS2: u32 = 1 << 20;
/// The place of funct7, bits 31 to 25.
pub const FUNCT7: u32 = 1 << 25;

/// The opcode, bits 6 to 0.
pub fn opcode(word: u32) -> u32
    ensures { result ≡ opcode_of word }
{
    word % RD
}

/// The number of the destination.
pub fn rd(word: u32) -> u8
    ensures { result ≡ rd_of word }
{
    (word / RD % 32) as u8
}

/// The number in bits 14 to 12.
pub fn funct3(word: u32) -> u32
    ensures { result ≡ funct3_of word }
{
    word / FUNCT3 % 8
}

/// The number of the first source.
pub fn rs1(word: u32) -> u8
    ensures { result ≡ rs1_of word }
{
    (word / RS1 % 32) as u8
}

/// The number of the second source.
pub fn rs2(word: u32) -> u8
    ensures { result ≡ rs2_of word }
{
    (word / RS2 % 32) as u8
}

/// The number in the seven upper bits.
pub fn funct7(word: u32) -> u32
    ensures { result ≡ funct7_of word }
{
    word / FUNCT7
}
