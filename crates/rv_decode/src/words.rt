//! Words, made of their fields, format by format.

ghost use Rattle.std.specs.Prelude.{◌≡◌, ◌+◌, ◌*◌, ◌^◌, ◌<◌};
ghost use Rattle.rv_decode.specs.Formats.{IsR, IsI, IsS, IsB, IsU, IsJ};
ghost use Rattle.rv_decode.specs.Table.{IsImmediate, IsRegister};

use crate::fields::{FUNCT3, FUNCT7, RD, RS1, RS2};
use crate::immediates::bits_of;

/// The word of format R.
pub fn r_word(opcode: u32, rd: u8, funct3: u32, rs1: u8, rs2: u8, funct7: u32) -> u32
    requires opcode_fits { opcode < 128 }
    requires rd_fits { IsRegister rd }
    requires funct3_fits { funct3 < 8 }
    requires rs1_fits { IsRegister rs1 }
    requires rs2_fits { IsRegister rs2 }
    requires funct7_fits { funct7 < 128 }
    ensures { IsR result opcode rd funct3 rs1 rs2 funct7 }
{
    let destination = RD * u32::from(rd);
    let sources = RS1 * u32::from(rs1) + RS2 * u32::from(rs2);
    opcode + destination + FUNCT3 * funct3 + sources + FUNCT7 * funct7
}

/// The word of format I.
pub fn i_word(opcode: u32, rd: u8, funct3: u32, rs1: u8, imm: i64) -> u32
    requires opcode_fits { opcode < 128 }
    requires rd_fits { IsRegister rd }
    requires funct3_fits { funct3 < 8 }
    requires rs1_fits { IsRegister rs1 }
    requires imm_fits { IsImmediate 2048 1 imm }
    ensures { IsI result opcode rd funct3 rs1 imm }
{
    let bits = bits_of(imm, 1 << 11);
    let registers = RD * u32::from(rd) + RS1 * u32::from(rs1);
    opcode + registers + FUNCT3 * funct3 + RS2 * bits
}

/// The word of a shift by a number.
pub fn shift_word(opcode: u32, rd: u8, funct3: u32, rs1: u8, upper: u32, number: u32) -> u32
    requires opcode_fits { opcode < 128 }
    requires rd_fits { IsRegister rd }
    requires funct3_fits { funct3 < 8 }
    requires rs1_fits { IsRegister rs1 }
    requires upper_fits { upper < 64 }
    requires number_fits { number < 64 }
    ensures { result ≡ opcode + 2 ^ 7 * rd + 2 ^ 12 * funct3 + 2 ^ 15 * rs1 + 2 ^ 20 * number + 2 ^ 26 * upper }
{
    let registers = RD * u32::from(rd) + RS1 * u32::from(rs1);
    opcode + registers + FUNCT3 * funct3 + RS2 * number + 2 * FUNCT7 * upper
}

/// The word of format S.
pub fn s_word(opcode: u32, funct3: u32, rs1: u8, rs2: u8, imm: i64) -> u32
    requires opcode_fits { opcode < 128 }
    requires funct3_fits { funct3 < 8 }
    requires rs1_fits { IsRegister rs1 }
    requires rs2_fits { IsRegister rs2 }
    requires imm_fits { IsImmediate 2048 1 imm }
    ensures { IsS result opcode funct3 rs1 rs2 imm }
{
    let bits = bits_of(imm, 1 << 11);
    let sources = RS1 * u32::from(rs1) + RS2 * u32::from(rs2);
    opcode + RD * (bits % 32) + FUNCT3 * funct3 + sources + FUNCT7 * (bits / 32)
}

/// The word of format B.
pub fn b_word(opcode: u32, funct3: u32, rs1: u8, rs2: u8, imm: i64) -> u32
    requires opcode_fits { opcode < 128 }
    requires funct3_fits { funct3 < 8 }
    requires rs1_fits { IsRegister rs1 }
    requires rs2_fits { IsRegister rs2 }
    requires imm_fits { IsImmediate 4096 2 imm }
    ensures { IsB result opcode funct3 rs1 rs2 imm }
{
    let bits = bits_of(imm, 1 << 12);
    let low = RD * (bits / 2048 % 2) + 2 * RD * (bits / 2 % 16);
    let sources = RS1 * u32::from(rs1) + RS2 * u32::from(rs2);
    let high = FUNCT7 * (bits / 32 % 64) + (1 << 31) * (bits / 4096);
    opcode + low + FUNCT3 * funct3 + sources + high
}

/// The word of format U.
pub fn u_word(opcode: u32, rd: u8, imm: i64) -> u32
    requires opcode_fits { opcode < 128 }
    requires rd_fits { IsRegister rd }
    requires imm_fits { IsImmediate 2147483648 4096 imm }
    ensures { IsU result opcode rd imm }
{
    opcode + RD * u32::from(rd) + bits_of(imm, 1 << 31)
}

/// The word of format J.
pub fn j_word(opcode: u32, rd: u8, imm: i64) -> u32
    requires opcode_fits { opcode < 128 }
    requires rd_fits { IsRegister rd }
    requires imm_fits { IsImmediate 1048576 2 imm }
    ensures { IsJ result opcode rd imm }
{
    let bits = bits_of(imm, 1 << 20);
    let middle = FUNCT3 * (bits / 4096 % 256) + RS2 * (bits / 2048 % 2);
    let high = 2 * RS2 * (bits / 2 % 1024) + (1 << 31) * (bits / (1 << 20));
    opcode + RD * u32::from(rd) + middle + high
}
