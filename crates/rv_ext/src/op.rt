//! The instructions, one variant for each of a kind.

/// An instruction that multiplies or divides, by the name of the standard. Those that end in `w`
/// work on the low 32 bits of their operands.
#[derive(Clone, Copy, Debug, PartialEq, Eq)]
pub enum MulOp {
    Mul,
    Mulh,
    Mulhsu,
    Mulhu,
    Div,
    Divu,
    Rem,
    Remu,
    Mulw,
    Divw,
    Divuw,
    Remw,
    Remuw,
}

/// An atomic instruction, by what it makes of the old value in memory and of the value in its
/// source register.
#[derive(Clone, Copy, Debug, PartialEq, Eq)]
pub enum AmoOp {
    Swap,
    Add,
    Xor,
    And,
    Or,
    /// The lesser of the two, read as signed numbers.
    Min,
    /// The greater of the two, read as signed numbers.
    Max,
    /// The lesser of the two, read as unsigned numbers.
    Minu,
    /// The greater of the two, read as unsigned numbers.
    Maxu,
}
