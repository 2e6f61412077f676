//! What an instruction asks of the machine.

use rv_ext::AmoOp;

/// The effect of one instruction. Where `rd` is 0 nothing is written, because register 0 always
/// reads 0. All but `Next` and `Trap` go on with the instruction after this one, once they are done.
#[derive(Clone, Copy, Debug, PartialEq, Eq)]
pub enum Effect {
    /// Write `value` to register `rd` and go on at `pc`.
    Next {
        pc: u64,
        rd: u8,
        value: u64,
    },
    /// Load `size` bytes, and write to `rd` what `finish_load` makes of them.
    Load {
        address: u64,
        size: u8,
        signed: bool,
        rd: u8,
    },
    /// Store `value`, which fits `size` bytes.
    Store {
        address: u64,
        size: u8,
        value: u64,
    },
    /// Write the old value of `size` bytes to `rd`, its sign extended, and store what `op` makes of it
    /// and `value`.
    Amo {
        address: u64,
        size: u8,
        op: AmoOp,
        value: u64,
        rd: u8,
    },
    /// A monitor call.
    Call,
    /// Nothing to do.
    Fence,
    /// Forget the translations that are kept.
    Flush,
    /// The instruction is not carried out: no register is written.
    Trap {
        cause: u64,
        value: u64,
    },
}
