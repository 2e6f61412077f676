//! An enclave that is entered, left and gone back to, by a core that is alone.

ghost use Rattle.std.specs.Prelude.{◌≡◌};
ghost use Rattle.core_behaviour_runs.specs.Entering.{entered_by_line, line_told, entered_by_guest, guest_told, entered_again, again_told, gone_back, back_told};

/// A line enters an enclave; an access in its range is by its own tables, and looks for its own regions; behind its
/// exit the same address is none of DRAM.
pub fn enclave_has_its_own_tables()
    ensures { entered_by_line ≡ line_told }
{}

/// An ECALL enters it: the thread begins at its entry, with its stack pointer. Its trap gives the core back to the OS,
/// which goes on behind the ECALL, in the same `run` line.
pub fn guest_enters_and_comes_back()
    ensures { entered_by_guest ≡ guest_told }
{}

/// A thread that is entered again begins at its entry, with 1 in x10, and its restore makes it go on with the pc and
/// the registers that the first exit has saved.
pub fn restore_goes_on_where_it_was()
    ensures entered { entered_again ≡ again_told }
    ensures restored { gone_back ≡ back_told }
{}
