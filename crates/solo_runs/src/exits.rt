//! Enclaves that are left by a trap, by a tick or by their own exit, and those that are not.

ghost use Rattle.std.specs.Prelude.{◌≡◌, ◌+◌, true, false, [], ◌∷◌, ◌++◌};
ghost use Rattle.mon_types.specs.declared.thread.Mode.TheVariants as modes;
ghost use Rattle.hist.specs.declared.event.Event.TheVariants as events;
ghost use Rattle.mon_model.specs.State.{thread_at};
ghost use Rattle.solo.specs.Core.{mode_now};
ghost use Rattle.solo_runs.specs.Entries.{saved_at, exit_entry, trap, own_touched};
ghost use Rattle.solo_runs.specs.Machines.{pc_of, reg_of, regs_from};
ghost use Rattle.solo_runs.specs.Exits.{no_instruction, ticked_inside, trapped_inside, returned, entered_twice, loaded_inside, no_page_inside, fenced_inside};

/// `tick` leaves an enclave with a cause of its own and the value 0, and saves the pc and the registers.
pub fn tick_leaves_an_enclave()
    ensures mode { mode_now ticked_inside ≡ modes.Os }
    ensures log { ticked_inside.log ≡ exit_entry 0x10000 9223372036854775813 ∷ [] }
    ensures pc { pc_of ticked_inside ≡ 0x8000_0000 }
    ensures registers { regs_from ticked_inside 10 ≡ 0 ∷ 1 ∷ 9223372036854775813 ∷ 0 ∷ [] }
    ensures saved { (thread_at ticked_inside.state 0).saved ≡ saved_at 0x10000 9223372036854775813 }
    ensures ticket { (thread_at ticked_inside.state 0).saved_at ≡ 1 }
{}

/// A trap in an enclave is an exit with its cause and value, and no trap is logged.
pub fn trap_inside_is_an_exit()
    ensures log { (trapped_inside true).log ≡ own_touched ++ events.Touch 5 14 ∷ exit_entry 0x10000 2 ∷ [] }
    ensures registers { regs_from (trapped_inside true) 10 ≡ 0 ∷ 1 ∷ 2 ∷ no_instruction ∷ [] }
{}

/// It ends the `run` line where a line of the script entered; else the line goes on in OS mode.
pub fn trap_inside_ends_the_line_of_who_entered()
    ensures by_line { reg_of (trapped_inside true) 5 ≡ 0 }
    ensures by_guest { reg_of (trapped_inside false) 5 ≡ 2 }
{}

/// The enclave's own exit gives the OS its registers back, with 0 in x10 to x13, and ends the line in the
/// same cases.
pub fn return_ends_the_line_of_who_entered()
    ensures mode { mode_now (returned true) ≡ modes.Os }
    ensures pc { pc_of (returned true) ≡ 0x8000_0000 }
    ensures registers { regs_from (returned true) 10 ≡ 0 ∷ 0 ∷ 0 ∷ 0 ∷ [] }
    ensures by_line { reg_of (returned true) 5 ≡ 0 }
    ensures by_guest { reg_of (returned false) 5 ≡ 2 }
{}

/// Who entered is told by the last enter that was Ok.
pub fn last_enter_tells_who()
    ensures by_guest { entered_twice.guest.by_line ≡ false }
    ensures counted { reg_of entered_twice 5 ≡ 2 }
{}

/// A load by a line in an enclave is by its page tables, and the word is put in its x10.
pub fn load_line_inside_is_the_enclave_s()
    ensures register { reg_of loaded_inside 10 ≡ 77 }
    ensures pc { pc_of loaded_inside ≡ 0x10000 }
    ensures mode { mode_now loaded_inside ≡ modes.Inside 0 0 }
{}

/// A trap of such a line is an exit.
pub fn load_line_inside_exits()
    ensures log { no_page_inside.log ≡ own_touched ++ exit_entry 0x10000 13 ∷ [] }
    ensures registers { regs_from no_page_inside 10 ≡ 0 ∷ 1 ∷ 13 ∷ 0x13000 ∷ [] }
{}

/// `sfence.vma` in an enclave is an illegal instruction.
pub fn sfence_inside_is_illegal()
    ensures { regs_from fenced_inside 10 ≡ 0 ∷ 1 ∷ 2 ∷ 0x1200_0073 ∷ [] }
{}
