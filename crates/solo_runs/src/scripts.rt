//! Cores and scripts: what each line of a script does.

ghost use Rattle.std.specs.Prelude.{◌≡◌, true, [], ◌∷◌, replicate, slice_set};
ghost use Rattle.mon_types.specs.declared.script.Line.TheVariants as lines;
ghost use Rattle.mon_types.specs.declared.call.Call.TheVariants as calls;
ghost use Rattle.mon_types.specs.declared.reply.Reply.TheVariants as replies;
ghost use Rattle.hist.specs.declared.event.Event.TheVariants as events;
ghost use Rattle.dram_map.specs.Words.{word_at};
ghost use Rattle.hist.specs.Rows.{entry};
ghost use Rattle.solo_runs.specs.Entries.{trap};
ghost use Rattle.solo_runs.specs.Machines.{pc_of, reg_of, regs_from, counting, ready_core, inside_core, after_lines};
ghost use Rattle.solo_runs.specs.Scripts.{three_turns, twice_at_breakpoint, stored_and_loaded, both_outside, both_set, both_set_inside, two_calls, created_inside, entered_by_line, left_by_line, entered_again, restored_by_line};

/// `run N` makes N turns of one instruction.
pub fn run_makes_its_turns()
    ensures counted { reg_of three_turns 5 ≡ 2 }
    ensures pc { pc_of three_turns ≡ 0x8000_0004 }
    ensures none { after_lines counting (lines.Run 0 ∷ []) ≡ counting }
{}

/// A trap in OS mode ends the line and is logged, and the script goes on with the next line; the pc stays.
pub fn trap_ends_its_line()
    ensures log { twice_at_breakpoint.log ≡ events.Touch 0 0 ∷ trap 1 3 0x8000_0004 ∷ trap 2 3 0x8000_0004 ∷ [] }
    ensures counted { reg_of twice_at_breakpoint 5 ≡ 1 }
    ensures pc { pc_of twice_at_breakpoint ≡ 0x8000_0004 }
    ensures goes_on { reg_of twice_at_breakpoint 9 ≡ 1 }
{}

/// `load` puts a word in x10, `store` stores one, each by one access of 8 bytes, and the pc stays.
pub fn load_and_store_are_accesses()
    ensures register { reg_of stored_and_loaded 10 ≡ 77 }
    ensures word { word_at stored_and_loaded.words 513 ≡ 77 }
    ensures answers { stored_and_loaded.answers ≡ 1 ∷ 77 ∷ [] }
    ensures log { stored_and_loaded.log ≡ events.Touch 1 0 ∷ [] }
    ensures pc { pc_of stored_and_loaded ≡ 0x8000_0000 }
{}

/// A trap of such a line leaves the pc, the registers and DRAM as they were.
pub fn their_traps_leave_registers()
    ensures log { both_outside.log ≡ trap 1 5 0x7000 ∷ trap 2 7 0x7000 ∷ [] }
    ensures contexts { both_outside.contexts ≡ counting.contexts }
    ensures words { both_outside.words ≡ counting.words }
{}

/// `tick` does nothing in OS mode.
pub fn tick_is_nothing_to_the_os()
    ensures { after_lines counting (lines.Tick ∷ []) ≡ counting }
{}

/// `pc` and `reg` set the pc and a register in OS mode, and do nothing in an enclave. x0 is never changed.
pub fn pc_and_reg_are_for_the_os()
    ensures pc { pc_of both_set ≡ 0x8000_0010 }
    ensures register { reg_of both_set 5 ≡ 9 }
    ensures zero { after_lines counting (lines.SetReg 0 9 ∷ []) ≡ counting }
    ensures inside { both_set_inside ≡ inside_core true 0 }
{}

/// A line that makes a call changes no register, whatever the reply has to tell.
pub fn call_lines_change_no_register()
    ensures { two_calls.contexts ≡ counting.contexts }
{}

/// It makes the call in the mode in which the core is.
pub fn call_lines_are_of_the_present_mode()
    ensures { created_inside.log ≡ events.Entry (entry 1 0 0 (calls.Create 1 4096 4096) replies.AccessDenied []) ∷ [] }
{}

/// Enter by a line keeps the pc and the registers of the OS, and gives the thread its own.
pub fn enter_by_line_keeps_the_pc()
    ensures thread { entered_by_line.contexts.current ≡ record { pc = 0x10000; regs = slice_set (replicate 32 0) 2 0x12000 } }
    ensures os { entered_by_line.contexts.os ≡ record { pc = 0x8000_0000; regs = slice_set (replicate 32 0) 12 9 } }
    ensures by_line { entered_by_line.guest.by_line ≡ true }
{}

/// Exit by a line gives them back, with 0 in x10 to x13.
pub fn exit_by_line_gives_back()
    ensures pc { pc_of left_by_line ≡ 0x8000_0000 }
    ensures registers { regs_from left_by_line 10 ≡ 0 ∷ 0 ∷ 0 ∷ 0 ∷ [] }
{}

/// Enter has 1 in x10 where an exit saved something.
pub fn enter_tells_of_a_save()
    ensures { entered_again.contexts.current ≡ record { pc = 0x10000; regs = slice_set (slice_set (replicate 32 0) 2 0x12000) 10 1 } }
{}

/// Restore by a line is a change of context: the thread has the pc and the registers that were saved.
pub fn restore_by_line_is_a_change_of_context()
    ensures { restored_by_line.contexts.current ≡ record { pc = 0x10000; regs = slice_set (replicate 32 0) 2 0x12000 } }
{}
