//! Monitor calls of guest code: the registers, and the changes of context.

ghost use Rattle.std.specs.Prelude.{◌≡◌, false, [], ◌∷◌, replicate, slice_set};
ghost use Rattle.mon_types.specs.declared.thread.Mode.TheVariants as modes;
ghost use Rattle.mon_types.specs.Owns.{os_word};
ghost use Rattle.solo.specs.Core.{mode_now};
ghost use Rattle.solo_runs.specs.Machines.{pc_of, reg_of, regs_from, tables_satp};
ghost use Rattle.solo_runs.specs.GuestCalls.{asked, region_info_asked, satp_asked, entered_by_guest, restored_by_guest};

/// The code of the reply goes to x10 and the words of Ok to x11 upward; the others stay, and the pc grows
/// by 4.
pub fn reply_goes_to_registers()
    ensures words { regs_from region_info_asked 10 ≡ 0 ∷ 1 ∷ os_word ∷ 0 ∷ [] }
    ensures last { reg_of region_info_asked 14 ≡ 0 }
    ensures argument { reg_of region_info_asked 15 ≡ 99 }
    ensures number { reg_of region_info_asked 17 ≡ 5 }
    ensures pc { pc_of region_info_asked ≡ 0x8000_0004 }
{}

/// A refusal has its code alone. No guest makes the call with the number 15.
pub fn refusals_have_codes()
    ensures invalid_value { regs_from (asked 1 0) 10 ≡ 1 ∷ 55 ∷ 0 ∷ 0 ∷ [] }
    ensures invalid_state { reg_of (asked 2 3) 10 ≡ 2 }
    ensures access_denied { reg_of (asked 14 0) 10 ≡ 3 }
    ensures unsupported { reg_of (asked 15 0) 10 ≡ 6 }
    ensures pc { pc_of (asked 1 0) ≡ 0x8000_0004 }
{}

/// Ok of set_satp sets satp.
pub fn set_satp_sets_satp()
    ensures satp { satp_asked.guest.satp ≡ tables_satp }
    ensures reply { reg_of satp_asked 10 ≡ 0 }
    ensures refused { (asked 21 1).guest.satp ≡ 0 }
{}

/// Ok of enter keeps the pc of the OS past the ECALL, and tells the OS nothing yet.
pub fn enter_by_guest_goes_on_past_the_ecall()
    ensures thread { entered_by_guest.contexts.current ≡ record { pc = 0x10000; regs = slice_set (replicate 32 0) 2 0x12000 } }
    ensures os { entered_by_guest.contexts.os ≡ record { pc = 0x8000_0004; regs = slice_set (replicate 32 0) 17 13 } }
    ensures by_guest { entered_by_guest.guest.by_line ≡ false }
    ensures mode { mode_now entered_by_guest ≡ modes.Inside 0 0 }
{}

/// Ok of restore sets the pc and the registers to what was saved, and no further.
pub fn restore_goes_on_at_the_saved_pc()
    ensures { restored_by_guest.contexts.current ≡ record { pc = 0x10008; regs = slice_set (replicate 32 0) 5 3 } }
{}
