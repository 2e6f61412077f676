//! Runs of the machine of one core, written out by hand. For each sentence of how a core works there is a
//! run whose
//! end would be another if the sentence were left out or turned, so that a slip in the definition of the
//! machine,
//! which passes every proof of its code, fails here.
//!
//! Each public function is a law about runs that compute. No code here runs.
#![tactic(auto, unfolding(solo::specs::Solo::core_from, solo::specs::Solo::turns, rv_decode::specs::Decoded::decoded, mon_types::specs::Calls::call_of, image_memory::specs::StartMemory::start_memory))]

mod accesses;
mod budgets;
mod cache;
mod causes;
mod exits;
mod guest_calls;
mod scripts;
mod starts;
mod walks;
mod words;

pub use accesses::{
    cached_page_is_not_looked_at, enclave_has_its_range, flush_forgets_touches,
    look_that_is_not_good_faults, misalignment_comes_first, outside_dram_is_an_access_fault,
    outside_its_range_it_reaches_the_os, sfence_keeps_touches, touch_has_the_period,
};
pub use budgets::{
    a_line_needs_80_events, a_line_needs_600_answers, limit_before_a_turn_ends_the_script,
};
pub use cache::{
    fill_drops_the_oldest_of_its_set, five_calls_clear_touches, five_calls_clear_translations,
    forbidding_entry_is_a_miss, found_entry_is_used, other_calls_clear_nothing,
};
pub use causes::{
    illegal_word_is_the_value, misaligned_fetch_traps, misaligned_jump_traps, trap_leaves_registers,
};
pub use exits::{
    last_enter_tells_who, load_line_inside_exits, load_line_inside_is_the_enclave_s,
    return_ends_the_line_of_who_entered, sfence_inside_is_illegal, tick_leaves_an_enclave,
    trap_inside_ends_the_line_of_who_entered, trap_inside_is_an_exit,
};
pub use guest_calls::{
    enter_by_guest_goes_on_past_the_ecall, refusals_have_codes, reply_goes_to_registers,
    restore_goes_on_at_the_saved_pc, set_satp_sets_satp,
};
pub use scripts::{
    call_lines_are_of_the_present_mode, call_lines_change_no_register, enter_by_line_keeps_the_pc,
    enter_tells_of_a_save, exit_by_line_gives_back, load_and_store_are_accesses,
    pc_and_reg_are_for_the_os, restore_by_line_is_a_change_of_context, run_makes_its_turns,
    their_traps_leave_registers, tick_is_nothing_to_the_os, trap_ends_its_line,
};
pub use starts::starts_as_the_image_says;
pub use walks::{
    address_without_page_is_not_walked, atomics_translate_as_stores, page_faults_are_of_the_access,
    walk_inside_is_the_enclave_s, walk_looks_at_the_addressed_page, walk_looks_before_each_entry,
    walk_outside_its_range_is_the_os_s, walk_past_dram_is_an_access_fault,
};
pub use words::{
    atomic_is_a_load_and_a_store, atomic_reads_its_operand_first,
    atomic_that_changes_nothing_loads, faulting_store_stores_nothing, fence_does_nothing,
    load_leaves_x0, load_takes_bytes_of_a_word, narrow_store_loads_its_word,
};
