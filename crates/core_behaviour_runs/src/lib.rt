//! Runs of cores by their scripts, written out by hand, so that a slip in the definition of what a core does, which its
//! laws would pass, fails here.
//!
//! Each public function is a law about runs that compute. No code here runs.
#![tactic(auto, unfolding(mon_types::specs::Bits::members, mon_types::specs::Cells::cell_from, mon_types::specs::Enclaves::stage_from, mon_types::specs::Enclaves::root_from, mon_types::specs::Enclaves::mailbox_by, mon_types::specs::Enclaves::mailbox_parts, mon_types::specs::Enclaves::enclave_parts, mon_types::specs::Enclaves::enclave_from, mon_types::specs::Enclaves::root_within, mon_types::specs::Enclaves::enclave_within, mon_types::specs::Objects::width, mon_types::specs::Owns::owner_from, mon_types::specs::Owns::region_by, mon_types::specs::Owns::region_parts, mon_types::specs::Owns::region_from, mon_types::specs::Threads::state_from, mon_types::specs::Threads::thread_parts, mon_types::specs::Threads::thread_from, mon_types::specs::Words::fitting, mon_records::specs::Rows::row_words, mon_records::specs::Rows::objects_of, mon_records::specs::Rows::same_object, mon_records::specs::Rows::words_of, mon_records::specs::EarlyWords::early_words, mon_records::specs::Answers::freed, mon_records::specs::Rebuilt::state_of, loaded_pages::specs::Content::region_zeroed, loaded_pages::specs::Content::page_put, loaded_pages::specs::Content::content_put, loaded_pages::specs::Content::content_after, protocol::specs::Places::same_place, protocol::specs::Places::with_word, protocol::specs::Places::memory_of, protocol::specs::Moves::action_place, protocol::specs::Moves::place_of, protocol::specs::Moves::word_found, protocol::specs::Moves::try_outcome, protocol::specs::Moves::swap_outcome, protocol::specs::Moves::action_outcome, protocol::specs::Moves::outcome_of, protocol::specs::Moves::try_leaves, protocol::specs::Moves::action_leaves, protocol::specs::Moves::leaves, protocol::specs::Moves::left_at, protocol::specs::Moves::memory_after_move, protocol::specs::CallTree::onto, protocol::specs::CallTree::unlocks, protocol::specs::CallTree::zeros, protocol::specs::CallTree::write_unless, protocol::specs::CallTree::row_writes, protocol::specs::CallTree::late_writes, protocol::specs::CallTree::late_if, protocol::specs::CallTree::finish, protocol::specs::CallTree::early_writes, protocol::specs::CallTree::copy_words, protocol::specs::CallTree::copy_page, protocol::specs::CallTree::put_pte, protocol::specs::CallTree::go_on, protocol::specs::CallTree::walk, protocol::specs::CallTree::walk_below, protocol::specs::CallTree::load_if, protocol::specs::CallTree::loaded, protocol::specs::CallTree::loads_if, protocol::specs::CallTree::early_if, protocol::specs::CallTree::decided_by, protocol::specs::CallTree::decided, protocol::specs::CallTree::reads, protocol::specs::CallTree::meets, protocol::specs::CallTree::after_try, protocol::specs::CallTree::lock, protocol::specs::CallTree::lock_all, protocol::specs::CallTree::lock_plan, protocol::specs::CallTree::unless_refused, protocol::specs::CallTree::call_tree, protocol::specs::Views::held_by, protocol::specs::Views::held_after, protocol::specs::Views::held_of, protocol::specs::Views::touch_in, protocol::specs::Views::logged_by, protocol::specs::Views::logged, protocol::specs::Views::core_log, protocol::specs::Views::word_in, protocol::specs::Views::word_again, protocol::specs::Views::answered_by, protocol::specs::Views::answered, protocol::specs::Views::answers_of, protocol::specs::Views::is_last, protocol::specs::Views::call_with, protocol::specs::Views::call_moves, protocol::specs::Views::are_any, protocol::specs::Views::actions_before, protocol::specs::Views::moves_before, protocol::specs::Views::before_call, protocol::specs::Views::issuer_of, protocol::specs::Views::has_drawn, protocol::specs::Runs::moves_with, protocol::specs::Runs::moves_of, protocol::specs::Runs::memory_after, protocol::specs::Runs::run_of, protocol::specs::Layout::object_index, protocol::specs::Layout::row_index, protocol::specs::Layout::place_index, protocol::specs::Right::action_reach, protocol::specs::Right::reach_of, protocol::specs::Contents::stored_so_far, protocol::specs::Logs::under_way_after, protocol::specs::Logs::under_way_by, protocol::specs::Logs::under_way, protocol::specs::Passes::counted, protocol::specs::Passes::split_off, protocol::specs::Passes::views_of, protocol::specs::Passes::keeps, protocol::specs::Passes::pass_after, protocol::specs::Worlds::world_after, image_memory::specs::StartMemory::start_memory, rv_decode::specs::Decoded::decoded, mon_types::specs::Calls::call_of, core_behaviour::specs::Course::first_of, core_behaviour::specs::Course::behind, core_behaviour::specs::Course::left_of, core_behaviour::specs::Called::in_call, core_behaviour::specs::Called::reply_in, core_behaviour::specs::Called::found_in, core_behaviour::specs::Accesses::walked, core_behaviour::specs::Lines::turns, core_behaviour::specs::Lines::lines_from, core_behaviour::specs::Runs::step_from, core_behaviour::specs::Runs::stepped, core_behaviour::specs::Runs::run_under, core_behaviour::specs::Runs::rounds, core_behaviour::specs::Runs::finished_run, core_behaviour::specs::RunLaw::cores_of, crate::specs::Alone::alone))]

mod collision;
mod entering;
mod exits;
mod guests;
mod limits;
mod looks;
mod parts;
mod race;
mod two_calls;

pub use collision::{collision_by_a_schedule, collision_is_finished};
pub use entering::{
    enclave_has_its_own_tables, guest_enters_and_comes_back, restore_goes_on_where_it_was,
};
pub use exits::{retry_that_is_ok, tick_leaves, trap_inside_leaves};
pub use guests::{
    guest_is_told_of_a_lock, sfence_empties_the_cache, sfence_inside_is_illegal, trap_ends_its_line,
};
pub use limits::{limit_comes_before_a_retry, limit_comes_before_a_turn, run_0_has_one_retry};
pub use looks::{
    cores_step_in_turn, early_write_is_seen, flush_forgets_touches, satp_leads_a_walk,
};
pub use parts::{
    exit_is_tried_before_a_line, exit_is_tried_before_a_turn, first_exit_stays,
    line_needs_80_events, line_needs_600_answers, tick_is_tried,
};
pub use race::narrow_stores_of_two_cores;
pub use two_calls::two_calls_of_one_core;
