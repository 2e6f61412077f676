//! Runs of monitor calls as moves, written out by hand. For each call there is a list of moves where it is Ok and one
//! where it is refused, so that a slip in the definition of a call's tree, which its laws would pass, fails here.
//! Besides, laws of passes that split and join.
//!
//! Each public function is a law. No code here runs.
#![tactic(auto, unfolding(mon_types::specs::Bits::members, mon_types::specs::Cells::cell_from, mon_types::specs::Enclaves::stage_from, mon_types::specs::Enclaves::root_from, mon_types::specs::Enclaves::mailbox_by, mon_types::specs::Enclaves::mailbox_parts, mon_types::specs::Enclaves::enclave_parts, mon_types::specs::Enclaves::enclave_from, mon_types::specs::Enclaves::root_within, mon_types::specs::Enclaves::enclave_within, mon_types::specs::Objects::width, mon_types::specs::Owns::owner_from, mon_types::specs::Owns::region_by, mon_types::specs::Owns::region_parts, mon_types::specs::Owns::region_from, mon_types::specs::Threads::state_from, mon_types::specs::Threads::thread_parts, mon_types::specs::Threads::thread_from, mon_types::specs::Words::fitting, mon_records::specs::Rows::row_words, mon_records::specs::Rows::objects_of, mon_records::specs::Rows::same_object, mon_records::specs::Rows::words_of, mon_records::specs::EarlyWords::early_words, mon_records::specs::Answers::freed, mon_records::specs::Rebuilt::state_of, loaded_pages::specs::Content::region_zeroed, loaded_pages::specs::Content::page_put, loaded_pages::specs::Content::content_put, loaded_pages::specs::Content::content_after, protocol::specs::Places::same_place, protocol::specs::Places::with_word, protocol::specs::Places::memory_of, protocol::specs::Moves::action_place, protocol::specs::Moves::place_of, protocol::specs::Moves::word_found, protocol::specs::Moves::try_outcome, protocol::specs::Moves::swap_outcome, protocol::specs::Moves::action_outcome, protocol::specs::Moves::outcome_of, protocol::specs::Moves::try_leaves, protocol::specs::Moves::action_leaves, protocol::specs::Moves::leaves, protocol::specs::Moves::left_at, protocol::specs::Moves::memory_after_move, protocol::specs::CallTree::onto, protocol::specs::CallTree::unlocks, protocol::specs::CallTree::zeros, protocol::specs::CallTree::write_unless, protocol::specs::CallTree::row_writes, protocol::specs::CallTree::late_writes, protocol::specs::CallTree::late_if, protocol::specs::CallTree::finish, protocol::specs::CallTree::early_writes, protocol::specs::CallTree::copy_words, protocol::specs::CallTree::copy_page, protocol::specs::CallTree::put_pte, protocol::specs::CallTree::go_on, protocol::specs::CallTree::walk, protocol::specs::CallTree::walk_below, protocol::specs::CallTree::load_if, protocol::specs::CallTree::loaded, protocol::specs::CallTree::loads_if, protocol::specs::CallTree::early_if, protocol::specs::CallTree::decided_by, protocol::specs::CallTree::decided, protocol::specs::CallTree::reads, protocol::specs::CallTree::meets, protocol::specs::CallTree::after_try, protocol::specs::CallTree::lock, protocol::specs::CallTree::lock_all, protocol::specs::CallTree::lock_plan, protocol::specs::CallTree::unless_refused, protocol::specs::CallTree::call_tree, protocol::specs::Views::held_by, protocol::specs::Views::held_after, protocol::specs::Views::held_of, protocol::specs::Views::touch_in, protocol::specs::Views::logged_by, protocol::specs::Views::logged, protocol::specs::Views::core_log, protocol::specs::Views::word_in, protocol::specs::Views::word_again, protocol::specs::Views::answered_by, protocol::specs::Views::answered, protocol::specs::Views::answers_of, protocol::specs::Views::is_last, protocol::specs::Views::call_with, protocol::specs::Views::call_moves, protocol::specs::Views::are_any, protocol::specs::Views::actions_before, protocol::specs::Views::moves_before, protocol::specs::Views::before_call, protocol::specs::Views::issuer_of, protocol::specs::Views::has_drawn, protocol::specs::Runs::moves_with, protocol::specs::Runs::moves_of, protocol::specs::Runs::memory_after, protocol::specs::Runs::run_of, protocol::specs::Layout::object_index, protocol::specs::Layout::row_index, protocol::specs::Layout::place_index, protocol::specs::Right::action_reach, protocol::specs::Right::reach_of, protocol::specs::Contents::stored_so_far, protocol::specs::Logs::under_way_after, protocol::specs::Logs::under_way_by, protocol::specs::Logs::under_way, protocol::specs::Passes::counted, protocol::specs::Passes::split_off, protocol::specs::Passes::views_of, protocol::specs::Passes::keeps, protocol::specs::Passes::pass_after, protocol::specs::Worlds::world_after, protocol::specs::Alone::alone,))]

mod enclaves;
mod layouts;
mod mail;
mod moments;
mod odd_rows;
mod passes;
mod rights;
mod threads;

pub use enclaves::{create_moves, delete_moves, enclave_info_moves, init_moves, set_satp_moves};
pub use layouts::places_are_in_a_row;
pub use mail::{accept_moves, read_moves, send_moves};
pub use moments::{
    calls_are_done, content_is_loaded, entries_are_drawn, freed_is_zero, held_rows_change_by_moves,
    locks_are_held, logs_are_safe, own_words_are_owners, rows_are_records, still_to_do,
    touches_are_held, views_are_given,
};
pub use odd_rows::{odd_entry, odd_rows_of_cells, odd_rows_of_enclaves, odd_rows_of_regions};
pub use passes::{one_move, split_and_join, steps_keep_passes, two_splits};
pub use rights::{right_of_a_touch, right_of_freeing, right_of_loading, right_of_the_source};
pub use threads::{aex_moves, delete_thread_moves, enter_moves, exit_moves, restore_moves};
