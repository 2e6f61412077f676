//! The calls on threads but load_thread.

ghost use Rattle.std.specs.Prelude.{◌≡◌};
ghost use Rattle.mon_types.specs.declared.call.Call.TheVariants as calls;
ghost use Rattle.protocol.specs.Alone.{begin, by_os, by_enclave, all_moves};
ghost use Rattle.protocol_runs.specs.ThreadRuns.{ready, entered, saved_words, with_saved, with_t2, delete_thread_ok, delete_thread_refused, enter_ok, enter_refused, exit_ok, exit_refused, aex_ok, aex_refused, restore_ok, restore_refused};

/// A delete_thread writes the count and the slot.
pub fn delete_thread_moves()
    ensures ok { all_moves (with_t2 ready) by_os (calls.DeleteThread 3 2) ≡ delete_thread_ok }
    ensures refused { all_moves (with_t2 entered) by_os (calls.DeleteThread 3 2) ≡ delete_thread_refused }
{}

/// An enter writes one word.
pub fn enter_moves()
    ensures ok { all_moves (with_t2 ready) by_os (calls.Enter 3 2) ≡ enter_ok }
    ensures refused { all_moves (with_t2 entered) by_os (calls.Enter 3 2) ≡ enter_refused }
{}

/// An exit tries its own thread alone.
pub fn exit_moves()
    ensures ok { all_moves (with_t2 entered) by_enclave calls.Exit ≡ exit_ok }
    ensures refused { all_moves begin by_os calls.Exit ≡ exit_refused }
{}

/// An aex writes the saved words.
pub fn aex_moves()
    ensures ok { all_moves (with_t2 entered) by_enclave (calls.Aex saved_words) ≡ aex_ok }
    ensures refused { all_moves begin by_os (calls.Aex saved_words) ≡ aex_refused }
{}

/// A restore writes zeros over them.
pub fn restore_moves()
    ensures ok { all_moves (with_t2 with_saved) by_enclave calls.Restore ≡ restore_ok }
    ensures refused { all_moves (with_t2 entered) by_enclave calls.Restore ≡ restore_refused }
{}
