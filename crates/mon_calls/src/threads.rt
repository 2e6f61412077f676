//! What the calls on threads leave of the records that they hold.

ghost use Rattle.std.specs.Prelude.{◌≡◌, ℕ, List};
ghost use Rattle.mon_types.specs.declared.thread.Mode.{Mode};
ghost use Rattle.mon_threads.specs.Named.{IsLoadThread, IsEnter, IsAex};
ghost use Rattle.mon_calls.specs.Left.{left_by};

use crate::put::{set_enclave, set_thread};
use lock_plan::Held;
use mon_threads::{
    after_aex, after_delete_thread, after_enter, after_exit, after_load_thread, after_restore,
};
use mon_types::Call;

/// load_thread.
pub fn apply_load_thread(call: &Call, ticket: u32, held: &mut Held)
    requires { IsLoadThread call.now }
    ensures { (mode : Mode) (digest : List ℕ) → held.new ≡ left_by mode call.now digest ticket held.old }
{
    let mut enclave = held.first_enclave();
    let mut thread = held.first_thread();
    after_load_thread(ticket, call, &mut enclave, &mut thread);
    set_enclave(held, enclave);
    set_thread(held, thread);
}

/// delete_thread of slot t, of the enclave in slot e.
pub fn apply_delete_thread(call: &Call, ticket: u32, e: u64, t: u64, held: &mut Held)
    requires { call.now ≡ Call.DeleteThread e t }
    ensures { (mode : Mode) (digest : List ℕ) → held.new ≡ left_by mode call.now digest ticket held.old }
{
    let mut enclave = held.first_enclave();
    let mut thread = held.first_thread();
    after_delete_thread(ticket, call, &mut enclave, &mut thread);
    set_enclave(held, enclave);
    set_thread(held, thread);
}

/// enter.
pub fn apply_enter(call: &Call, ticket: u32, held: &mut Held)
    requires { IsEnter call.now }
    ensures { (mode : Mode) (digest : List ℕ) → held.new ≡ left_by mode call.now digest ticket held.old }
{
    let mut thread = held.first_thread();
    after_enter(ticket, call, &held.first_enclave(), &mut thread);
    set_thread(held, thread);
}

/// exit.
pub fn apply_exit(call: &Call, ticket: u32, held: &mut Held)
    requires { call.now ≡ Call.Exit }
    ensures { (mode : Mode) (digest : List ℕ) → held.new ≡ left_by mode call.now digest ticket held.old }
{
    let mut thread = held.first_thread();
    after_exit(ticket, call, &mut thread);
    set_thread(held, thread);
}

/// aex.
pub fn apply_aex(call: &Call, ticket: u32, held: &mut Held)
    requires { IsAex call.now }
    ensures { (mode : Mode) (digest : List ℕ) → held.new ≡ left_by mode call.now digest ticket held.old }
{
    let mut thread = held.first_thread();
    after_aex(ticket, call, &mut thread);
    set_thread(held, thread);
}

/// restore.
pub fn apply_restore(call: &Call, ticket: u32, held: &mut Held)
    requires { call.now ≡ Call.Restore }
    ensures { (mode : Mode) (digest : List ℕ) → held.new ≡ left_by mode call.now digest ticket held.old }
{
    let mut thread = held.first_thread();
    after_restore(ticket, call, &mut thread);
    set_thread(held, thread);
}
