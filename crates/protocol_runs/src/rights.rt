//! Why a move on DRAM is allowed: each right holds of a move, and where the ground for it is taken away none does.

ghost use Rattle.std.specs.Prelude.{[]};
ghost use Rattle.protocol.specs.declared.action.Move.TheVariants as moves;
ghost use Rattle.protocol.specs.Right.{Right};
ghost use Rattle.protocol.specs.Alone.{begin};
ghost use Rattle.protocol.specs.Permits.{has_lock, has_looked};
ghost use Rattle.protocol_runs.specs.Rights.{call_loads, call_stores, has_e3, e3_loads, r1_is_free, has_freed};

/// The region is in a touched period.
pub fn right_of_a_touch()
    ensures holds { Right begin 0 (has_looked 2) (moves.Store 1024 7) }
    ensures fails { Right begin 0 [] (moves.Store 1024 7) → ⊥ }
{}

/// It is a load, and the region is held, and the OS's.
pub fn right_of_the_source()
    ensures holds { Right begin 0 has_lock (call_loads 512) }
    ensures no_store { Right begin 0 has_lock (call_stores 512 7) → ⊥ }
    ensures not_the_os_s { Right r1_is_free 0 has_lock (call_loads 512) → ⊥ }
{}

/// The region is that of a Loading enclave, which is held.
pub fn right_of_loading()
    ensures holds { Right e3_loads 0 has_e3 (call_stores 512 7) }
    ensures other_region { Right e3_loads 0 has_e3 (call_stores 1536 7) → ⊥ }
{}

/// It stores 0, and this core's last ticket freed the region, which it holds.
pub fn right_of_freeing()
    ensures holds { Right r1_is_free 0 has_freed (call_stores 512 0) }
    ensures not_zero { Right r1_is_free 0 has_freed (call_stores 512 7) → ⊥ }
    ensures not_freed { Right r1_is_free 0 has_lock (call_stores 512 0) → ⊥ }
{}
