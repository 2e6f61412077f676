//! Moves that a view permits, and moves that it does not.

ghost use Rattle.std.specs.Prelude.{◌≡◌, []};
ghost use Rattle.mon_types.specs.Replies.{done};
ghost use Rattle.mon_types.specs.declared.region.Owner.TheVariants as owners;
ghost use Rattle.mon_types.specs.declared.call.Call.TheVariants as calls;
ghost use Rattle.protocol.specs.declared.action.Action.TheVariants as actions;
ghost use Rattle.protocol.specs.declared.action.Move.TheVariants as moves;
ghost use Rattle.protocol.specs.Permitted.{Permitted, HasSerial};
ghost use Rattle.protocol.specs.Runs.{IsRun};
ghost use Rattle.mon_model.specs.Examples.{r1};
ghost use Rattle.protocol.specs.Alone.{two};
ghost use Rattle.protocol.specs.Collision.{block_draft, collision};
ghost use Rattle.protocol.specs.Permits.{has_lock, has_row, has_written, has_looked, looked_and_locked, GoesOn, wrong_serial, wrong_call, wrong_tried, wrong_reply, wrong_page};

/// Each move of the two cores is permitted.
pub fn collision_is_permitted()
    ensures { IsRun two [] collision }
{}

/// A core looks outside calls, at a region of the machine, for the OS or for the enclave that it is inside.
pub fn looks()
    ensures permitted { Permitted two 0 [] (moves.Look 2 owners.Os) }
    ensures in_call { Permitted two 0 has_lock (moves.Look 2 owners.Os) → ⊥ }
    ensures no_region { Permitted two 0 [] (moves.Look 8 owners.Os) → ⊥ }
    ensures not_inside { Permitted two 0 [] (moves.Look 2 (owners.Enclave 3)) → ⊥ }
{}

/// It reaches words of DRAM outside calls, and of touched periods alone.
pub fn reaches()
    ensures load { Permitted two 0 (has_looked 2) (moves.Load 1024) }
    ensures store { Permitted two 0 (has_looked 2) (moves.Store 1024 7) }
    ensures swap { Permitted two 0 (has_looked 2) (moves.Swap 1024 0 7) }
    ensures untouched { Permitted two 0 [] (moves.Load 1024) → ⊥ }
    ensures other_region { Permitted two 0 (has_looked 2) (moves.Store 512 7) → ⊥ }
    ensures in_call { Permitted two 0 looked_and_locked (moves.Swap 1024 0 7) → ⊥ }
    ensures no_word { Permitted two 0 (has_looked 0) (moves.Load 4096) → ⊥ }
{}

/// A call goes on as its tree does: a block reads the whole row, and writes before it draws.
pub fn goes_on()
    ensures first { Permitted two 0 [] (moves.InCall (actions.TryLock r1)) }
    ensures read { Permitted two 0 has_lock (moves.InCall (actions.Read r1 0)) }
    ensures draw { Permitted two 0 has_written (moves.InCall (actions.Draw (block_draft done))) }
    ensures not_read_yet { GoesOn (calls.Block 1) has_lock (actions.Write r1 0 2) → ⊥ }
    ensures not_written_yet { GoesOn (calls.Block 1) has_row (actions.Draw (block_draft done)) → ⊥ }
    ensures not_drawn_yet { GoesOn (calls.Block 1) has_written (actions.Unlock r1) → ⊥ }
{}

/// The draft of its Draw has the call, the serial, the tried objects, the reply and no page; and no Draw has a serial of
/// 16,384.
pub fn draws_its_draft()
    ensures serial { GoesOn (calls.Block 1) has_written (actions.Draw wrong_serial) → ⊥ }
    ensures call { GoesOn (calls.Block 1) has_written (actions.Draw wrong_call) → ⊥ }
    ensures tried { GoesOn (calls.Block 1) has_written (actions.Draw wrong_tried) → ⊥ }
    ensures reply { GoesOn (calls.Block 1) has_written (actions.Draw wrong_reply) → ⊥ }
    ensures page { GoesOn (calls.Block 1) has_written (actions.Draw wrong_page) → ⊥ }
    ensures last { HasSerial 16383 (actions.Draw (block_draft done)) }
    ensures too_many { HasSerial 16384 (actions.Draw (block_draft done)) → ⊥ }
{}
