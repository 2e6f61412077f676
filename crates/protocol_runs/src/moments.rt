//! The items of the invariant, each at moments at which it holds and at one at which it does not.

ghost use Rattle.std.specs.Prelude.{[], ◌∷◌};
ghost use Rattle.mon_types.specs.declared.call.Call.TheVariants as calls;
ghost use Rattle.protocol.specs.declared.action.Action.TheVariants as actions;
ghost use Rattle.protocol.specs.Invariant.{CallingDoes};
ghost use Rattle.protocol.specs.Passes.{PassesAreGiven, first_pass};
ghost use Rattle.protocol.specs.Logs.{EntriesAreLegal, LogsAreSafe};
ghost use Rattle.protocol.specs.Records.{LocksNameHolders, FreeRowsStand, HeldRowsStand, OwnWordsAreTrue, TouchesHold};
ghost use Rattle.protocol.specs.Contents.{LoadingHold, IdleHoldZeros};
ghost use Rattle.mon_model.specs.Examples.{r1};
ghost use Rattle.protocol.specs.Alone.{two};
ghost use Rattle.protocol_runs.specs.Moments.{begun, twice, lost_entry, locked, lock_of_nobody, held_unlocked, other_row, written_by_nobody, written_early, drawn_early, other_owner, touched_since_0, touched_since_5, one, found_of_nobody, freed_moves, loading_moves, storing_moves, unread_moves, with_first_word, with_zeros, read_first, StillMakes, has_drawn_block, has_written_late};

/// Item 1: at the start core 0 has its one view; two views of it are none of the list's.
pub fn views_are_given()
    ensures holds { PassesAreGiven two [] 1 (first_pass ∷ []) begun }
    ensures fails { PassesAreGiven two [] 1 twice begun → ⊥ }
{}

/// Item 2: each ticket has its entry.
pub fn entries_are_drawn()
    ensures holds { EntriesAreLegal two begun }
    ensures fails { EntriesAreLegal two lost_entry → ⊥ }
{}

/// Item 3: a lock word names who holds the lock, and a held lock has a word.
pub fn locks_are_held()
    ensures holds { LocksNameHolders two locked }
    ensures nobody { LocksNameHolders two lock_of_nobody → ⊥ }
    ensures no_word { LocksNameHolders two held_unlocked → ⊥ }
{}

/// Item 4: a row that nobody holds is the record.
pub fn rows_are_records()
    ensures holds { FreeRowsStand two begun }
    ensures fails { FreeRowsStand two other_row → ⊥ }
{}

/// Item 5: a held row is the record too, but for what the holder has written or has still to write.
pub fn held_rows_change_by_moves()
    ensures holds { HeldRowsStand two locked }
    ensures fails { HeldRowsStand two written_by_nobody → ⊥ }
    ensures early { HeldRowsStand two written_early }
    ensures late { HeldRowsStand two drawn_early }
{}

/// Item 6: an own-word that reads Owned tells the owner.
pub fn own_words_are_owners()
    ensures holds { OwnWordsAreTrue two begun }
    ensures fails { OwnWordsAreTrue two other_owner → ⊥ }
{}

/// Item 7: a touched period is that of the region.
pub fn touches_are_held()
    ensures holds { TouchesHold two touched_since_0 }
    ensures fails { TouchesHold two touched_since_5 → ⊥ }
{}

/// Item 8: a Loading enclave's pages hold what was loaded, and what the call that holds it has stored.
pub fn content_is_loaded()
    ensures holds { LoadingHold one (with_zeros loading_moves) }
    ensures fails { LoadingHold one (with_first_word loading_moves 7) → ⊥ }
    ensures unread { LoadingHold one (with_zeros unread_moves) → ⊥ }
    ensures stored { LoadingHold one (with_first_word storing_moves 7) }
    ensures not_stored { LoadingHold one (with_first_word storing_moves 8) → ⊥ }
{}

/// Item 9: a Free region holds zeros once its free is over.
pub fn freed_is_zero()
    ensures holds { IdleHoldZeros one (with_zeros freed_moves) }
    ensures fails { IdleHoldZeros one (with_first_word freed_moves 7) → ⊥ }
{}

/// Item 10: a touch is one of a period, and a lock that was found held has a holder.
pub fn logs_are_safe()
    ensures holds { LogsAreSafe two begun }
    ensures no_period { LogsAreSafe two touched_since_5 → ⊥ }
    ensures no_holder { LogsAreSafe two found_of_nobody → ⊥ }
{}

/// Each call under way is some call's: a block that has its lock is, and no call begins with a Read.
pub fn calls_are_done()
    ensures holds { CallingDoes two locked }
    ensures fails { CallingDoes two read_first → ⊥ }
{}

/// What a call has still to do: behind its Draw a block writes the ticket, once.
pub fn still_to_do()
    ensures to_do { StillMakes (calls.Block 1) has_drawn_block (actions.Write r1 1 1) }
    ensures other_word { StillMakes (calls.Block 1) has_drawn_block (actions.Write r1 1 2) → ⊥ }
    ensures done { StillMakes (calls.Block 1) has_written_late (actions.Write r1 1 1) → ⊥ }
{}
