//! Laws: for each field of what stands, of a stamp, of what is held and of a note, a small run that this field alone
//! refuses. The numbers are those of the fields in their order, from 0.

ghost use Rattle.std.specs.Prelude.{[], ◌∷◌};
ghost use Rattle.mon_types.specs.Shape.{plain};
ghost use Rattle.mon_types.specs.declared.region.Owner.TheVariants as owners;
ghost use Rattle.mon_model.specs.State.{start};
ghost use Rattle.mon_model.specs.Examples.{r3};
ghost use Rattle.hist.specs.declared.event.Event.TheVariants as events;
ghost use Rattle.hist.specs.Busy.{idle};
ghost use Rattle.hist.specs.Rows.{block_3, flushed, met, logged, wrongly_refused, before_foreign, holds_now};
ghost use Rattle.hist_stands.specs.States.{state_now};
ghost use Rattle.hist_stands.specs.Fields.{HistoryBut, StampBut, StandsBut, HeldBut, FoundBut, ButNoneIs, IsButNone};
ghost use Rattle.hist_stands.specs.Runs.{each_logs, foreign, blocked, blocked_and_flushed, freed};

/// The definitions field by field are the definitions, where no field is to fail.
pub fn fields_are_all()
    ensures fields { ButNoneIs }
    ensures definitions { IsButNone }
{}

/// A first ticket of 2: no history, so no logs of it stand.
pub fn late_ticket()
    ensures tickets { HistoryBut 0 (plain 1) (block_3 2 0 0 ∷ []) }
    ensures legal { StandsBut 0 (plain 1) (block_3 2 0 0 ∷ []) (each_logs (logged (block_3 2 0 0 ∷ []))) }
{}

/// A block of an owned region that is refused.
pub fn refused_block()
    ensures { HistoryBut 1 (plain 1) (wrongly_refused ∷ []) }
{}

/// A stamp from after a ticket that is not drawn yet.
pub fn ticket_to_come()
    ensures { StampBut 0 (plain 1) [] 0 [] [] 3 0 owners.Os 1 }
{}

/// A stamp from before a ticket that stands before the touch.
pub fn entry_before()
    ensures { StampBut 1 (plain 1) (flushed 1 0 0 ∷ []) 0 (logged (flushed 1 0 0 ∷ [])) [] 3 0 owners.Os 0 }
{}

/// A stamp from after a ticket that stands behind the touch.
pub fn entry_behind()
    ensures { StampBut 2 (plain 1) (flushed 1 0 0 ∷ []) 0 [] (logged (flushed 1 0 0 ∷ [])) 3 0 owners.Os 1 }
{}

/// A touch of a region that is blocked.
pub fn blocked_touch()
    ensures { StampBut 3 (plain 1) blocked 0 (logged blocked) [] 3 0 owners.Os 1 }
{}

/// A touch of an enclave's region from outside.
pub fn foreign_touch()
    ensures { StampBut 4 (plain 1) foreign 0 before_foreign [] 3 5 (owners.Enclave 0) 5 }
{}

/// A touch twice, with no clearing entry between.
pub fn second_touch()
    ensures { StampBut 5 (plain 1) [] 0 (events.Touch 3 0 ∷ []) [] 3 0 owners.Os 0 }
{}

/// An entry of a core that the machine does not have.
pub fn unknown_core()
    ensures { StandsBut 1 (plain 1) (block_3 1 1 0 ∷ []) (each_logs []) }
{}

/// A first serial of 1.
pub fn late_serial()
    ensures { StandsBut 2 (plain 1) (block_3 1 0 1 ∷ []) (each_logs (logged (block_3 1 0 1 ∷ []))) }
{}

/// A log with an entry that the history does not have.
pub fn entry_of_no_history()
    ensures { StandsBut 3 (plain 1) [] (each_logs (logged blocked)) }
{}

/// A touch of a period that never began.
pub fn touch_of_no_period()
    ensures { StandsBut 4 (plain 1) [] (each_logs (events.Touch 3 5 ∷ [])) }
{}

/// A blocked region, where the core has flushed since.
pub fn flushed_since()
    ensures { HeldBut 0 blocked_and_flushed (state_now (plain 1) blocked_and_flushed) 0 3 0 owners.Os }
{}

/// A region of an enclave, where the core is outside.
pub fn held_from_outside()
    ensures { HeldBut 1 foreign (state_now (plain 1) foreign) 0 3 5 (owners.Enclave 0) }
{}

/// A period that a history has freed.
pub fn held_though_freed()
    ensures { HeldBut 2 freed (start (plain 1)) 0 3 0 owners.Os }
{}

/// A holder that is no core of the machine.
pub fn no_core()
    ensures { FoundBut 0 (plain 2) (met 1 1 0 2 0 ∷ block_3 2 2 0 ∷ []) idle 1 0 r3 2 0 0 }
{}

/// A core that finds its own lock.
pub fn own_lock()
    ensures { FoundBut 1 (plain 2) (block_3 1 1 0 ∷ []) idle 1 1 r3 1 0 1 }
{}

/// A note from after a ticket that is not drawn yet.
pub fn note_to_come()
    ensures { FoundBut 2 (plain 2) [] holds_now 1 0 r3 0 0 1 }
{}

/// A call whose core had not drawn the ticket of its call before.
pub fn call_before_undrawn()
    ensures { FoundBut 3 (plain 2) (flushed 1 1 0 ∷ []) holds_now 1 1 r3 0 0 0 }
{}

/// A holder's call that had not begun.
pub fn not_begun()
    ensures { FoundBut 4 (plain 2) (flushed 1 0 0 ∷ block_3 2 0 1 ∷ []) idle 1 0 r3 0 1 0 }
{}

/// A holder's call that was over: the next one had its ticket.
pub fn was_over()
    ensures { FoundBut 5 (plain 2) (block_3 1 0 0 ∷ flushed 2 0 1 ∷ []) idle 1 0 r3 0 0 2 }
{}

/// A lock that nobody holds.
pub fn nobody_holds()
    ensures { FoundBut 6 (plain 2) [] idle 1 0 r3 0 0 0 }
{}
