//! Laws: for each field of what makes logs legal, busy as they should be, and safe, a small run that this field
//! alone refuses. The numbers are those of the fields in their order, from 0.

ghost use Rattle.std.specs.Prelude.{◌≡◌, [], ◌∷◌, None, Some};
ghost use Rattle.mon_types.specs.Shape.{plain};
ghost use Rattle.hist.specs.declared.event.Event.TheVariants as events;
ghost use Rattle.mon_model.specs.State.{start};
ghost use Rattle.hist.specs.History.{history};
ghost use Rattle.hist.specs.Busy.{idle};
ghost use Rattle.hist.specs.Period.{period_in};
ghost use Rattle.hist.specs.SafeLog.{SafeLog};
ghost use Rattle.hist.specs.Fields.{LegalBut, NextBut, EntryBut, BusyBut, LockBut, TakenBut, TouchBut, SafeTouchBut, ButNoneIs, IsButNone};
ghost use Rattle.mon_model.specs.Examples.{r3};
ghost use Rattle.hist.specs.Rows.{block_3, flushed, met, logged, second_log, late_ticket, anothers_entry, late_serial, falling_tickets, alone, wrongly_refused, tries_nothing, has_a_page, no_core, own_lock, untried_lock, names_untried, no_call, other_object, both_met, not_begun, was_over, nobody_holds, period_of_3, nowhere, no_period, late_touch, early_touch, behind_early, foreign_touch, before_foreign, foreign_period, never_flushed, touched_twice};

/// The definitions field by field are the definitions, where no field is to fail.
pub fn fields_are_all()
    ensures fields { ButNoneIs }
    ensures definitions { IsButNone }
{}

/// A second log on one core.
pub fn second_log()
    ensures { LegalBut 0 (plain 1) second_log }
{}

/// A first ticket of 2.
pub fn late_ticket()
    ensures { LegalBut 1 (plain 1) late_ticket }
{}

/// An entry in another core's log.
pub fn anothers_entry()
    ensures own { LegalBut 2 (plain 2) anothers_entry }
    ensures core { NextBut 0 0 0 0 (block_3 1 1 0) }
{}

/// A first serial of 1.
pub fn late_serial()
    ensures own { LegalBut 2 (plain 1) late_serial }
    ensures serial { NextBut 1 0 0 0 (block_3 1 0 1) }
{}

/// A later entry with a lower ticket.
pub fn falling_tickets()
    ensures own { LegalBut 2 (plain 1) falling_tickets }
    ensures ascends { NextBut 2 0 1 2 (flushed 1 0 1) }
{}

/// A block of an owned region that is refused.
pub fn wrongly_refused()
    ensures entries { LegalBut 3 (plain 1) (alone wrongly_refused) }
    ensures reply { EntryBut 0 (start (plain 1)) wrongly_refused }
{}

/// A block that tried nothing.
pub fn tries_nothing()
    ensures entries { LegalBut 3 (plain 1) (alone tries_nothing) }
    ensures tried { EntryBut 1 (start (plain 1)) tries_nothing }
{}

/// A block with a page.
pub fn has_a_page()
    ensures entries { LegalBut 3 (plain 1) (alone has_a_page) }
    ensures page { EntryBut 2 (start (plain 1)) has_a_page }
{}

/// A holder that is no core of the machine.
pub fn no_core()
    ensures entries { BusyBut 0 (plain 2) no_core idle }
    ensures core { LockBut 0 (plain 2) (history no_core) idle (met 1 1 0 2 0) r3 2 0 }
{}

/// A core that meets its own lock.
pub fn own_lock()
    ensures entries { BusyBut 0 (plain 2) own_lock idle }
    ensures other { LockBut 1 (plain 2) (history own_lock) idle (met 2 1 1 1 0) r3 1 0 }
{}

/// A lock that the call has not tried.
pub fn untried_lock()
    ensures entries { BusyBut 0 (plain 2) untried_lock idle }
    ensures tried { LockBut 2 (plain 2) (history untried_lock) idle names_untried r3 0 0 }
{}

/// A holder that has no such call.
pub fn no_call()
    ensures entries { BusyBut 0 (plain 2) no_call idle }
    ensures held { LockBut 3 (plain 2) (history no_call) idle (met 1 1 0 0 0) r3 0 0 }
{}

/// A holder whose call tried another object.
pub fn other_object()
    ensures entries { BusyBut 0 (plain 2) other_object idle }
    ensures held { LockBut 3 (plain 2) (history other_object) idle (met 1 1 0 0 0) r3 0 0 }
    ensures tried { TakenBut 0 r3 (flushed 2 0 0) }
{}

/// Two calls that name each other as the holder of one lock.
pub fn both_met()
    ensures entries { BusyBut 0 (plain 2) both_met idle }
    ensures held { LockBut 3 (plain 2) (history both_met) idle (met 1 1 0 0 0) r3 0 0 }
    ensures another { TakenBut 1 r3 (met 2 0 0 1 0) }
{}

/// A holder whose call before that one came later.
pub fn not_begun()
    ensures entries { BusyBut 0 (plain 2) not_begun idle }
    ensures begun { LockBut 4 (plain 2) (history not_begun) idle (met 1 1 0 0 1) r3 0 1 }
{}

/// A holder whose call was over before the other core's call before.
pub fn was_over()
    ensures entries { BusyBut 0 (plain 2) was_over idle }
    ensures under_way { LockBut 5 (plain 2) (history was_over) idle (met 4 1 1 0 0) r3 0 0 }
{}

/// A call under way that has met a lock that nobody holds.
pub fn nobody_holds()
    ensures refused { BusyBut 1 (plain 2) ([] ∷ [] ∷ []) nobody_holds }
    ensures held { LockBut 3 (plain 2) [] nobody_holds (met 1 1 0 0 0) r3 0 0 }
{}

/// A touch of a region that the machine does not have.
pub fn nowhere()
    ensures safe { ¬ SafeLog (plain 1) nowhere }
    ensures region { TouchBut 0 (plain 1) (history nowhere) [] 200 0 [] }
{}

/// A touch of a period that never began.
pub fn no_period()
    ensures safe { ¬ SafeLog (plain 1) no_period }
    ensures period { TouchBut 1 (plain 1) (history no_period) [] 3 5 [] }
{}

/// A touch behind an entry that came after the block.
pub fn late_touch()
    ensures safe { ¬ SafeLog (plain 2) late_touch }
    ensures period { period_in (history late_touch) 3 0 ≡ Some (period_of_3 0 (Some 1) None) }
    ensures before_block { SafeTouchBut 0 (logged (flushed 2 1 0 ∷ [])) (events.Touch 3 0) [] (period_of_3 0 (Some 1) None) }
{}

/// A touch before an entry that came before the period began.
pub fn early_touch()
    ensures safe { ¬ SafeLog (plain 1) early_touch }
    ensures period { period_in (history early_touch) 3 4 ≡ Some (period_of_3 4 None None) }
    ensures after_beginning { SafeTouchBut 1 [] (events.Touch 3 4) behind_early (period_of_3 4 None None) }
{}

/// A touch of an enclave's region by the OS.
pub fn foreign_touch()
    ensures safe { ¬ SafeLog (plain 1) foreign_touch }
    ensures period { period_in (history foreign_touch) 3 5 ≡ Some foreign_period }
    ensures owner { SafeTouchBut 2 before_foreign (events.Touch 3 5) [] foreign_period }
{}

/// A touch of a region that was freed with no flush of the core.
pub fn never_flushed()
    ensures safe { ¬ SafeLog (plain 2) never_flushed }
    ensures period { period_in (history never_flushed) 3 0 ≡ Some (period_of_3 0 (Some 1) (Some 3)) }
    ensures counted_flush { SafeTouchBut 3 [] (events.Touch 3 0) [] (period_of_3 0 (Some 1) (Some 3)) }
{}

/// A touch twice, with no clearing entry between.
pub fn touched_twice()
    ensures safe { ¬ SafeLog (plain 1) touched_twice }
    ensures period { period_in (history touched_twice) 3 0 ≡ Some (period_of_3 0 None None) }
    ensures cleared { SafeTouchBut 4 (events.Touch 3 0 ∷ []) (events.Touch 3 0) [] (period_of_3 0 None None) }
{}
