//! Laws: what the definitions say of runs that are written out by hand, and that are as they should be.

ghost use Rattle.std.specs.Prelude.{[], ◌∷◌};
ghost use Rattle.mon_types.specs.Shape.{plain};
ghost use Rattle.hist.specs.Legal.{Legal};
ghost use Rattle.hist.specs.Busy.{Busy, idle};
ghost use Rattle.hist.specs.SafeLog.{SafeLog};
ghost use Rattle.hist.specs.Rows.{lost_race, free_meets_flush, stale_translation, moved_touch, met_under_way, holds_now, meets_now};

/// Two blocks of one region at a time.
pub fn lost_race()
    ensures legal { Legal (plain 2) lost_race }
    ensures busy { Busy (plain 2) lost_race idle }
    ensures safe { SafeLog (plain 2) lost_race }
{}

/// A flush while a free holds the cells.
pub fn free_meets_flush()
    ensures legal { Legal (plain 2) free_meets_flush }
    ensures busy { Busy (plain 2) free_meets_flush idle }
{}

/// A touch before a block, with a flush before the free.
pub fn stale_translation()
    ensures legal { Legal (plain 2) stale_translation }
    ensures busy { Busy (plain 2) stale_translation idle }
    ensures safe { SafeLog (plain 2) stale_translation }
{}

/// The same, but the touch stands behind the flush: legal, and not safe.
pub fn moved_touch()
    ensures legal { Legal (plain 2) moved_touch }
    ensures not_safe { ¬ SafeLog (plain 2) moved_touch }
{}

/// A lock that a call under way has taken, met by a call with an entry and by one that has none yet.
pub fn met_under_way()
    ensures legal { Legal (plain 2) met_under_way }
    ensures busy { Busy (plain 2) met_under_way holds_now }
    ensures not_idle { ¬ Busy (plain 2) met_under_way idle }
    ensures no_entry { Busy (plain 2) ([] ∷ [] ∷ []) meets_now }
{}
