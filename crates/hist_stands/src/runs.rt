//! Laws: what the definitions say of histories and logs that are written out by hand.

ghost use Rattle.std.specs.Prelude.{◌≡◌, true, [], ◌∷◌, None, Some};
ghost use Rattle.mon_types.specs.Shape.{plain};
ghost use Rattle.mon_types.specs.declared.region.Owner.TheVariants as owners;
ghost use Rattle.mon_types.specs.declared.region.Region.TheVariants as regions;
ghost use Rattle.mon_model.specs.State.{region_at};
ghost use Rattle.hist.specs.declared.event.Event.TheVariants as events;
ghost use Rattle.hist.specs.History.{history};
ghost use Rattle.hist.specs.Period.{period_in};
ghost use Rattle.hist.specs.Touched.{is_touched};
ghost use Rattle.hist.specs.Rows.{period_of_3, met_under_way, holds_now, meets_now};
ghost use Rattle.hist_stands.specs.States.{state_now, state_at};
ghost use Rattle.hist_stands.specs.Stands.{Stands};
ghost use Rattle.hist_stands.specs.Held.{IsHeld};
ghost use Rattle.hist_stands.specs.Found.{Notes};
ghost use Rattle.hist_stands.specs.Runs.{stale_logs, stale_history, moved_logs, moved_history, again_assigned, blocked};

/// A touch before the block of its region, with a flush before the free, has its stamp: so it stands. With the touch
/// behind the flush it does not stand.
pub fn touch_before_the_block()
    ensures stands { Stands (plain 2) stale_history stale_logs }
    ensures moved { ¬ Stands (plain 2) moved_history moved_logs }
{}

/// A period from the start, which is blocked and freed, and the states at its ends.
pub fn first_period()
    ensures period { period_in stale_history 3 0 ≡ Some (period_of_3 0 (Some 1) (Some 5)) }
    ensures begins { region_at (state_at (plain 2) stale_history 0) 3 ≡ regions.Owned owners.Os 0 }
    ensures blocked { region_at (state_at (plain 2) stale_history 1) 3 ≡ regions.Blocked owners.Os 0 1 }
    ensures still_blocked { region_at (state_at (plain 2) stale_history 4) 3 ≡ regions.Blocked owners.Os 0 1 }
    ensures freed { region_at (state_at (plain 2) stale_history 5) 3 ≡ regions.Free }
{}

/// A period that begins with an assign behind a free, and the states before and after it.
pub fn second_period()
    ensures period { period_in again_assigned 3 4 ≡ Some (period_of_3 4 None None) }
    ensures before { region_at (state_at (plain 1) again_assigned 3) 3 ≡ regions.Free }
    ensures begins { region_at (state_at (plain 1) again_assigned 4) 3 ≡ regions.Owned owners.Os 4 }
{}

/// Core 1 has touched region 3, and core 0 has blocked it since: core 1 holds it still.
pub fn held_while_blocked()
    ensures touched { is_touched 3 0 (events.Touch 3 0 ∷ []) ≡ true }
    ensures held { IsHeld blocked (state_now (plain 2) blocked) 1 3 0 }
{}

/// Core 1 has met the lock that core 0's call under way has taken: the note of its entry, and that of its call where
/// it has no entry yet.
pub fn noted_under_way()
    ensures entry { Notes (plain 2) (history met_under_way) holds_now }
    ensures call { Notes (plain 2) [] meets_now }
{}
