//! Walks, touches, a look at a region that is being withdrawn, and the order of steps.

ghost use Rattle.std.specs.Prelude.{◌≡◌, ◌++◌};
ghost use Rattle.mon_types.specs.declared.call.Call.TheVariants as calls;
ghost use Rattle.protocol.specs.Views.{core_log};
ghost use Rattle.protocol.specs.Runs.{moves_of};
ghost use Rattle.core_behaviour.specs.RunLaw.{cores_of};
ghost use Rattle.core_behaviour_runs.specs.Machines.{in_order};
ghost use Rattle.core_behaviour_runs.specs.Looks.{to_page_1, walked_by, walk_begins, walk_ends, walk_faults, loaded_round, touched_twice, touched_once, looked_before, looked_behind, load_is_made, load_is_refused, by_rounds, in_turn};

/// Ok of set_satp leads accesses through the tables: each entry is looked at and loaded, from the root down, and at
/// last the page is looked at. A page fault ends the line where it is found, and nothing is kept of it.
pub fn satp_leads_a_walk()
    ensures walked { walked_by to_page_1 ≡ walk_begins ++ walk_ends }
    ensures fault { walked_by 0 ≡ walk_begins ++ walk_faults }
{}

/// The first good look since a clear is a touch: behind a flush it is logged again. Behind another call the page is
/// in the translation cache.
pub fn flush_forgets_touches()
    ensures flush { core_log 0 (moves_of 0 (loaded_round calls.Flush)) ≡ touched_twice }
    ensures block { core_log 0 (moves_of 0 (loaded_round (calls.Block 1))) ≡ touched_once }
{}

/// A block writes that its region is Blocked before it draws its ticket: a look behind that Write is not good, though
/// no ticket is drawn; one before it is.
pub fn early_write_is_seen()
    ensures before { in_order 1 looked_before ≡ load_is_made }
    ensures behind { in_order 1 looked_behind ≡ load_is_refused }
{}

/// By an empty schedule the cores step in turn, from core 0, and one that has ended makes no step.
pub fn cores_step_in_turn()
    ensures { cores_of by_rounds ≡ in_turn }
{}
