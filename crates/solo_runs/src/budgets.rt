//! The budgets of events and answers.

ghost use Rattle.std.specs.Prelude.{◌≡◌, ℕ, List, [], ◌∷◌, drop, length};
ghost use Rattle.hist.specs.declared.event.Event.TheVariants as events;
ghost use Rattle.hist.specs.declared.event.Why.TheVariants as whys;
ghost use Rattle.solo_runs.specs.Machines.{reg_of};
ghost use Rattle.solo_runs.specs.Budgets.{with_events, with_answers, then_set, turns_then_set};

/// A line is carried out where 80 events are left; where fewer are, a Limit is logged in its place.
pub fn a_line_needs_80_events()
    ensures enough { reg_of (then_set (with_events 16304)) 5 ≡ 1 }
    ensures too_few { reg_of (then_set (with_events 16305)) 5 ≡ 0 }
    ensures limit { drop 16305 (then_set (with_events 16305)).log ≡ events.Stop 1 whys.Limit ∷ [] }
{}

/// The same of 600 answers.
pub fn a_line_needs_600_answers()
    ensures enough { (answers : List ℕ) → length answers ≡ 1047976 → reg_of (then_set (with_answers answers)) 5 ≡ 1 }
    ensures too_few { (answers : List ℕ) → length answers ≡ 1047977 → reg_of (then_set (with_answers answers)) 5 ≡ 0 }
    ensures limit { (answers : List ℕ) → length answers ≡ 1047977 → (then_set (with_answers answers)).log ≡ events.Stop 1 whys.Limit ∷ [] }
{}

/// A Limit is also met before a turn, and ends the core's script.
pub fn limit_before_a_turn_ends_the_script()
    ensures log { drop 16304 (turns_then_set (with_events 16304)).log ≡ events.Touch 0 0 ∷ events.Stop 1 whys.Limit ∷ [] }
    ensures turns { reg_of (turns_then_set (with_events 16304)) 5 ≡ 1 }
    ensures over { reg_of (turns_then_set (with_events 16304)) 6 ≡ 0 }
    ensures enough { reg_of (turns_then_set (with_events 16303)) 6 ≡ 9 }
{}
