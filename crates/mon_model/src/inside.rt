//! Runs of calls that enter an enclave.

ghost use Rattle.std.specs.Prelude.{◌≡◌, ℕ, List, [], ◌∷◌, ◌++◌, replicate, drop};
ghost use Rattle.mon_types.specs.Shape.{plain};
ghost use Rattle.mon_types.specs.declared.region.Owner.TheVariants as owners;
ghost use Rattle.mon_types.specs.declared.region.Region.TheVariants as regions;
ghost use Rattle.mon_types.specs.declared.thread.ThreadState.TheVariants as states;
ghost use Rattle.mon_types.specs.declared.reply.Reply.TheVariants as replies;
ghost use Rattle.mon_model.specs.State.{region_at, thread_at};
ghost use Rattle.mon_types.specs.Replies.{done, ok_with_word, ok_with_eight};
ghost use Rattle.mon_model.specs.Tries.{tried_set};
ghost use Rattle.mon_model.specs.Examples.{run, sixteen, e0, t0, c0, r2, r3, r4, r5, small_measure, saved_words, delete_from_inside_calls, self_mail_calls, ticked, tick_and_restore_calls, own_region_blocked, own_region_freed};

/// Inside an enclave the calls of the OS are refused with nothing tried.
pub fn delete_from_inside()
    ensures replies { (digest : List ℕ) → (run digest (plain 1) delete_from_inside_calls).replies ≡ replicate 21 done ++ replies.AccessDenied ∷ [] }
    ensures tried { (digest : List ℕ) → drop 20 (run digest (plain 1) delete_from_inside_calls).tried ≡ tried_set (e0 ∷ t0 ∷ []) ∷ tried_set [] ∷ [] }
{}

/// An enclave that writes to itself reads its four words and its own measurement, and then nothing
/// more.
pub fn self_mail()
    ensures replies { (digest : List ℕ) → (run digest sixteen self_mail_calls).replies ≡ replicate 23 done ++ ok_with_eight (7 ∷ 8 ∷ 9 ∷ 10 ∷ small_measure digest) ∷ replies.InvalidState ∷ done ∷ [] }
    ensures tried { (digest : List ℕ) → drop 21 (run digest sixteen self_mail_calls).tried ≡ tried_set (e0 ∷ []) ∷ tried_set (e0 ∷ []) ∷ tried_set (e0 ∷ []) ∷ tried_set (e0 ∷ []) ∷ tried_set (t0 ∷ []) ∷ [] }
{}

/// An exit that the machine makes saves its words at its ticket; the thread restores them once.
pub fn tick_and_restore()
    ensures replies { (digest : List ℕ) → (run digest (plain 1) tick_and_restore_calls).replies ≡ replicate 23 done ++ ok_with_word 22 ∷ replies.InvalidState ∷ done ∷ [] }
    ensures tried { (digest : List ℕ) → drop 21 (run digest (plain 1) tick_and_restore_calls).tried ≡ tried_set (t0 ∷ []) ∷ tried_set (e0 ∷ t0 ∷ []) ∷ tried_set (t0 ∷ []) ∷ tried_set (t0 ∷ []) ∷ tried_set (t0 ∷ []) ∷ [] }
    ensures saved { (digest : List ℕ) → thread_at (run digest (plain 1) ticked).last 0 ≡ record { state = states.Ready 0; entry = 65536; sp = 0; saved_at = 22; saved = saved_words 65536 9223372036854775813 } }
    ensures cleared { (digest : List ℕ) → thread_at (run digest (plain 1) tick_and_restore_calls).last 0 ≡ record { state = states.Ready 0; entry = 65536; sp = 0; saved_at = 0; saved = replicate 33 0 } }
{}

/// An enclave may block a region of its own, which leaves its set: the later delete does not try it, and
/// the OS frees it after a flush.
pub fn enclave_blocks_own_region()
    ensures replies { (digest : List ℕ) → (run digest sixteen own_region_freed).replies ≡ replicate 23 done ++ replies.InvalidState ∷ replicate 4 done }
    ensures tried { (digest : List ℕ) → drop 21 (run digest sixteen own_region_freed).tried ≡ tried_set (e0 ∷ r4 ∷ []) ∷ tried_set (t0 ∷ []) ∷ tried_set (e0 ∷ r2 ∷ r3 ∷ r5 ∷ []) ∷ tried_set (e0 ∷ t0 ∷ []) ∷ tried_set (e0 ∷ r2 ∷ r3 ∷ r5 ∷ []) ∷ tried_set (c0 ∷ []) ∷ tried_set (r4 ∷ c0 ∷ []) ∷ [] }
    ensures blocked { (digest : List ℕ) → region_at (run digest sixteen own_region_blocked).last 4 ≡ regions.Blocked (owners.Enclave 0) 13 22 }
    ensures freed { (digest : List ℕ) → region_at (run digest sixteen own_region_freed).last 4 ≡ regions.Free }
{}
