//! Runs of calls on regions.

ghost use Rattle.std.specs.Prelude.{◌≡◌, ℕ, List, [], ◌∷◌};
ghost use Rattle.mon_types.specs.Shape.{plain};
ghost use Rattle.mon_types.specs.declared.region.Owner.TheVariants as owners;
ghost use Rattle.mon_types.specs.declared.region.Region.TheVariants as regions;
ghost use Rattle.mon_types.specs.declared.call.Call.TheVariants as calls;
ghost use Rattle.mon_types.specs.declared.reply.Reply.TheVariants as replies;
ghost use Rattle.mon_model.specs.State.{region_at};
ghost use Rattle.mon_types.specs.Owns.{os_word};
ghost use Rattle.mon_types.specs.Replies.{done, ok_with_four};
ghost use Rattle.mon_model.specs.Tries.{tried_set};
ghost use Rattle.mon_model.specs.Examples.{run, largest, c0, c1, r3, first_path_calls, bad_region_calls, half_flushed_calls, refused_early};

/// A blocked region is freed only once the core has flushed; then the OS may have it again.
pub fn first_path()
    ensures replies { (digest : List ℕ) → (run digest (plain 1) first_path_calls).replies ≡ done ∷ replies.NotFlushed ∷ done ∷ done ∷ done ∷ [] }
    ensures tried { (digest : List ℕ) → (run digest (plain 1) first_path_calls).tried ≡ tried_set (r3 ∷ []) ∷ tried_set (r3 ∷ c0 ∷ []) ∷ tried_set (c0 ∷ []) ∷ tried_set (r3 ∷ c0 ∷ []) ∷ tried_set (r3 ∷ []) ∷ [] }
    ensures region { (digest : List ℕ) → region_at (run digest (plain 1) first_path_calls).last 3 ≡ regions.Owned owners.Os 5 }
{}

/// Region 0, and a region that the machine does not have, are refused with nothing tried.
pub fn bad_region()
    ensures replies { (digest : List ℕ) → (run digest (plain 1) bad_region_calls).replies ≡ replies.InvalidValue ∷ replies.InvalidValue ∷ [] }
    ensures tried { (digest : List ℕ) → (run digest (plain 1) bad_region_calls).tried ≡ tried_set [] ∷ tried_set [] ∷ [] }
{}

/// A region that is not blocked is not freed, and no core's cell is tried.
pub fn free_unblocked()
    ensures replies { (digest : List ℕ) → (run digest (plain 1) (calls.Free 3 ∷ [])).replies ≡ replies.InvalidState ∷ [] }
    ensures tried { (digest : List ℕ) → (run digest (plain 1) (calls.Free 3 ∷ [])).tried ≡ tried_set (r3 ∷ []) ∷ [] }
{}

/// On two cores the flush of one is not enough for a free.
pub fn free_asks_every_core()
    ensures replies { (digest : List ℕ) → (run digest (plain 2) half_flushed_calls).replies ≡ done ∷ done ∷ replies.NotFlushed ∷ [] }
    ensures tried { (digest : List ℕ) → (run digest (plain 2) half_flushed_calls).tried ≡ tried_set (r3 ∷ []) ∷ tried_set (c0 ∷ []) ∷ tried_set (r3 ∷ c0 ∷ c1 ∷ []) ∷ [] }
{}

/// The last of 64 regions is the OS's from the start.
pub fn largest_machine()
    ensures { (digest : List ℕ) → (run digest largest (calls.RegionInfo 63 ∷ [])).replies ≡ ok_with_four 1 os_word 0 0 ∷ [] }
{}

/// Calls of no known number, an exit outside any enclave and a satp with an ASID are refused with
/// nothing tried.
pub fn odd_calls()
    ensures replies { (digest : List ℕ) → (run digest (plain 1) refused_early).replies ≡ replies.Unsupported ∷ replies.Unsupported ∷ replies.AccessDenied ∷ replies.InvalidValue ∷ [] }
    ensures tried { (digest : List ℕ) → (run digest (plain 1) refused_early).tried ≡ tried_set [] ∷ tried_set [] ∷ tried_set [] ∷ tried_set [] ∷ [] }
{}
