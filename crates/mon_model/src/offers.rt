//! Runs of calls that offer a region to an enclave that runs.

ghost use Rattle.std.specs.Prelude.{◌≡◌, ℕ, List, [], ◌∷◌, ◌++◌, replicate, drop};
ghost use Rattle.mon_types.specs.declared.region.Owner.TheVariants as owners;
ghost use Rattle.mon_types.specs.declared.region.Region.TheVariants as regions;
ghost use Rattle.mon_types.specs.declared.reply.Reply.TheVariants as replies;
ghost use Rattle.mon_model.specs.State.{region_at};
ghost use Rattle.mon_types.specs.Replies.{done, ok_with_four, ok_with_eight};
ghost use Rattle.mon_model.specs.Measure.{Create, Table, Page, Thread, Init};
ghost use Rattle.mon_model.specs.Tries.{tried_set};
ghost use Rattle.mon_model.specs.Examples.{run, sixteen, e0, t0, c0, r12, small_measure, run_items, offered, offer_and_accept_calls, offer_withdrawn_calls, reserved_page_calls};

/// The OS offers a region to an enclave that runs, which accepts it once and then owns it; its region
/// set is then that of regions 2 to 5 and 12.
pub fn offer_and_accept()
    ensures replies { (digest : List ℕ) → (run digest sixteen offer_and_accept_calls).replies ≡ replicate 24 done ++ ok_with_four 3 0 0 24 ∷ done ∷ done ∷ replies.InvalidState ∷ done ∷ ok_with_eight (2 ∷ 65536 ∷ 16384 ∷ 4156 ∷ small_measure digest) ∷ [] }
    ensures tried { (digest : List ℕ) → drop 23 (run digest sixteen offer_and_accept_calls).tried ≡ tried_set (e0 ∷ r12 ∷ []) ∷ tried_set (r12 ∷ []) ∷ tried_set (e0 ∷ t0 ∷ []) ∷ tried_set (e0 ∷ r12 ∷ []) ∷ tried_set (e0 ∷ r12 ∷ []) ∷ tried_set (t0 ∷ []) ∷ tried_set (e0 ∷ []) ∷ [] }
    ensures offered { (digest : List ℕ) → region_at (run digest sixteen offered).last 12 ≡ regions.Offered 0 24 }
    ensures owned { (digest : List ℕ) → region_at (run digest sixteen offer_and_accept_calls).last 12 ≡ regions.Owned (owners.Enclave 0) 27 }
{}

/// The OS withdraws an offer by blocking the region, which counts as the enclave's since the offer.
pub fn offer_withdrawn()
    ensures replies { (digest : List ℕ) → (run digest sixteen offer_withdrawn_calls).replies ≡ replicate 25 done ++ replies.NotFlushed ∷ [] }
    ensures tried { (digest : List ℕ) → drop 24 (run digest sixteen offer_withdrawn_calls).tried ≡ tried_set (r12 ∷ []) ∷ tried_set (r12 ∷ c0 ∷ []) ∷ [] }
    ensures region { (digest : List ℕ) → region_at (run digest sixteen offer_withdrawn_calls).last 12 ≡ regions.Blocked (owners.Enclave 0) 24 25 }
{}

/// A page is reserved in a region that the enclave does not own yet, and accepts once it runs: every
/// call is Ok. It is measured as a table of level 8 + 3.
pub fn reserved_page()
    ensures replies { (digest : List ℕ) → (run digest sixteen reserved_page_calls).replies ≡ replicate 30 done }
    ensures tried { (digest : List ℕ) → drop 18 (run digest sixteen reserved_page_calls).tried ≡ tried_set (e0 ∷ []) ∷ tried_set (e0 ∷ t0 ∷ []) ∷ tried_set (e0 ∷ []) ∷ tried_set (e0 ∷ t0 ∷ []) ∷ tried_set (t0 ∷ []) ∷ tried_set (r12 ∷ []) ∷ tried_set (c0 ∷ []) ∷ tried_set (r12 ∷ c0 ∷ []) ∷ tried_set (e0 ∷ r12 ∷ []) ∷ tried_set (e0 ∷ t0 ∷ []) ∷ tried_set (e0 ∷ r12 ∷ []) ∷ tried_set (t0 ∷ []) ∷ [] }
    ensures region { (digest : List ℕ) → region_at (run digest sixteen reserved_page_calls).last 12 ≡ regions.Owned (owners.Enclave 0) 29 }
    ensures items { (digest : List ℕ) → run_items digest sixteen reserved_page_calls 0 ≡ Create 65536 16384 ∷ Table 0 2 ∷ Table 65536 1 ∷ Table 65536 0 ∷ Page 65536 5 digest ∷ Table 69632 11 ∷ Thread 65536 0 ∷ Init ∷ [] }
{}
