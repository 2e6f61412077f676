//! Runs of calls that make and delete enclaves.

ghost use Rattle.std.specs.Prelude.{◌≡◌, ℕ, List, [], ◌∷◌, ◌++◌, replicate, drop};
ghost use Rattle.mon_types.specs.Shape.{plain};
ghost use Rattle.mon_types.specs.declared.region.Owner.TheVariants as owners;
ghost use Rattle.mon_types.specs.declared.region.Region.TheVariants as regions;
ghost use Rattle.mon_types.specs.declared.reply.Reply.TheVariants as replies;
ghost use Rattle.mon_model.specs.State.{region_at, enclave_at};
ghost use Rattle.mon_types.specs.Replies.{done};
ghost use Rattle.mon_model.specs.Measure.{Create};
ghost use Rattle.mon_model.specs.Tries.{tried_set};
ghost use Rattle.mon_model.specs.Examples.{run, sixteen, e0, r1, r2, r3, r4, r5, given, loaded, finished, twins, small_measure, small_loads, run_items, delete_blocks_calls, page_below_next_calls, init_without_thread_calls, create_overflow_calls};

/// A range that would end past the last address is refused with nothing tried.
pub fn create_overflow()
    ensures replies { (digest : List ℕ) → (run digest (plain 1) create_overflow_calls).replies ≡ replies.InvalidValue ∷ [] }
    ensures tried { (digest : List ℕ) → (run digest (plain 1) create_overflow_calls).tried ≡ tried_set [] ∷ [] }
{}

/// A small enclave is made, loaded and initialized by 20 calls, each of them Ok.
pub fn loads_an_enclave()
    ensures on_plain { (digest : List ℕ) → (run digest (plain 1) finished).replies ≡ replicate 20 done }
    ensures on_sixteen { (digest : List ℕ) → (run digest sixteen finished).replies ≡ replicate 20 done }
    ensures measure { (digest : List ℕ) → (enclave_at (run digest sixteen finished).last 0).measure ≡ small_measure digest }
    ensures items { (digest : List ℕ) → run_items digest sixteen finished 0 ≡ Create 65536 16384 ∷ small_loads digest }
{}

/// A second enclave with the same content in another slot and in other regions has the same
/// measurement.
pub fn twin_enclaves()
    ensures replies { (digest : List ℕ) → (run digest sixteen twins).replies ≡ replicate 40 done }
    ensures first { (digest : List ℕ) → (enclave_at (run digest sixteen twins).last 0).measure ≡ small_measure digest }
    ensures second { (digest : List ℕ) → (enclave_at (run digest sixteen twins).last 1).measure ≡ small_measure digest }
    ensures items { (digest : List ℕ) → run_items digest sixteen twins 1 ≡ Create 65536 16384 ∷ small_loads digest }
{}

/// A delete blocks the enclave's regions; a new enclave of the slot owns none of them, and so cannot
/// load a table there. Its items begin anew, and the refused load adds none.
pub fn delete_blocks()
    ensures replies { (digest : List ℕ) → (run digest sixteen delete_blocks_calls).replies ≡ replicate 16 done ++ replies.InvalidState ∷ [] }
    ensures tried { (digest : List ℕ) → drop 14 (run digest sixteen delete_blocks_calls).tried ≡ tried_set (e0 ∷ r2 ∷ r3 ∷ r4 ∷ r5 ∷ []) ∷ tried_set (e0 ∷ []) ∷ tried_set (e0 ∷ []) ∷ [] }
    ensures region { (digest : List ℕ) → region_at (run digest sixteen delete_blocks_calls).last 2 ≡ regions.Blocked (owners.Enclave 0) 11 15 }
    ensures items { (digest : List ℕ) → run_items digest sixteen delete_blocks_calls 0 ≡ Create 65536 16384 ∷ [] }
    ensures on_plain { (digest : List ℕ) → (run digest (plain 1) delete_blocks_calls).replies ≡ replicate 16 done ++ replies.InvalidState ∷ [] }
{}

/// A page below the next one that the enclave may take is refused, and nothing is measured.
pub fn page_below_next()
    ensures replies { (digest : List ℕ) → (run digest (plain 1) page_below_next_calls).replies ≡ replicate 18 done ++ replies.InvalidState ∷ [] }
    ensures tried { (digest : List ℕ) → drop 18 (run digest (plain 1) page_below_next_calls).tried ≡ tried_set (e0 ∷ r1 ∷ []) ∷ [] }
    ensures next { (digest : List ℕ) → (enclave_at (run digest (plain 1) page_below_next_calls).last 0).next_page ≡ 6 }
    ensures measure { (digest : List ℕ) → (enclave_at (run digest (plain 1) page_below_next_calls).last 0).measure ≡ (enclave_at (run digest (plain 1) loaded).last 0).measure }
{}

/// An enclave without a thread is not initialized.
pub fn init_without_thread()
    ensures replies { (digest : List ℕ) → (run digest (plain 1) init_without_thread_calls).replies ≡ replicate 18 done ++ replies.InvalidState ∷ [] }
    ensures tried { (digest : List ℕ) → drop 18 (run digest (plain 1) init_without_thread_calls).tried ≡ tried_set (e0 ∷ []) ∷ [] }
{}
