//! The words that a core was given.

ghost use Rattle.std.specs.Prelude.{◌≡◌, ◌+◌, ◌<◌, ◌≤◌, [], ◌++◌, length, IfOk};
ghost use Rattle.std.specs.Option.{option_to_list};
ghost use Rattle.mon_types.specs.Budgets.{answer_budget};

use mon_types::{ANSWER_BUDGET, Items};
use std::alloc::{AllocError, Global};
use std::marker::Model;

/// The words that looks, loads and refused swaps gave a core, with room for as many as it may be given, taken when the
/// list was made. Contracts see the list of the words.
#[derive(Debug, Drop)]
pub struct Answers {
    words: Vec<u64>,
}

impl Model for Answers {
    ghost use Rattle.std.specs.Prelude.{ℕ, ◌≤◌, List, vec_capacity};
    ghost use Rattle.mon_types.specs.Budgets.{answer_budget};

    ghost Value = { List ℕ };

    ghost view = { λ a. a.words.items };

    ghost invariant = { λ a. answer_budget ≤ vec_capacity a.words };
}

impl Answers {
    /// No words.
    pub fn new(alloc: Global) -> Result<Answers, AllocError>
        ensures { IfOk result (λ a. a ≡ []) }
    {
        Ok(Answers {
            words: Vec::with_capacity(alloc, ANSWER_BUDGET)?,
        })
    }

    /// Appends a word, if there is one. Takes no memory.
    pub fn add(&mut self, word: Option<u64>)
        requires { length self.old + length (option_to_list word) ≤ answer_budget }
        ensures { self.new ≡ self.old ++ option_to_list word }
    {
        match word {
            Some(word) => self.words.push_reserved(word),
            None => {}
        }
    }

    /// The words. Takes no memory.
    pub fn into_items(self) -> Items<u64>
        ensures { result ≡ self }
    {
        Items::from_vec(self.words)
    }
}
