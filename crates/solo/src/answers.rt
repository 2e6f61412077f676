//! The words that loads give a core.

ghost use Rattle.std.specs.Prelude.{◌≡◌, ◌+◌, ◌-◌, ◌<◌, ◌≤◌, [], ◌∷◌, ◌++◌, length, IfOk};
ghost use Rattle.mon_types.specs.Budgets.{answer_budget};

use mon_types::{ANSWER_BUDGET, Items};
use std::alloc::{AllocError, Global};
use std::marker::Model;

/// The words that loads gave a core, with room for as many as it may be given, taken when the list was
/// made. Contracts see the list of the words.
#[derive(Debug, Drop)]
pub struct Answers {
    words: Vec<u64>,
}

impl Model for Answers {
    ghost use Rattle.std.specs.Prelude.{ℕ, ◌≤◌, List, vec_capacity};
    ghost use Rattle.mon_types.specs.Budgets.{answer_budget};

    ghost Value = { List ℕ };

    ghost view = { λ a. a.words.items };

    ghost invariant = { λ a. answer_budget ≤ vec_capacity a.words };
}

impl Answers {
    /// No words.
    pub fn new(alloc: Global) -> Result<Answers, AllocError>
        ensures { IfOk result (λ a. a ≡ []) }
    {
        Ok(Answers {
            words: Vec::with_capacity(alloc, ANSWER_BUDGET)?,
        })
    }

    /// How many words there are.
    pub fn len(&self) -> usize
        ensures { result ≡ length self.now }
    {
        self.words.len()
    }

    /// Appends a word. Takes no memory.
    pub fn push(&mut self, word: u64)
        requires { length self.old < answer_budget }
        ensures { self.new ≡ self.old ++ word ∷ [] }
    {
        self.words.push_reserved(word);
    }

    /// Appends words. Takes no memory.
    pub fn extend(&mut self, words: &[u64])
        requires { length self.old + length words.now ≤ answer_budget }
        ensures { self.new ≡ self.old ++ words.now }
    {
        for word in words {
            self.push(*word);
        }
    }

    /// The words. Takes no memory.
    pub fn into_items(self) -> Items<u64>
        ensures { result ≡ self }
    {
        Items::from_vec(self.words)
    }
}
