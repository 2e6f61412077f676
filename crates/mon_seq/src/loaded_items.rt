//! Lists of loaded items.

ghost use Rattle.std.specs.Prelude.{◌≡◌, ◌<◌, [], ◌∷◌, ◌++◌, length, IfOk};

use mon_types::{Loaded, MOST_PAGES};
use std::alloc::{AllocError, Global};
use std::marker::Model;

/// The items that were loaded into an enclave slot, with room for as many as there can ever be, one for
/// each page of the largest machine, taken when the list was made. Contracts see the list of the items.
#[derive(Debug, Drop)]
pub struct LoadedItems {
    items: Vec<Loaded>,
}

impl Model for LoadedItems {
    ghost use Rattle.std.specs.Prelude.{◌≤◌, List, vec_capacity};
    ghost use Rattle.mon_types.specs.declared.enclave.Loaded.{Loaded};

    ghost Value = { List Loaded };

    ghost view = { λ l. l.items.items };

    ghost invariant = { λ l. 1024 ≤ vec_capacity l.items };
}

impl LoadedItems {
    /// No items.
    pub fn new(alloc: Global) -> Result<LoadedItems, AllocError>
        ensures { IfOk result (λ l. l ≡ []) }
    {
        Ok(LoadedItems {
            items: Vec::with_capacity(alloc, MOST_PAGES)?,
        })
    }

    /// Appends an item. Takes no memory.
    pub fn push(&mut self, item: Loaded)
        requires { length self.old < 1024 }
        ensures { self.new ≡ self.old ++ item ∷ [] }
    {
        self.items.push_reserved(item);
    }

    /// Removes all items. Keeps the room.
    pub fn clear(&mut self)
        ensures { self.new ≡ [] }
    {
        self.items.clear();
    }

    /// The items, in the order in which they were loaded.
    pub fn as_slice(&self) -> &[Loaded]
        ensures { result.now ≡ self.now }
    {
        self.items.as_slice()
    }
}
