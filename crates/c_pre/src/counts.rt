//! A stack of counts.
ghost use Rattle.std.specs.Prelude.{◌≡◌, ◌∷◌, [], drop, slice_get, OnOk};

use cg_out::Memory;
use std::alloc::Global;
use std::marker::Model;

/// Counts, the last pushed at the top; contracts see the list from the top down.
#[derive(Drop)]
pub struct Counts {
    items: Vec<usize>,
}

impl Model for Counts {
    ghost use Rattle.std.specs.Prelude.{ℕ, List, reverse};

    ghost Value = { List ℕ };

    ghost view = { λ c. reverse c.items.items };
}

impl Counts {
    pub fn new(alloc: Global) -> Counts
        ensures { result ≡ [] }
    {
        Counts {
            items: Vec::new(alloc),
        }
    }

    pub fn push(&mut self, count: usize) -> Result<(), Memory>
        ensures { OnOk result (self.new ≡ count ∷ self.old) }
    {
        self.items.push(count)?;
        Ok(())
    }

    pub fn pop(&mut self) -> Option<usize>
        ensures top { result ≡ slice_get self.old 0 }
        ensures rest { self.new ≡ drop 1 self.old }
    {
        self.items.pop()
    }

    pub fn clear(&mut self)
        ensures { self.new ≡ [] }
    {
        self.items.clear();
    }
}
