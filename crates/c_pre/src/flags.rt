//! A stack of flags.
ghost use Rattle.std.specs.Prelude.{◌≡◌, ◌∷◌, [], drop, slice_get, OnOk};
ghost use Rattle.std.specs.List.{list_all};

use cg_out::Memory;
use std::alloc::Global;
use std::marker::Model;

/// Flags, the last pushed at the top; contracts see the list from the top down.
#[derive(Drop)]
pub struct Flags {
    items: Vec<bool>,
    /// How many of them are false.
    unset: usize,
}

impl Model for Flags {
    ghost use Rattle.std.specs.Prelude.{◌≡◌, List, Bool, reverse, count_by, not};

    ghost Value = { List Bool };

    ghost view = { λ f. reverse f.items.items };

    ghost invariant = { λ f. f.unset ≡ count_by not f.items.items };
}

impl Flags {
    pub fn new(alloc: Global) -> Flags
        ensures { result ≡ [] }
    {
        Flags {
            items: Vec::new(alloc),
            unset: 0,
        }
    }

    pub fn push(&mut self, flag: bool) -> Result<(), Memory>
        ensures { OnOk result (self.new ≡ flag ∷ self.old) }
    {
        self.items.push(flag)?;
        if !flag {
            self.unset += 1;
        }
        Ok(())
    }

    pub fn pop(&mut self) -> Option<bool>
        ensures top { result ≡ slice_get self.old 0 }
        ensures rest { self.new ≡ drop 1 self.old }
    {
        let top = self.items.pop();
        if top == Some(false) {
            self.unset -= 1;
        }
        top
    }

    pub fn top(&self) -> Option<bool>
        ensures { result ≡ slice_get self.now 0 }
    {
        self.items.last().copied()
    }

    /// Whether all of them are true.
    pub fn all(&self) -> bool
        ensures { result ≡ list_all (λ r. r) self.now }
    {
        self.unset == 0
    }
}
