//! Values by names.
ghost use Rattle.std.specs.Prelude.{◌≡◌, ◌<◌, ◌∷◌, ◌++◌, [], None, OnOk, IfSome, is_some, bytes_eq, length, position};
ghost use Rattle.cg_out.specs.Words.{look_up};
ghost use Rattle.name_table.specs.Adds.{Adds};
ghost use Rattle.name_table.specs.Entries.{lent};
ghost use Rattle.name_table.specs.WithValue.{with_value};

use cg_out::Memory;
use indexmap::IndexMap;
use std::alloc::Global;
use std::marker::Model;

/// Names with a value each, in the order in which they came.
#[derive(Drop)]
pub struct Table<'a, V> {
    entries: IndexMap<&'a [u8], V>,
}

impl<'a, V> Model for Table<'a, V> {
    ghost use Rattle.std.specs.Prelude.{ℕ, List, map};
    ghost use Rattle.name_table.specs.Entries.{named};

    ghost Value = { List (List ℕ × V) };

    ghost view = { λ t. map named t.entries.entries };
}

impl<'a, V: Drop> Table<'a, V> {
    pub fn new(alloc: Global) -> Table<'a, V>
        ensures { result ≡ [] }
    {
        Table {
            entries: IndexMap::new(alloc),
        }
    }

    /// The value of a name.
    pub fn get(&self, name: &[u8]) -> Option<&V>
        ensures { lent result ≡ look_up name.now self.now }
    {
        self.entries.get(name)
    }

    /// Gives a name that has no value one.
    pub fn put(&mut self, name: &'a [u8], value: V) -> Result<(), Memory>
        requires { look_up name.now self.old ≡ None }
        ensures { OnOk result (self.new ≡ self.old ++ (name.now, value) ∷ []) }
    {
        self.entries.insert(name, value)?;
        Ok(())
    }

    /// Gives a name a value, where it has none.
    pub fn put_first(&mut self, name: &'a [u8], value: V) -> Result<(), Memory>
        ensures { OnOk result (Adds self.old ((name.now, value) ∷ []) self.new) }
    {
        if let None = self.get(name) {
            self.put(name, value)?;
        }
        Ok(())
    }

    /// The place of a name among the names, counted from 0, in the order in which they came.
    pub fn position(&self, name: &[u8]) -> Option<usize>
        ensures position { result ≡ position (λ e. bytes_eq name.now e.0) self.now }
        ensures within { IfSome result (λ i. i < length self.now) }
    {
        self.entries.get_index_of(name)
    }

    /// Gives a name another value, where it has one.
    pub fn replace(&mut self, name: &[u8], value: V) -> bool
        ensures there { result ≡ is_some (look_up name.now self.old) }
        ensures value { self.new ≡ with_value name.now value self.old }
    {
        if let Some(slot) = self.entries.get_mut(name) {
            *slot = value;
            true
        } else {
            false
        }
    }
}
