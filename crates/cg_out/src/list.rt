//! A `Vec` that contracts see as the list of its items.
ghost use Rattle.std.specs.Prelude.{◌≡◌, [], ◌∷◌, ◌++◌, OnOk, OnErr};

use crate::fault::Memory;
use std::alloc::Global;
use std::marker::Model;

/// A growing list, also of a type that leads back to itself.
#[derive(Debug, Drop)]
pub struct List<T> {
    content: Vec<T>,
}

impl<T> Model for List<T> {
    ghost use Rattle.std.specs.Prelude.{List as Items};
    ghost use Rattle.std.specs.Coded.{coded_list};

    ghost Value = { Items T };

    ghost coded = { coded_list T.code };

    ghost view = { λ l. l.content.items };
}

impl<T> List<T> {
    /// The empty list, which takes no memory; the allocator is kept for `push`.
    pub fn new(alloc: Global) -> List<T>
        ensures { result ≡ [] }
    {
        List {
            content: Vec::new(alloc),
        }
    }

    /// Lends the items, first to last.
    pub fn items(&self) -> &[T]
        ensures { result.now ≡ self.now }
    {
        self.content.as_slice()
    }
}

impl<T: Drop> List<T> {
    /// Puts the item last; where memory is wanting the list stays as it was.
    pub fn push(&mut self, item: T) -> Result<(), Memory>
        ensures ok { OnOk result (self.new ≡ self.old ++ item ∷ []) }
        ensures err { OnErr result (self.new ≡ self.old) }
    {
        self.content.push(item)?;
        Ok(())
    }
}
