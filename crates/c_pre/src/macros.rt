//! The macros behind the lines that were read (6.10.3).
ghost use Rattle.std.specs.Prelude.{◌≡◌, ◌∷◌, ◌++◌, [], map, None, IfOk, OnOk};
ghost use Rattle.std.specs.Option.{option_map};
ghost use Rattle.c_text.specs.Preprocessing.{macro_of};
ghost use Rattle.c_pre.specs.Shown.{flats};
ghost use Rattle.c_pre.specs.Run.{look};

use crate::copying::copy_of_all;
use c_text::{Macro, Token};
use cg_out::{List, Memory, Text};
use indexmap::IndexMap;
use std::alloc::Global;
use std::marker::Model;

/// Each name that is a macro with its first body, in the order of first definitions.
#[derive(Drop)]
pub struct Macros<'a> {
    table: IndexMap<&'a [u8], &'a [Token]>,
}

impl<'a> Model for Macros<'a> {
    ghost use Rattle.std.specs.Prelude.{List, map};
    ghost use Rattle.c_text.specs.declared.place.Place.{Place};
    ghost use Rattle.c_text.specs.Preprocessing.{NamedBody};
    ghost use Rattle.c_pre.specs.Entries.{named};

    ghost Value = { List (NamedBody Place) };

    ghost view = { λ m. map named m.table.entries };
}

impl<'a> Macros<'a> {
    pub fn new(alloc: Global) -> Macros<'a>
        ensures { result ≡ [] }
    {
        Macros {
            table: IndexMap::new(alloc),
        }
    }

    /// The body of the macro with this name.
    pub fn body_of(&self, name: &[u8]) -> Option<&'a [Token]>
        ensures { option_map (λ ts. flats ts.now) result ≡ look name.now self.now }
    {
        self.table.get(name).copied()
    }

    /// Puts a macro last.
    pub fn define(&mut self, name: &'a [u8], body: &'a [Token]) -> Result<(), Memory>
        requires { look name.now self.old ≡ None }
        ensures { OnOk result (self.new ≡ self.old ++ (name.now, flats body.now) ∷ []) }
    {
        self.table.insert(name, body)?;
        Ok(())
    }

    /// Copies of all of them.
    pub fn list(&self, alloc: Global) -> Result<List<Macro>, Memory>
        ensures { IfOk result (λ ms. ms ≡ map macro_of self.now) }
    {
        let mut list = List::new(alloc);
        for (name, body) in self.table.iter() {
            list.push(copy_of(alloc, *name, *body)?)?;
        }
        Ok(list)
    }
}

fn copy_of(alloc: Global, name: &[u8], body: &[Token]) -> Result<Macro, Memory>
    ensures { IfOk result (λ m. m ≡ record { name = name.now; body = body.now }) }
{
    Ok(Macro {
        name: Text::copy_of(alloc, name)?,
        body: copy_of_all(alloc, body)?,
    })
}
