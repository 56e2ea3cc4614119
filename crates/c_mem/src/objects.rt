//! Objects of bytes and of fields, and pointers to them.
ghost use Rattle.std.specs.Prelude.{◌≡◌, ◌<◌, length, slice_get, Some, true};
ghost use Rattle.c_mem.specs.Objects as spec;

use crate::cells::Cells;
use crate::undefined::Undefined;
use cg_out::Text;
use std::marker::Model;

/// An object (6.2.4): cells by numbers.
#[derive(Debug, Drop)]
pub enum Object {
    Bytes(Cells<u8>),
    /// Of a struct with this tag, a cell for each field in order.
    Fields { tag: Text, cells: Cells<i128> },
}

impl Object {
    /// The number that a cell holds.
    fn load(&self, at: i128) -> Result<i128, Undefined>
        ensures { result ≡ spec.load_in self.now at }
    {
        match self {
            Object::Bytes(cells) => Ok(cells.load(at)? as i128),
            Object::Fields { tag: _, cells } => cells.load(at),
        }
    }

    /// Whether there is a cell with this number.
    fn has(&self, at: i128) -> bool
        ensures { result ≡ spec.has_cell self.now at }
    {
        match self {
            Object::Bytes(cells) => cells.has(at),
            Object::Fields { tag: _, cells } => cells.has(at),
        }
    }

    /// Puts a number into a cell; a byte holds it modulo 256.
    fn set(&mut self, at: i128, number: i128)
        requires { spec.has_cell self.old at ≡ true }
        ensures { self.new ≡ spec.with_cell self.old at number }
    {
        match self {
            Object::Bytes(cells) => cells.set(at, byte_of(number)),
            Object::Fields { tag: _, cells } => cells.set(at, number),
        }
    }

    /// Whether it has as many bytes.
    fn has_bytes(&self, count: u64) -> bool
        ensures { result ≡ spec.has_bytes self.now count }
    {
        match self {
            Object::Bytes(cells) => count <= cells.items().len() as u64,
            Object::Fields { tag: _, cells: _ } => false,
        }
    }

    /// Gives its first bytes a value.
    fn fill(&mut self, byte: u8, count: u64)
        requires { spec.has_bytes self.old count ≡ true }
        ensures { self.new ≡ spec.with_bytes self.old byte count }
    {
        if let Object::Bytes(cells) = self {
            cells.fill(byte, count);
        }
    }
}

/// The byte that stands for a number: the number modulo 256.
pub fn byte_of(number: i128) -> u8
    ensures { result ≡ spec.byte_of number }
{
    number.rem_euclid(256) as u8
}

/// A pointer (6.2.5p20).
#[derive(Clone, Copy, Debug, PartialEq, Eq)]
pub enum Pointer {
    Null,
    /// To no object.
    Stray,
    /// To the first cell of the object with this number, counted from 0.
    At(u32),
}

/// Objects by their numbers; contracts see the list of them.
#[derive(Debug, Drop)]
pub struct Objects {
    list: Vec<Object>,
}

impl Model for Objects {
    ghost use Rattle.std.specs.Prelude.{List};
    ghost use Rattle.c_mem.specs.declared.objects.Object.{Object as Whole};

    ghost Value = { List Whole };

    ghost view = { λ o. o.list.items };
}

impl Objects {
    pub fn new(list: Vec<Object>) -> Objects
        ensures { result ≡ list.items }
    {
        Objects { list }
    }

    /// The object with a number.
    pub fn object(&self, index: u32) -> &Object
        requires { index < length self.now }
        ensures { slice_get self.now index ≡ Some result.now }
    {
        &self.list[index as usize]
    }

    /// The object that a pointer is at.
    pub fn target(&self, pointer: Pointer) -> Result<&Object, Undefined>
        ensures { spec.Lends result (spec.target self.now pointer) }
    {
        match pointer {
            Pointer::Null => Err(Undefined::NullUse),
            Pointer::Stray => Err(Undefined::OutOfBounds),
            Pointer::At(index) => match self.list.get(index as usize) {
                Some(object) => Ok(object),
                None => Err(Undefined::OutOfBounds),
            },
        }
    }

    /// The number that a cell of the object at a pointer holds.
    pub fn load(&self, pointer: Pointer, cell: i128) -> Result<i128, Undefined>
        ensures { result ≡ spec.load self.now pointer cell }
    {
        self.target(pointer)?.load(cell)
    }

    /// Puts a number into a cell of the object at a pointer.
    pub fn store(&mut self, pointer: Pointer, cell: i128, number: i128) -> Result<(), Undefined>
        ensures { spec.Changes self.old self.new result (spec.store self.old pointer cell number) }
    {
        match pointer {
            Pointer::Null => Err(Undefined::NullUse),
            Pointer::Stray => Err(Undefined::OutOfBounds),
            Pointer::At(index) => self.store_at(index as usize, cell, number),
        }
    }

    /// Gives the first bytes of the object at a pointer a value (7.21.6.1).
    pub fn fill(&mut self, pointer: Pointer, byte: u8, count: u64) -> Result<(), Undefined>
        ensures { spec.Changes self.old self.new result (spec.fill self.old pointer byte count) }
    {
        match pointer {
            Pointer::Null => Err(Undefined::NullUse),
            Pointer::Stray => Err(Undefined::OutOfBounds),
            Pointer::At(index) => self.fill_at(index as usize, byte, count),
        }
    }

    fn store_at(&mut self, index: usize, cell: i128, number: i128) -> Result<(), Undefined>
        ensures { spec.Changes self.old self.new result (spec.store_at self.old index cell number) }
    {
        if index >= self.list.len() || !self.list[index].has(cell) {
            return Err(Undefined::OutOfBounds);
        }
        self.list[index].set(cell, number);
        Ok(())
    }

    fn fill_at(&mut self, index: usize, byte: u8, count: u64) -> Result<(), Undefined>
        ensures { spec.Changes self.old self.new result (spec.fill_at self.old index byte count) }
    {
        if index >= self.list.len() || !self.list[index].has_bytes(count) {
            return Err(Undefined::OutOfBounds);
        }
        self.list[index].fill(byte, count);
        Ok(())
    }
}
