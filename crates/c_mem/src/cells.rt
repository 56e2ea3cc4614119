//! The cells of an object.
ghost use Rattle.std.specs.Prelude.{◌≡◌, ◌≤◌, length, true};
ghost use Rattle.c_mem.specs.Cells as spec;

use crate::undefined::Undefined;
use std::marker::Model;

/// Cells that hold a value each, or none yet; contracts see the list of them.
#[derive(Debug, Drop)]
pub struct Cells<T> {
    content: Vec<Option<T>>,
}

impl<T> Model for Cells<T> {
    ghost use Rattle.std.specs.Prelude.{List, Option};

    ghost Value = { List (Option T) };

    ghost view = { λ c. c.content.items };
}

impl<T: Copy + Drop> Cells<T> {
    pub fn new(content: Vec<Option<T>>) -> Cells<T>
        ensures { result ≡ content.items }
    {
        Cells { content }
    }

    /// Lends the cells, first to last.
    pub fn items(&self) -> &[Option<T>]
        ensures { result.now ≡ self.now }
    {
        self.content.as_slice()
    }

    /// Whether there is a cell with this number, counted from 0.
    pub fn has(&self, at: i128) -> bool
        ensures { result ≡ spec.has self.now at }
    {
        at >= 0 && at < self.content.len() as i128
    }

    /// What the cell holds.
    pub fn load(&self, at: i128) -> Result<T, Undefined>
        ensures { result ≡ spec.load self.now at }
    {
        if !self.has(at) {
            return Err(Undefined::OutOfBounds);
        }
        match self.content[at as usize] {
            Some(value) => Ok(value),
            None => Err(Undefined::Indeterminate),
        }
    }

    /// Gives the cell a value.
    pub fn set(&mut self, at: i128, value: T)
        requires { spec.has self.old at ≡ true }
        ensures { self.new ≡ spec.with_value self.old at value }
    {
        self.content[at as usize] = Some(value);
    }

    /// Gives the first cells a value.
    #[tactic(auto, using(crate::proofs::Fill::fill_step))]
    pub fn fill(&mut self, value: T, count: u64)
        requires { count ≤ length self.old }
        ensures { self.new ≡ spec.filled self.old value count }
    {
        for i in 0..count as usize {
            self.content[i] = Some(value);
        }
    }
}
