//! Locals and parameters (ISO/IEC 9899:1999, 6.2.1 and 6.2.4).
ghost use Rattle.std.specs.Prelude.{◌≡◌, [], ◌∷◌, Some, OnOk, IfOk};
ghost use Rattle.name_table.specs.Entries.{lent};
ghost use Rattle.c_effect.specs.Locals as spec;

use c_effect::{Held, Pointer, Undefined, Value};
use c_operators::TypedValue;
use cg_out::Memory;
use name_table::Table;
use std::alloc::Global;
use std::marker::Model;

/// What the locals of the blocks that are open hold. As many blocks are open as brackets at most.
#[derive(Drop)]
pub struct Locals<'a> {
    /// The innermost first.
    blocks: Vec<Table<'a, Held>>,
}

impl<'a> Model for Locals<'a> {
    ghost use Rattle.std.specs.Prelude.{List};
    ghost use Rattle.c_effect.specs.Locals.{Block};

    ghost Value = { List Block };

    ghost view = { λ l. l.blocks.items };
}

impl<'a> Locals<'a> {
    /// Those of a function, ahead of its statements.
    pub fn new(alloc: Global, params: Table<'a, Held>) -> Result<Locals<'a>, Memory>
        ensures { IfOk result (λ l. l ≡ params.entry ∷ []) }
    {
        let mut blocks = Vec::new(alloc);
        blocks.push(params)?;
        Ok(Locals { blocks })
    }

    /// What the innermost local of a name holds.
    pub fn held(&self, name: &[u8]) -> Option<&Held>
        ensures { lent result ≡ spec.held_by name.now self.now }
    {
        innermost(name, self.blocks.as_slice())
    }

    /// The value of a local.
    #[tactic(auto, unfolding(c_effect::specs::Locals::read_local))]
    pub fn read(&self, name: &[u8]) -> Result<Value, Undefined>
        ensures { result ≡ spec.read_local name.now self.now }
    {
        match self.held(name) {
            Some(held) => value_of(*held),
            None => Err(Undefined::Indeterminate),
        }
    }

    /// The pointer that a local holds.
    #[tactic(auto, unfolding(c_effect::specs::Locals::read_pointer))]
    pub fn read_pointer(&self, name: &[u8]) -> Result<Pointer, Undefined>
        ensures { result ≡ spec.read_pointer name.now self.now }
    {
        match self.held(name) {
            Some(Held::Pointer(pointer)) => Ok(*pointer),
            _ => Err(Undefined::Indeterminate),
        }
    }

    /// Gives the innermost local of a name another value.

    pub fn set(&mut self, name: &[u8], held: Held)
        ensures { self.new ≡ spec.set_local name.now held self.old }
    {
        for index in 0..self.blocks.len() {
            if self.blocks[index].replace(name, held) {
                return;
            }
        }
    }

    /// Adds a local to the innermost block.
    #[tactic(auto, unfolding(c_effect::specs::Locals::declare_local))]
    pub fn declare(&mut self, name: &'a [u8], held: Held) -> Result<(), Memory>
        ensures { OnOk result (self.new ≡ spec.declare_local name.now held self.old) }
    {
        if self.blocks.len() > 0 {
            return put_in(&mut self.blocks[0], name, held);
        }
        let mut block = Table::new(*self.blocks.allocator());
        put_in(&mut block, name, held)?;
        self.blocks.push(block)?;
        Ok(())
    }

    /// Opens a block.
    pub fn open(&mut self, alloc: Global) -> Result<(), Memory>
        ensures { OnOk result (self.new ≡ spec.opened self.old) }
    {
        self.blocks.insert(0, Table::new(alloc))?;
        Ok(())
    }

    /// Closes it; the outermost block stays.
    pub fn close(&mut self)
        ensures { self.new ≡ spec.closed self.old }
    {
        if self.blocks.len() > 1 {
            let _closed = self.blocks.remove(0);
        }
    }
}

/// What the first of these blocks that has a name holds by it.
fn innermost<'a, 's>(name: &[u8], blocks: &'s [Table<'a, Held>]) -> Option<&'s Held>
    ensures { lent result ≡ spec.held_by name.now blocks.now }
{
    for block in blocks {
        if let Some(held) = block.get(name) {
            return Some(held);
        }
    }
    None
}

fn value_of(held: Held) -> Result<Value, Undefined>
    ensures { result ≡ spec.value_of (Some held) }
{
    match held {
        Held::Integer(kind, Some(value)) => Ok(Value::Integer(TypedValue { kind, value })),
        Held::Integer(_, None) => Err(Undefined::Indeterminate),
        Held::Pointer(pointer) => Ok(Value::Pointer(pointer)),
    }
}

/// The type of a local of integers.
pub fn number_kind(held: Option<&Held>) -> Option<c_mean::IntType>
    ensures { result ≡ spec.number_kind (lent held.entry) }
{
    match held {
        Some(Held::Integer(kind, _)) => Some(*kind),
        _ => None,
    }
}

/// Adds a name to a block.
#[tactic(auto, using(crate::proofs::Blocks::absent))]
pub fn put_in<'a>(block: &mut Table<'a, Held>, name: &'a [u8], held: Held) -> Result<(), Memory>
    ensures { OnOk result (block.new ≡ spec.with_name name.now held block.old) }
{
    if block.replace(name, held) {
        return Ok(());
    }
    block.put(name, held)
}
