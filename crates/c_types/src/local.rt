//! Names that are declared inside functions (ISO/IEC 9899:1999, 6.2.1).
ghost use Rattle.std.specs.Prelude.{◌≡◌, None, [], ◌∷◌, ◌++◌, OnOk};
ghost use Rattle.c_tree.specs.declared.item.CType.TheVariants.{Integer};
ghost use Rattle.name_table.specs.Entries.{lent};
ghost use Rattle.c_types.specs.Scope as spec;
ghost use Rattle.c_types.specs.Blocks.{closed};
ghost use Rattle.c_types.specs.Verdict.{Passes};

use crate::named_type::NamedType;
use c_mean::{CFault, CKind, Place, Spelled};
use cg_out::Memory;
use name_table::Table;
use std::alloc::Global;
use std::marker::Model;
use std::mem;

/// What the blocks that are open declare so far.
#[derive(Drop)]
pub struct Scopes<'a> {
    outer: Vec<Table<'a, NamedType<'a>>>,
    inner: Table<'a, NamedType<'a>>,
}

impl<'a> Model for Scopes<'a> {
    ghost use Rattle.c_types.specs.Scope.{Scope};

    ghost Value = { Scope };

    ghost view = { λ s. record { outer = s.outer.items; inner = s.inner } };
}

impl<'a> Scopes<'a> {
    /// The scope of a function's parameters.
    pub fn new(alloc: Global, params: Table<'a, NamedType<'a>>) -> Scopes<'a>
        ensures { result ≡ record { outer = []; inner = params.entry } }
    {
        Scopes {
            outer: Vec::new(alloc),
            inner: params,
        }
    }

    /// The type of the local or parameter that a name stands for.
    pub fn type_named(&self, name: &[u8]) -> Option<&NamedType<'a>>
        ensures { lent result ≡ spec.type_named name.now self.now }
    {
        match self.inner.get(name) {
            Some(kind) => Some(kind),
            None => innermost(name, self.outer.as_slice()),
        }
    }

    /// Declares a local in the innermost block.
    pub fn declare(&mut self, name: &'a [u8], kind: Spelled, place: Place) -> Result<(), CFault>
        ensures passes { Passes result (spec.name_faults name.now place self.old.inner) }
        ensures declares { OnOk result (self.new ≡ spec.behind ((name.now, Integer kind) ∷ []) self.old) }
    {
        declare_in(&mut self.inner, name, NamedType::integer(kind), place)
    }

    /// Opens a block.
    pub fn open(&mut self, alloc: Global) -> Result<(), Memory>
        ensures { OnOk result (self.new ≡ spec.opened self.old) }
    {
        let around = mem::replace(&mut self.inner, Table::new(alloc));
        self.outer.push(around)?;
        Ok(())
    }

    /// Closes it.
    pub fn close(&mut self)
        ensures { self.new ≡ closed self.old }
    {
        if let Some(around) = self.outer.pop() {
            let _closed = mem::replace(&mut self.inner, around);
        }
    }
}

/// The type that the innermost of these blocks gives a name.
fn innermost<'a, 's>(
    name: &[u8],
    blocks: &'s [Table<'a, NamedType<'a>>],
) -> Option<&'s NamedType<'a>>
    ensures { lent result ≡ spec.innermost name.now blocks.now None }
{
    let mut found = None;
    for block in blocks {
        if let Some(kind) = block.get(name) {
            found = Some(kind);
        }
    }
    found
}

/// Whether no name may be declared like this.
pub fn is_reserved(name: &[u8]) -> bool
    ensures { result ≡ spec.is_reserved name.now }
{
    match name {
        [] => false,
        [first, ..] => *first == b'_',
    }
}

/// Declares a name behind those of a list.
#[tactic(auto, unfolding(crate::specs::Verdict::Refuses))]
pub fn declare_in<'a>(
    list: &mut Table<'a, NamedType<'a>>,
    name: &'a [u8],
    kind: NamedType<'a>,
    place: Place,
) -> Result<(), CFault>
    ensures passes { Passes result (spec.name_faults name.now place list.old) }
    ensures declares { OnOk result (list.new ≡ list.old ++ (name.now, kind.entry) ∷ []) }
{
    if let Some(_) = list.get(name) {
        return Err(CFault::Fault {
            kind: CKind::Redeclared,
            place,
        });
    }
    if is_reserved(name) {
        return Err(CFault::Fault {
            kind: CKind::ReservedName,
            place,
        });
    }
    list.put(name, kind)?;
    Ok(())
}
