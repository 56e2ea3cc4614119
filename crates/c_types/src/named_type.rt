//! The types of names.
ghost use Rattle.std.specs.Prelude.{◌≡◌};
ghost use Rattle.c_tree.specs.declared.item.CType.TheVariants.{Integer};
ghost use Rattle.name_table.specs.Entries.{lent};
ghost use Rattle.c_widths.specs.DataModel.{model_of};
ghost use Rattle.c_types.specs.ExpressionTypes as spec;
ghost use Rattle.c_types.specs.StatementTypes.{points_to_const};
ghost use Rattle.c_types.specs.Verdict.{Passes, sort_shown};

use crate::refusing::{Sort, mismatch};
use c_mean::{CFault, CType, IntType, Place, Spelled, Target};
use c_widths::Widths;
use std::marker::Model;

/// The type of a local, a parameter or a field.
#[derive(Drop)]
pub struct NamedType<'a> {
    kind: Kind<'a>,
}

#[derive(Clone, Copy)]
enum Kind<'a> {
    /// Of a local.
    Integer(Spelled),
    /// As it stands in a tree.
    Given(&'a CType),
}

impl<'a> Model for NamedType<'a> {
    ghost use Rattle.c_tree.specs.declared.item.CType.{CType};
    ghost use Rattle.c_types.specs.Blocks.{shown};

    ghost Value = { CType };

    ghost view = { λ t. shown t.kind };
}

impl<'a> NamedType<'a> {
    pub fn integer(kind: Spelled) -> NamedType<'a>
        ensures { result ≡ Integer kind }
    {
        NamedType {
            kind: Kind::Integer(kind),
        }
    }

    pub fn given(kind: &'a CType) -> NamedType<'a>
        ensures { result ≡ kind.now }
    {
        NamedType {
            kind: Kind::Given(kind),
        }
    }

    /// What sort of operand such a name is.
    pub fn sort(&self) -> Sort
        ensures { sort_shown result ≡ spec.sort_of self.now }
    {
        match self.kind {
            Kind::Integer(_) => Sort::Number,
            Kind::Given(kind) => sort_of(kind),
        }
    }

    /// Its type, where it is an integer.
    pub fn integer_type<const INT: u32, const LONG: u32, const PTR: u32>(&self) -> Option<IntType>
        ensures { result ≡ spec.integer_type (model_of INT LONG PTR) self.now }
    {
        match self.kind {
            Kind::Integer(kind) => Some(Widths::<INT, LONG, PTR>::type_of(kind)),
            Kind::Given(kind) => integer_type::<INT, LONG, PTR>(kind),
        }
    }

    /// The tag of the struct that it points to.
    pub fn tag(&self) -> Option<&'a [u8]>
        ensures { lent result ≡ spec.tag_of self.now }
    {
        match self.kind {
            Kind::Integer(_) => None,
            Kind::Given(kind) => tag_of(kind),
        }
    }

    /// Refuses all but pointers to bytes.
    #[tactic(auto, unfolding(crate::specs::Verdict::Refuses))]
    pub fn check_bytes(&self, place: Place) -> Result<(), CFault>
        ensures { Passes result (spec.bytes_faults self.now place) }
    {
        match self.kind {
            Kind::Integer(_) => Err(mismatch(place)),
            Kind::Given(kind) => check_bytes(kind, place),
        }
    }

    /// Whether nothing may be written through it.
    pub fn points_to_const(&self) -> bool
        ensures { result ≡ points_to_const self.now }
    {
        match self.kind {
            Kind::Integer(_) => false,
            Kind::Given(kind) => given_to_const(kind),
        }
    }
}

fn sort_of(kind: &CType) -> Sort
    ensures { sort_shown result ≡ spec.sort_of kind.now }
{
    match kind {
        CType::Void => Sort::Void,
        CType::Integer(_) => Sort::Number,
        CType::Pointer {
            target: Target::Byte,
            constant: _,
        } => Sort::Bytes,
        CType::Pointer {
            target: Target::Struct(_),
            constant: _,
        } => Sort::Struct,
    }
}

/// Its type, where it is an integer.
pub fn integer_type<const INT: u32, const LONG: u32, const PTR: u32>(
    kind: &CType,
) -> Option<IntType>
    ensures { result ≡ spec.integer_type (model_of INT LONG PTR) kind.now }
{
    match kind {
        CType::Integer(kind) => Some(Widths::<INT, LONG, PTR>::type_of(*kind)),
        _ => None,
    }
}

/// The tag of the struct that it points to.
pub fn tag_of(kind: &CType) -> Option<&[u8]>
    ensures { lent result ≡ spec.tag_of kind.now }
{
    match kind {
        CType::Pointer {
            target: Target::Struct(tag),
            constant: _,
        } => Some(tag.bytes()),
        _ => None,
    }
}

#[tactic(auto, unfolding(crate::specs::Verdict::Refuses))]
fn check_bytes(kind: &CType, place: Place) -> Result<(), CFault>
    ensures { Passes result (spec.bytes_faults kind.now place) }
{
    match kind {
        CType::Pointer {
            target: Target::Byte,
            constant: _,
        } => Ok(()),
        _ => Err(mismatch(place)),
    }
}

fn given_to_const(kind: &CType) -> bool
    ensures { result ≡ points_to_const kind.now }
{
    match kind {
        CType::Pointer {
            target: _,
            constant,
        } => *constant,
        _ => false,
    }
}
