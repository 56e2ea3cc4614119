//! What surrounds a function's body.
ghost use Rattle.std.specs.Prelude.{◌≡◌};
ghost use Rattle.c_widths.specs.DataModel.{IsModel, model_of};
ghost use Rattle.c_types.specs.ExpressionTypes as types;
ghost use Rattle.c_effect.specs.World as spec;
ghost use Rattle.c_effect.specs.Loading as loading;
ghost use Rattle.c_exec.specs.Shown.{world_of};
ghost use Rattle.c_types.specs.FieldNamed.{field_in};
ghost use Rattle.c_types.specs.Setting.{structs};
ghost use Rattle.std.specs.Option.{option_map};

use crate::calls::Calls;
use crate::locals::Locals;
use c_effect::{Object, Objects, Pointer, Slot, Stop, TypedValue, Undefined};
use c_mean::{CType, IntType, Place};
use c_types::TypedUnit;
use c_widths::Widths;
use std::alloc::Global;

/// The unit of a function, and what calls in its body mean.
#[derive(Drop)]
pub struct World<'a, C: Calls, const INT: u32, const LONG: u32, const PTR: u32> {
    pub alloc: Global,
    pub unit: &'a TypedUnit<'a, INT, LONG, PTR>,
    pub calls: &'a C,
    pub ghost model: { IsModel INT LONG PTR },
}

impl<'a, C: Calls, const INT: u32, const LONG: u32, const PTR: u32> World<'a, C, INT, LONG, PTR> {
    /// The cell of the field with a name in the object at a pointer.
    pub fn slot_at(
        &self,
        pointer: Pointer,
        name: &[u8],
        objects: &Objects,
    ) -> Result<Slot, Undefined>
        ensures { result ≡ loading.slot_at (world_of INT LONG PTR self.now.unit.now (C.meaning self.now.calls.now)) pointer name.now objects.now }
    {
        match objects.target(pointer)? {
            Object::Fields { tag, cells: _ } => self.slot_named(tag.bytes(), name),
            Object::Bytes(_) => Err(Undefined::Indeterminate),
        }
    }

    /// The cell of the field with a name in the struct with a tag.
    #[tactic(auto, unfolding(c_effect::specs::Loading::slot_named))]
    fn slot_named(&self, tag: &[u8], name: &[u8]) -> Result<Slot, Undefined>
        ensures { result ≡ loading.slot_named (world_of INT LONG PTR self.now.unit.now (C.meaning self.now.calls.now)) tag.now name.now }
    {
        match self.unit.field(tag, name) {
            Some((number, field)) => integer_slot(
                number,
                integer_type::<INT, LONG, PTR>(&field.kind),
            ),
            None => Err(Undefined::Indeterminate),
        }
    }

    /// `base->name`.
    pub fn member(
        &self,
        base: &[u8],
        name: &[u8],
        locals: &Locals<'_>,
        objects: &Objects,
    ) -> Result<TypedValue, Undefined>
        ensures { result ≡ loading.member (world_of INT LONG PTR self.now.unit.now (C.meaning self.now.calls.now)) base.now name.now locals.now objects.now }
    {
        let pointer = locals.read_pointer(base)?;
        let slot = self.slot_at(pointer, name, objects)?;
        let value = objects.load(pointer, slot.number as i128)?;
        Ok(TypedValue {
            kind: slot.kind,
            value,
        })
    }
}

fn integer_slot(number: usize, kind: Option<IntType>) -> Result<Slot, Undefined>
    ensures { result ≡ loading.integer_slot number kind }
{
    match kind {
        Some(kind) => Ok(Slot { number, kind }),
        None => Err(Undefined::Indeterminate),
    }
}

/// The type of an integer.
pub fn integer_type<const INT: u32, const LONG: u32, const PTR: u32>(
    kind: &CType,
) -> Option<IntType>
    ensures { result ≡ types.integer_type (model_of INT LONG PTR) kind.now }
{
    match kind {
        CType::Integer(spelled) => Some(Widths::<INT, LONG, PTR>::type_of(*spelled)),
        _ => None,
    }
}

/// `base[index]`.
pub fn element(
    base: &[u8],
    index: i128,
    locals: &Locals<'_>,
    objects: &Objects,
) -> Result<TypedValue, Undefined>
    ensures { result ≡ loading.element base.now index locals.now objects.now }
{
    let pointer = locals.read_pointer(base)?;
    let value = objects.load(pointer, index)?;
    Ok(TypedValue {
        kind: IntType::UnsignedChar,
        value,
    })
}

/// Undefined behaviour, shown at a place.
pub fn shown_at<T>(place: Place, found: Result<T, Undefined>) -> Result<T, Stop>
    ensures { result ≡ spec.shown_at place found }
{
    match found {
        Ok(value) => Ok(value),
        Err(kind) => Err(Stop { kind, place }),
    }
}
