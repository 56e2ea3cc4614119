//! Which part of a switch is run first (ISO/IEC 9899:1999, 6.8.4.2).
ghost use Rattle.std.specs.Prelude.{◌≡◌, ◌<◌, Some, length, drop, option_map, IfOk, IfSome};
ghost use Rattle.c_widths.specs.DataModel.{IsModel, model_of};
ghost use Rattle.c_operators.specs.Sign.{in_promoted};
ghost use Rattle.c_effect.specs.Choosing as spec;
ghost use Rattle.c_effect.specs.StatementEffect.{parts_of};
ghost use Rattle.c_exec.specs.Shown.{world_of};

use crate::calls::Calls;
use crate::halt::Halt;
use crate::locals::Locals;
use crate::value::number;
use crate::world::World;
use c_effect::{Objects, TypedValue};
use c_mean::{Expr, SwitchPart};
use c_widths::Widths;
use cg_out::Memory;

/// The number of the part with the equal case, else of the one with `default`.
#[tactic(auto, unfolding(c_effect::specs::Choosing::chosen))]
pub fn chosen<C: Calls, const INT: u32, const LONG: u32, const PTR: u32>(
    parts: &[SwitchPart],
    value: TypedValue,
    world: &World<'_, C, INT, LONG, PTR>,
    locals: &Locals<'_>,
    objects: &Objects,
) -> Result<Option<usize>, Memory>
    ensures value { let w = world_of INT LONG PTR world.now.unit.now (C.meaning world.now.calls.now) in
        IfOk result (λ o. spec.chosen w value locals.now objects.now (parts_of w parts.now) ≡ option_map (λ i. parts_of w (drop i parts.now)) o) }
    ensures within { IfOk result (λ o. IfSome o (λ i. i < length parts.now)) }
{
    match first_case(parts, value, world, locals, objects)? {
        Some(index) => Ok(Some(index)),
        None => Ok(first_default(parts, world)),
    }
}

fn first_case<C: Calls, const INT: u32, const LONG: u32, const PTR: u32>(
    parts: &[SwitchPart],
    value: TypedValue,
    world: &World<'_, C, INT, LONG, PTR>,
    locals: &Locals<'_>,
    objects: &Objects,
) -> Result<Option<usize>, Memory>
    ensures value { let w = world_of INT LONG PTR world.now.unit.now (C.meaning world.now.calls.now) in
        IfOk result (λ o. spec.from_label (spec.is_case w value locals.now objects.now) (parts_of w parts.now) ≡ option_map (λ i. parts_of w (drop i parts.now)) o) }
    ensures within { IfOk result (λ o. IfSome o (λ i. i < length parts.now)) }
{
    for (index, part) in parts.iter().enumerate() {
        if let SwitchPart::Label {
            value: Some(e),
            place: _,
        } = part
        {
            if is_case(e, value, world, locals, objects)? {
                return Ok(Some(index));
            }
        }
    }
    Ok(None)
}

fn first_default<C: Calls, const INT: u32, const LONG: u32, const PTR: u32>(
    parts: &[SwitchPart],
    world: &World<'_, C, INT, LONG, PTR>,
) -> Option<usize>
    ensures value { let w = world_of INT LONG PTR world.now.unit.now (C.meaning world.now.calls.now) in
        spec.from_label spec.is_default (parts_of w parts.now) ≡ option_map (λ i. parts_of w (drop i parts.now)) result }
    ensures within { IfSome result (λ i. i < length parts.now) }
{
    let _world = world;
    for (index, part) in parts.iter().enumerate() {
        if let SwitchPart::Label {
            value: None,
            place: _,
        } = part
        {
            return Some(index);
        }
    }
    None
}

fn is_case<C: Calls, const INT: u32, const LONG: u32, const PTR: u32>(
    e: &Expr,
    value: TypedValue,
    world: &World<'_, C, INT, LONG, PTR>,
    locals: &Locals<'_>,
    objects: &Objects,
) -> Result<bool, Memory>
    ensures { IfOk result (λ b. b ≡ spec.is_case (world_of INT LONG PTR world.now.unit.now (C.meaning world.now.calls.now)) value locals.now objects.now (Some (Some e.now))) }
{
    match number(e, world, locals, objects) {
        Ok(case) => { Ok(Widths::<INT, LONG, PTR>::convert(case.value, value.kind) == value.value) }
        Err(Halt::Stopped(_)) => Ok(false),
        Err(Halt::Memory) => Err(Memory),
    }
}

/// A number in the type that promotion gives its own.
pub fn promoted<const INT: u32, const LONG: u32, const PTR: u32>(value: TypedValue) -> TypedValue
    requires { IsModel INT LONG PTR }
    ensures { result ≡ in_promoted (model_of INT LONG PTR) value }
{
    let kind = Widths::<INT, LONG, PTR>::promote(value.kind);
    TypedValue {
        kind,
        value: Widths::<INT, LONG, PTR>::convert(value.value, kind),
    }
}
