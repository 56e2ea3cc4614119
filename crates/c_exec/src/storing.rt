//! Statements that change locals and objects (ISO/IEC 9899:1999, 6.5.16, 6.7.8 and 7.21.6.1).
ghost use Rattle.std.specs.Prelude.{◌≡◌};
ghost use Rattle.c_widths.specs.DataModel.{IsModel, model_of};
ghost use Rattle.c_widths.specs.IntegerType.{type_of};
ghost use Rattle.c_effect.specs.Storing as spec;
ghost use Rattle.c_exec.specs.Answers.{Ends};
ghost use Rattle.c_exec.specs.Shown.{world_of};

use crate::calls::Calls;
use crate::halt::Halt;
use crate::locals::{Locals, number_kind};
use crate::value::{number, value};
use crate::world::{World, shown_at};
use c_effect::{Flow, Held, Objects, Pointer, Stop, TypedValue, Undefined, Value};
use c_mean::{AssignOp, BinaryOp, Expr, ExprKind, IntType, Place, Spelled};
use c_mem::byte_of;
use c_operators::{Operators, number_of, pointer_of};
use c_widths::Widths;

/// An operator with its place, and the place that it stores into.
#[derive(Clone, Copy, Debug)]
pub struct Change {
    pub op: Option<BinaryOp>,
    pub op_place: Place,
    pub place: Place,
}

/// Runs an assignment.
#[tactic(auto, unfolding(c_effect::specs::Storing::assignment))]
pub fn assign<C: Calls, const INT: u32, const LONG: u32, const PTR: u32>(
    target: &Expr,
    op: AssignOp,
    place: Place,
    right: &Expr,
    world: &World<'_, C, INT, LONG, PTR>,
    locals: &mut Locals<'_>,
    objects: &mut Objects,
) -> Result<Flow, Halt>
    ensures { Ends result locals.new objects.new (spec.assignment (world_of INT LONG PTR world.now.unit.now (C.meaning world.now.calls.now)) target.now op place right.now locals.old objects.old) }
{
    let change = Change {
        op: operator_of(op),
        op_place: place,
        place: target.place,
    };
    match &target.kind {
        ExprKind::Name(name) => into_local(name.bytes(), change, right, world, locals, objects),
        ExprKind::Element { base, index } => {
            into_element(
                base.bytes(),
                index.get(),
                change,
                right,
                world,
                locals,
                objects,
            )
        }
        ExprKind::Member { base, field } => {
            into_member(
                base.bytes(),
                field.bytes(),
                change,
                right,
                world,
                locals,
                objects,
            )
        }
        _ => Err(Halt::Stopped(Stop {
            kind: Undefined::Indeterminate,
            place: target.place,
        })),
    }
}

fn into_local<C: Calls, const INT: u32, const LONG: u32, const PTR: u32>(
    name: &[u8],
    change: Change,
    right: &Expr,
    world: &World<'_, C, INT, LONG, PTR>,
    locals: &mut Locals<'_>,
    objects: &Objects,
) -> Result<Flow, Halt>
    ensures { Ends result locals.new objects.now (spec.into_local (world_of INT LONG PTR world.now.unit.now (C.meaning world.now.calls.now)) name.now change.place change.op change.op_place right.now locals.old objects.now) }
{
    let right = number(right, world, locals, objects)?;
    let Some(kind) = number_kind(locals.held(name)) else {
        return Err(Halt::Stopped(Stop {
            kind: Undefined::Indeterminate,
            place: change.place,
        }));
    };
    let loaded = number_in(shown_at(change.place, locals.read(name)));
    let stored = assigned::<INT, LONG, PTR>(change, kind, loaded, right)?;
    locals.set(name, Held::Integer(kind, Some(stored)));
    Ok(Flow::Next)
}

fn into_element<C: Calls, const INT: u32, const LONG: u32, const PTR: u32>(
    base: &[u8],
    index: &Expr,
    change: Change,
    right: &Expr,
    world: &World<'_, C, INT, LONG, PTR>,
    locals: &Locals<'_>,
    objects: &mut Objects,
) -> Result<Flow, Halt>
    ensures { Ends result locals.now objects.new (spec.into_element (world_of INT LONG PTR world.now.unit.now (C.meaning world.now.calls.now)) base.now index.now change.place change.op change.op_place right.now locals.now objects.old) }
{
    let index = number(index, world, locals, objects)?;
    let right = number(right, world, locals, objects)?;
    let pointer = shown_at(change.place, locals.read_pointer(base))?;
    into_cell::<INT, LONG, PTR>(
        pointer,
        index.value,
        IntType::UnsignedChar,
        change,
        right,
        locals,
        objects,
    )
}

fn into_member<C: Calls, const INT: u32, const LONG: u32, const PTR: u32>(
    base: &[u8],
    field: &[u8],
    change: Change,
    right: &Expr,
    world: &World<'_, C, INT, LONG, PTR>,
    locals: &Locals<'_>,
    objects: &mut Objects,
) -> Result<Flow, Halt>
    ensures { Ends result locals.now objects.new (spec.into_member (world_of INT LONG PTR world.now.unit.now (C.meaning world.now.calls.now)) base.now field.now change.place change.op change.op_place right.now locals.now objects.old) }
{
    let right = number(right, world, locals, objects)?;
    let pointer = shown_at(change.place, locals.read_pointer(base))?;
    let slot = shown_at(change.place, world.slot_at(pointer, field, objects))?;
    into_cell::<INT, LONG, PTR>(
        pointer,
        slot.number as i128,
        slot.kind,
        change,
        right,
        locals,
        objects,
    )
}

/// Stores into a cell of the object at a pointer.
fn into_cell<const INT: u32, const LONG: u32, const PTR: u32>(
    pointer: Pointer,
    cell: i128,
    kind: IntType,
    change: Change,
    right: TypedValue,
    locals: &Locals<'_>,
    objects: &mut Objects,
) -> Result<Flow, Halt>
    requires { IsModel INT LONG PTR }
    ensures { Ends result locals.now objects.new (spec.into_cell (model_of INT LONG PTR) pointer cell kind change.place change.op change.op_place right locals.now objects.old) }
{
    let _locals = locals;
    let loaded = typed_in(kind, shown_at(change.place, objects.load(pointer, cell)));
    let stored = assigned::<INT, LONG, PTR>(change, kind, loaded, right)?;
    match objects.store(pointer, cell, stored) {
        Ok(()) => Ok(Flow::Next),
        Err(kind) => Err(Halt::Stopped(Stop {
            kind,
            place: change.place,
        })),
    }
}

/// What is stored, by what is loaded there and the right side.
fn assigned<const INT: u32, const LONG: u32, const PTR: u32>(
    change: Change,
    kind: IntType,
    loaded: Result<TypedValue, Stop>,
    right: TypedValue,
) -> Result<i128, Stop>
    requires { IsModel INT LONG PTR }
    ensures { result ≡ spec.assigned (model_of INT LONG PTR) change.op change.op_place kind loaded right }
{
    let value = match change.op {
        None => right,
        Some(op) => {
            let left = loaded?;
            shown_at(
                change.op_place,
                Operators::<INT, LONG, PTR>::operate(op, left, right),
            )?
        }
    };
    Ok(Widths::<INT, LONG, PTR>::convert(value.value, kind))
}

fn operator_of(op: AssignOp) -> Option<BinaryOp>
    ensures { result ≡ spec.operator_of op }
{
    match op {
        AssignOp::Set => None,
        AssignOp::BitOr => Some(BinaryOp::BitOr),
        AssignOp::BitAnd => Some(BinaryOp::BitAnd),
        AssignOp::BitXor => Some(BinaryOp::BitXor),
        AssignOp::Add => Some(BinaryOp::Add),
        AssignOp::Subtract => Some(BinaryOp::Subtract),
        AssignOp::ShiftLeft => Some(BinaryOp::ShiftLeft),
        AssignOp::ShiftRight => Some(BinaryOp::ShiftRight),
    }
}

fn number_in(found: Result<Value, Stop>) -> Result<TypedValue, Stop>
    ensures { result ≡ spec.number_in found }
{
    Ok(number_of(found?))
}

fn typed_in(kind: IntType, found: Result<i128, Stop>) -> Result<TypedValue, Stop>
    ensures { result ≡ spec.typed_in kind found }
{
    Ok(TypedValue {
        kind,
        value: found?,
    })
}

/// Runs a declaration; the local is there in its own value.
pub fn declare<'a, C: Calls, const INT: u32, const LONG: u32, const PTR: u32>(
    kind: Spelled,
    name: &'a [u8],
    value: &Option<Expr>,
    world: &World<'_, C, INT, LONG, PTR>,
    locals: &mut Locals<'a>,
    objects: &Objects,
) -> Result<Flow, Halt>
    ensures { Ends result locals.new objects.now (spec.declaration (world_of INT LONG PTR world.now.unit.now (C.meaning world.now.calls.now)) (type_of (model_of INT LONG PTR) kind) name.now value.now locals.old objects.now) }
{
    let kind = Widths::<INT, LONG, PTR>::type_of(kind);
    locals.declare(name, Held::Integer(kind, None))?;
    if let Some(e) = value {
        let found = number(e, world, locals, objects)?;
        let value = Widths::<INT, LONG, PTR>::convert(found.value, kind);
        locals.set(name, Held::Integer(kind, Some(value)));
    }
    Ok(Flow::Next)
}

/// Runs a call of `memset`.
pub fn memset<C: Calls, const INT: u32, const LONG: u32, const PTR: u32>(
    args: &[Expr],
    place: Place,
    world: &World<'_, C, INT, LONG, PTR>,
    locals: &Locals<'_>,
    objects: &mut Objects,
) -> Result<Flow, Halt>
    ensures { Ends result locals.now objects.new (spec.memset (world_of INT LONG PTR world.now.unit.now (C.meaning world.now.calls.now)) place args.now locals.now objects.old) }
{
    match args {
        [pointer, byte, length] => {
            let pointer = value(pointer, world, locals, objects)?;
            let byte = number(byte, world, locals, objects)?;
            let length = number(length, world, locals, objects)?;
            fill::<INT, LONG, PTR>(pointer, byte, length, place, locals, objects)
        }
        _ => Err(Halt::Stopped(Stop {
            kind: Undefined::Indeterminate,
            place,
        })),
    }
}

/// The value as an int and then an unsigned char, the length as a `size_t`.
fn fill<const INT: u32, const LONG: u32, const PTR: u32>(
    pointer: Value,
    byte: TypedValue,
    length: TypedValue,
    place: Place,
    locals: &Locals<'_>,
    objects: &mut Objects,
) -> Result<Flow, Halt>
    requires { IsModel INT LONG PTR }
    ensures { Ends result locals.now objects.new (spec.filling (model_of INT LONG PTR) place pointer byte length locals.now objects.old) }
{
    let _locals = locals;
    let byte = byte_of(Widths::<INT, LONG, PTR>::convert(byte.value, IntType::Int));
    let size = Widths::<INT, LONG, PTR>::type_of(Spelled::Size);
    let length = Widths::<INT, LONG, PTR>::convert(length.value, size).unsigned_abs();
    match objects.fill(pointer_of(pointer), byte, length as u64) {
        Ok(()) => Ok(Flow::Next),
        Err(kind) => Err(Halt::Stopped(Stop { kind, place })),
    }
}
