//! Values of expressions (ISO/IEC 9899:1999, 6.5).
ghost use Rattle.std.specs.Prelude.{◌≡◌};
ghost use Rattle.c_effect.specs.ExpressionValue as values;
ghost use Rattle.c_exec.specs.Answers.{Gives};
ghost use Rattle.c_exec.specs.Shown.{world_of};

use crate::calls::Calls;
use crate::halt::Halt;
use crate::locals::Locals;
use crate::world::{World, element, shown_at};
use c_effect::{Objects, Pointer, Stop, TypedValue, Undefined, Value};
use c_mean::{BinaryOp, Callee, Expr, ExprKind, Place};
use c_operators::{Operators, is_true, number_of, truth_value};
use c_widths::Widths;
use cg_out::List;

/// The value of an expression.
#[cycle(values)]
pub fn value<C: Calls, const INT: u32, const LONG: u32, const PTR: u32>(
    e: &Expr,
    world: &World<'_, C, INT, LONG, PTR>,
    locals: &Locals<'_>,
    objects: &Objects,
) -> Result<Value, Halt>
    ensures { Gives result (values.value (world_of INT LONG PTR world.now.unit.now (C.meaning world.now.calls.now)) e.now locals.now objects.now) }
{
    kind_value(&e.kind, e.place, world, locals, objects)
}

#[cycle(values)]
fn kind_value<C: Calls, const INT: u32, const LONG: u32, const PTR: u32>(
    kind: &ExprKind,
    place: Place,
    world: &World<'_, C, INT, LONG, PTR>,
    locals: &Locals<'_>,
    objects: &Objects,
) -> Result<Value, Halt>
    ensures { Gives result (values.kind_value (world_of INT LONG PTR world.now.unit.now (C.meaning world.now.calls.now)) kind.now place locals.now objects.now) }
{
    match kind {
        ExprKind::Constant(constant) => {
            let found = Operators::<INT, LONG, PTR>::constant(constant);
            Ok(Value::Integer(shown_at(place, found)?))
        }
        ExprKind::Name(name) => Ok(shown_at(place, locals.read(name.bytes()))?),
        ExprKind::Null => Ok(Value::Pointer(Pointer::Null)),
        ExprKind::Member { base, field } => {
            let found = world.member(base.bytes(), field.bytes(), locals, objects);
            Ok(Value::Integer(shown_at(place, found)?))
        }
        ExprKind::Element { base, index } => {
            let index = value(index.get(), world, locals, objects)?;
            let found = element(base.bytes(), number_of(index).value, locals, objects);
            Ok(Value::Integer(shown_at(place, found)?))
        }
        ExprKind::Call { function, args } => {
            let args = values_of(args.items(), world, locals, objects)?;
            let given = called(function, place, args.items(), world)?;
            Ok(Value::Integer(some_given(place, given)?))
        }
        ExprKind::Unary { op, operand } => {
            let operand = value(operand.get(), world, locals, objects)?;
            let found = Operators::<INT, LONG, PTR>::signed(*op, number_of(operand));
            Ok(Value::Integer(shown_at(place, found)?))
        }
        ExprKind::Cast { to, operand } => {
            let operand = value(operand.get(), world, locals, objects)?;
            let kind = Widths::<INT, LONG, PTR>::type_of(*to);
            Ok(Value::Integer(TypedValue {
                kind,
                value: Widths::<INT, LONG, PTR>::convert(number_of(operand).value, kind),
            }))
        }
        ExprKind::Binary { op, left, right } => {
            let left = value(left.get(), world, locals, objects)?;
            joined(right.get(), *op, place, left, world, locals, objects)
        }
        ExprKind::Bracket(inner) => value(inner.get(), world, locals, objects),
    }
}

/// What an operator gives with the value of its left side.
#[cycle(values)]
fn joined<C: Calls, const INT: u32, const LONG: u32, const PTR: u32>(
    right: &Expr,
    op: BinaryOp,
    place: Place,
    left: Value,
    world: &World<'_, C, INT, LONG, PTR>,
    locals: &Locals<'_>,
    objects: &Objects,
) -> Result<Value, Halt>
    ensures { let w = world_of INT LONG PTR world.now.unit.now (C.meaning world.now.calls.now) in
        Gives result (values.integer (values.joined w.model op place left (values.value w right.now) locals.now objects.now)) }
{
    if is_logical(op) {
        return by_right(right, decided(op, is_true(left)), world, locals, objects);
    }
    let right = value(right, world, locals, objects)?;
    let found = Operators::<INT, LONG, PTR>::applied(op, left, right);
    Ok(Value::Integer(shown_at(place, found)?))
}

/// What `&&` or `||` gives, by the right side where the left one does not decide.
#[cycle(values)]
fn by_right<C: Calls, const INT: u32, const LONG: u32, const PTR: u32>(
    right: &Expr,
    decided: Option<bool>,
    world: &World<'_, C, INT, LONG, PTR>,
    locals: &Locals<'_>,
    objects: &Objects,
) -> Result<Value, Halt>
    ensures { let w = world_of INT LONG PTR world.now.unit.now (C.meaning world.now.calls.now) in
        Gives result (values.integer (values.by_right decided (values.value w right.now) locals.now objects.now)) }
{
    match decided {
        Some(is) => Ok(Value::Integer(truth_value(is))),
        None => {
            let right = value(right, world, locals, objects)?;
            Ok(Value::Integer(truth_value(is_true(right))))
        }
    }
}

/// The numbers of arguments, from the left.
#[cycle(values)]
pub fn values_of<C: Calls, const INT: u32, const LONG: u32, const PTR: u32>(
    args: &[Expr],
    world: &World<'_, C, INT, LONG, PTR>,
    locals: &Locals<'_>,
    objects: &Objects,
) -> Result<List<TypedValue>, Halt>
    ensures { Gives result (values.values_of (world_of INT LONG PTR world.now.unit.now (C.meaning world.now.calls.now)) args.now locals.now objects.now) }
{
    let mut numbers = List::new(world.alloc);
    for arg in args {
        let found = value(arg, world, locals, objects)?;
        numbers.push(number_of(found))?;
    }
    Ok(numbers)
}

/// The number of an expression.
pub fn number<C: Calls, const INT: u32, const LONG: u32, const PTR: u32>(
    e: &Expr,
    world: &World<'_, C, INT, LONG, PTR>,
    locals: &Locals<'_>,
    objects: &Objects,
) -> Result<TypedValue, Halt>
    ensures { Gives result (values.number (world_of INT LONG PTR world.now.unit.now (C.meaning world.now.calls.now)) e.now locals.now objects.now) }
{
    Ok(number_of(value(e, world, locals, objects)?))
}

/// What a call in an expression gives.
fn called<C: Calls, const INT: u32, const LONG: u32, const PTR: u32>(
    function: &Callee,
    place: Place,
    args: &[TypedValue],
    world: &World<'_, C, INT, LONG, PTR>,
) -> Result<Option<TypedValue>, Halt>
    ensures { Gives result (values.called (world_of INT LONG PTR world.now.unit.now (C.meaning world.now.calls.now)) place function.now args.now) }
{
    match function {
        Callee::Name(name) => world.calls.call(world.alloc, place, name.bytes(), args),
        Callee::Memset => Err(Halt::Stopped(Stop {
            kind: Undefined::Indeterminate,
            place,
        })),
    }
}

/// The value that a call gave.
fn some_given(place: Place, given: Option<TypedValue>) -> Result<TypedValue, Stop>
    ensures { result ≡ values.given place given }
{
    match given {
        Some(value) => Ok(value),
        None => Err(Stop {
            kind: Undefined::Indeterminate,
            place,
        }),
    }
}

fn is_logical(op: BinaryOp) -> bool
    ensures { result ≡ values.is_logical op }
{
    matches!(op, BinaryOp::LogicalAnd | BinaryOp::LogicalOr)
}

/// What the left side of `&&` and `||` decides.
fn decided(op: BinaryOp, left: bool) -> Option<bool>
    ensures { result ≡ values.decided op left }
{
    match (op, left) {
        (BinaryOp::LogicalAnd, false) => Some(false),
        (BinaryOp::LogicalOr, true) => Some(true),
        _ => None,
    }
}
