//! Parameters of functions, and what a function gives (ISO/IEC 9899:1999, 6.5.2.2 and 6.9.1).
ghost use Rattle.std.specs.Prelude.{◌≡◌, Ok, Some, map, OnOk, IfOk};
ghost use Rattle.c_widths.specs.DataModel.{IsModel, model_of};
ghost use Rattle.c_types.specs.ExpressionTypes as types;
ghost use Rattle.c_effect.specs.FunctionCall as spec;

use crate::locals::put_in;
use crate::world::integer_type;
use c_effect::{Arg, Flow, Held, Stop, TypedValue, Undefined};
use c_mean::{Field, Function, IntType, Place};
use c_widths::Widths;
use cg_out::{List, Memory};
use name_table::Table;
use std::alloc::Global;

/// Adds parameters with what they hold to a block.
pub fn put_params<'a, const INT: u32, const LONG: u32, const PTR: u32>(
    params: &'a [Field],
    args: &[Arg],
    block: &mut Table<'a, Held>,
) -> Result<(), Memory>
    requires { IsModel INT LONG PTR }
    ensures { OnOk result (block.new ≡ spec.with_params (model_of INT LONG PTR) params.now args.now block.old) }
{
    for (param, arg) in params.iter().zip(args) {
        put_param::<INT, LONG, PTR>(param, *arg, block)?;
    }
    Ok(())
}

fn put_param<'a, const INT: u32, const LONG: u32, const PTR: u32>(
    param: &'a Field,
    arg: Arg,
    block: &mut Table<'a, Held>,
) -> Result<(), Memory>
    requires { IsModel INT LONG PTR }
    ensures { OnOk result (block.new ≡ spec.with_param param.now.name (spec.taken_as (model_of INT LONG PTR) (types.integer_type (model_of INT LONG PTR) param.now.kind) arg) block.old) }
{
    match taken_as::<INT, LONG, PTR>(integer_type::<INT, LONG, PTR>(&param.kind), arg) {
        Some(held) => put_in(block, param.name.bytes(), held),
        None => Ok(()),
    }
}

fn taken_as<const INT: u32, const LONG: u32, const PTR: u32>(
    kind: Option<IntType>,
    arg: Arg,
) -> Option<Held>
    requires { IsModel INT LONG PTR }
    ensures { result ≡ spec.taken_as (model_of INT LONG PTR) kind arg }
{
    match (kind, arg) {
        (Some(kind), Arg::Integer(number)) => {
            let value = Widths::<INT, LONG, PTR>::convert(number, kind);
            Some(Held::Integer(kind, Some(value)))
        }
        (None, Arg::Pointer(pointer)) => Some(Held::Pointer(pointer)),
        _ => None,
    }
}

/// What a function gives by the end of its statements.
pub fn given<const INT: u32, const LONG: u32, const PTR: u32>(
    function: &Function,
    flow: Flow,
) -> Result<Option<TypedValue>, Stop>
    requires { IsModel INT LONG PTR }
    ensures { result ≡ spec.given (model_of INT LONG PTR) function.now (Ok flow) }
{
    let value = match flow {
        Flow::Returned(value) => value,
        _ => None,
    };
    match integer_type::<INT, LONG, PTR>(&function.returns) {
        Some(kind) => in_type::<INT, LONG, PTR>(kind, value, function.close),
        None => Ok(None),
    }
}

/// A value in the type of a function.
fn in_type<const INT: u32, const LONG: u32, const PTR: u32>(
    kind: IntType,
    value: Option<TypedValue>,
    close: Place,
) -> Result<Option<TypedValue>, Stop>
    requires { IsModel INT LONG PTR }
    ensures { result ≡ spec.given_in (model_of INT LONG PTR) (Some kind) close value }
{
    match value {
        Some(value) => Ok(Some(TypedValue {
            kind,
            value: Widths::<INT, LONG, PTR>::convert(value.value, kind),
        })),
        None => Err(Stop {
            kind: Undefined::NoValue,
            place: close,
        }),
    }
}

/// Numbers as arguments.
pub fn number_args(alloc: Global, numbers: &[TypedValue]) -> Result<List<Arg>, Memory>
    ensures { IfOk result (λ l. l ≡ map spec.number_arg numbers.now) }
{
    let mut args = List::new(alloc);
    for number in numbers {
        args.push(Arg::Integer(number.value))?;
    }
    Ok(args)
}
