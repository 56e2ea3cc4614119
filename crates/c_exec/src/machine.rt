//! Calls from outside.
ghost use Rattle.std.specs.Prelude.{◌≡◌, IfOk, OnOk};
ghost use Rattle.c_widths.specs.DataModel.{IsModel, model_of};
ghost use Rattle.c_types.specs.Setting.{definitions};
ghost use Rattle.c_effect.specs.FunctionCall as spec;
ghost use Rattle.c_exec.specs.Answers.{Returns};
ghost use Rattle.c_exec.specs.Ready.{Prepares};
ghost use Rattle.c_exec.specs.Shown.{world_of};
ghost use Rattle.cg_out.specs.Words.{look_up};

use crate::calls::{Calls, NoCalls};
use crate::halt::Halt;
use crate::locals::Locals;
use crate::parameters::{given, number_args, put_params};
use crate::running::run_all;
use crate::world::World;
use c_effect::{Arg, Objects, Outcome, Stop, TypedValue, Undefined};
use c_mean::{Function, Place, Stmt};
use c_types::TypedUnit;
use cg_out::{List, Memory};
use name_table::Table;
use std::alloc::Global;
use std::marker::Model;

/// Runs a function in a world.
#[tactic(auto, unfolding(c_effect::specs::FunctionCall::run_in))]
fn run_in<C: Calls, const INT: u32, const LONG: u32, const PTR: u32>(
    function: &Function,
    args: &[Arg],
    world: &World<'_, C, INT, LONG, PTR>,
    objects: &mut Objects,
) -> Result<Option<TypedValue>, Halt>
    ensures { Returns result objects.new (spec.run_in (world_of INT LONG PTR world.now.unit.now (C.meaning world.now.calls.now)) function.now args.now objects.old) }
{
    let mut params = Table::new(world.alloc);
    put_params::<INT, LONG, PTR>(function.params.items(), args, &mut params)?;
    let mut locals = Locals::new(world.alloc, params)?;
    let flow = run_all(body_of(&function.body), world, &mut locals, objects)?;
    Ok(given::<INT, LONG, PTR>(function, flow)?)
}

fn body_of(body: &Option<List<Stmt>>) -> &[Stmt]
    ensures { result.now ≡ spec.body_of body.now }
{
    match body {
        Some(body) => body.items(),
        None => &[],
    }
}

/// The functions of a unit, which call nothing.
#[derive(Drop)]
struct UnitCalls<'a, const INT: u32, const LONG: u32, const PTR: u32> {
    unit: &'a TypedUnit<'a, INT, LONG, PTR>,
    ghost model: { IsModel INT LONG PTR },
}

impl<'a, const INT: u32, const LONG: u32, const PTR: u32> Calls for UnitCalls<'a, INT, LONG, PTR> {
    ghost meaning = { λ s. spec.unit_calls (model_of INT LONG PTR) s.unit.now.items };

    #[tactic(auto, unfolding(c_effect::specs::FunctionCall::unit_calls))]
    fn call(
        &self,
        alloc: Global,
        place: Place,
        function: &[u8],
        args: &[TypedValue],
    ) -> Result<Option<TypedValue>, Halt> {
        match self.unit.prototype(function) {
            None => Err(Halt::Stopped(Stop {
                kind: Undefined::Indeterminate,
                place,
            })),
            Some(function) => {
                let args = number_args(alloc, args)?;
                let mut objects = Objects::new(Vec::new(alloc));
                let world = World {
                    alloc,
                    unit: self.unit,
                    calls: &NoCalls,
                };
                run_in(function, args.items(), &world, &mut objects)
            }
        }
    }
}

/// A function of a unit, ready for calls; contracts see both.
#[derive(Drop)]
pub struct Machine<'a, const INT: u32, const LONG: u32, const PTR: u32> {
    unit: &'a TypedUnit<'a, INT, LONG, PTR>,
    function: &'a Function,
    ghost model: { IsModel INT LONG PTR },
}

impl<'a, const INT: u32, const LONG: u32, const PTR: u32> Model for Machine<'a, INT, LONG, PTR> {
    ghost use Rattle.c_tree.specs.declared.item.Unit.{Unit as Whole};
    ghost use Rattle.c_tree.specs.declared.item.Function.{Function};
    ghost use Rattle.c_tree.specs.contracts.statement.StmtKind as kind;
    ghost use Rattle.std.specs.Coded.{codes};

    ghost Value = { Whole × Function };

    ghost coded = { Prim.hlevel (codes, kind.the_row.coded) };

    ghost view = { λ m. (m.unit.now, m.function.now) };
}

/// Why a function cannot be called.
#[derive(Clone, Copy, Debug, PartialEq, Eq)]
pub enum PrepareFault {
    /// The unit does not define it.
    UnknownFunction,
    Memory,
}

/// Makes a function of a unit ready for calls.
pub fn prepare<'a, const INT: u32, const LONG: u32, const PTR: u32>(
    _alloc: Global,
    typed: &'a TypedUnit<'a, INT, LONG, PTR>,
    function: &[u8],
) -> Result<Machine<'a, INT, LONG, PTR>, PrepareFault>
    requires { IsModel INT LONG PTR }
    ensures unit { IfOk result (λ m. m.0 ≡ typed.now) }
    ensures function { Prepares result (look_up function.now (definitions typed.now.items)) }
{
    match typed.prototype(function) {
        Some(function) => Ok(Machine {
            unit: typed,
            function,
        }),
        None => Err(PrepareFault::UnknownFunction),
    }
}

/// Calls the function of a machine; an argument of a kind that its parameter does not take gives
/// the parameter no value.
pub fn call<const INT: u32, const LONG: u32, const PTR: u32>(
    alloc: Global,
    machine: &mut Machine<'_, INT, LONG, PTR>,
    args: &[Arg],
    objects: &mut Objects,
) -> Result<Outcome, Memory>
    ensures machine { machine.new ≡ machine.old }
    ensures outcome { IfOk result (λ o. o ≡ spec.outcome_of (spec.call (model_of INT LONG PTR) machine.old.0 machine.old.1 args.now objects.old).gives) }
    ensures objects { OnOk result (objects.new ≡ (spec.call (model_of INT LONG PTR) machine.old.0 machine.old.1 args.now objects.old).objects) }
{
    let calls = UnitCalls { unit: machine.unit };
    let world = World {
        alloc,
        unit: machine.unit,
        calls: &calls,
    };
    match run_in(machine.function, args, &world, objects) {
        Ok(given) => Ok(Outcome::Returned(number_of(given))),
        Err(Halt::Stopped(stop)) => Ok(Outcome::Undefined {
            kind: stop.kind,
            place: stop.place,
        }),
        Err(Halt::Memory) => Err(Memory),
    }
}

fn number_of(given: Option<TypedValue>) -> Option<i128>
    ensures { result ≡ spec.number_of given }
{
    match given {
        Some(value) => Some(value.value),
        None => None,
    }
}
