//! Statements, run one after another (ISO/IEC 9899:1999, 6.8).
ghost use Rattle.std.specs.Prelude.{◌≡◌, ◌≤◌, Ok, length, drop};
ghost use Rattle.c_effect.specs.Choosing as choosing;
ghost use Rattle.c_effect.specs.Ending.{sequence, in_block};
ghost use Rattle.c_effect.specs.StatementEffect as spec;
ghost use Rattle.c_exec.specs.Answers.{Ends};
ghost use Rattle.c_exec.specs.Shown.{world_of};

use crate::calls::Calls;
use crate::choosing::{chosen, promoted};
use crate::halt::Halt;
use crate::locals::Locals;
use crate::storing::{assign, declare, memset};
use crate::value::{number, value, values_of};
use crate::world::{World, shown_at};
use c_effect::{Flow, Objects};
use c_mean::{Callee, Expr, Place, Stmt, StmtKind, SwitchPart};
use c_operators::is_true;

/// Runs a statement.
#[cycle(runs)]
pub fn run<'a, C: Calls, const INT: u32, const LONG: u32, const PTR: u32>(
    stmt: &'a Stmt,
    world: &World<'_, C, INT, LONG, PTR>,
    locals: &mut Locals<'a>,
    objects: &mut Objects,
) -> Result<Flow, Halt>
    ensures { Ends result locals.new objects.new (spec.effect (world_of INT LONG PTR world.now.unit.now (C.meaning world.now.calls.now)) stmt.now locals.old objects.old) }
{
    run_kind(&stmt.kind, stmt.place, world, locals, objects)
}

#[cycle(runs)]
fn run_kind<'a, C: Calls, const INT: u32, const LONG: u32, const PTR: u32>(
    kind: &'a StmtKind,
    place: Place,
    world: &World<'_, C, INT, LONG, PTR>,
    locals: &mut Locals<'a>,
    objects: &mut Objects,
) -> Result<Flow, Halt>
    ensures { Ends result locals.new objects.new (spec.kind_effect (world_of INT LONG PTR world.now.unit.now (C.meaning world.now.calls.now)) kind.now place locals.old objects.old) }
{
    match kind {
        StmtKind::Declare { kind, name, value } => {
            declare(*kind, name.bytes(), value, world, locals, objects)
        }
        StmtKind::Assign { target, op, value } => {
            assign(target, *op, place, value, world, locals, objects)
        }
        StmtKind::Call { function, args } => {
            run_call(function, place, args.items(), world, locals, objects)
        }
        StmtKind::Discard(name) => discard(name.bytes(), place, locals, objects),
        StmtKind::Empty => Ok(Flow::Next),
        StmtKind::Block(list) => run_block(list.items(), world, locals, objects),
        StmtKind::If { condition, yes, no } => {
            let found = value(condition, world, locals, objects)?;
            if is_true(found) {
                return run(yes.get(), world, locals, objects);
            }
            match no {
                Some(other) => run(other.get(), world, locals, objects),
                None => Ok(Flow::Next),
            }
        }
        StmtKind::Return(value) => run_return(value, world, locals, objects),
        StmtKind::Break => Ok(Flow::Broken),
        StmtKind::Switch { value, parts } => {
            run_switch(parts.items(), value, world, locals, objects)
        }
    }
}

#[cycle(runs)]
fn run_block<'a, C: Calls, const INT: u32, const LONG: u32, const PTR: u32>(
    list: &'a [Stmt],
    world: &World<'_, C, INT, LONG, PTR>,
    locals: &mut Locals<'a>,
    objects: &mut Objects,
) -> Result<Flow, Halt>
    ensures { let w = world_of INT LONG PTR world.now.unit.now (C.meaning world.now.calls.now) in
        Ends result locals.new objects.new (in_block (sequence (spec.effects_of w list.now)) locals.old objects.old) }
{
    locals.open(world.alloc)?;
    let flow = run_all(list, world, locals, objects);
    locals.close();
    flow
}

#[cycle(runs)]
fn run_switch<'a, C: Calls, const INT: u32, const LONG: u32, const PTR: u32>(
    parts: &'a [SwitchPart],
    e: &Expr,
    world: &World<'_, C, INT, LONG, PTR>,
    locals: &mut Locals<'a>,
    objects: &mut Objects,
) -> Result<Flow, Halt>
    ensures { let w = world_of INT LONG PTR world.now.unit.now (C.meaning world.now.calls.now) in
        Ends result locals.new objects.new (choosing.switch w e.now (spec.parts_of w parts.now) locals.old objects.old) }
{
    let found = promoted::<INT, LONG, PTR>(number(e, world, locals, objects)?);
    match chosen(parts, found, world, locals, objects)? {
        Some(first) => {
            locals.open(world.alloc)?;
            let flow = run_from(parts, first, world, locals, objects);
            locals.close();
            Ok(past_break(flow?))
        }
        None => Ok(Flow::Next),
    }
}

/// Runs statements as long as each goes on.
#[cycle(runs)]
pub fn run_all<'a, C: Calls, const INT: u32, const LONG: u32, const PTR: u32>(
    list: &'a [Stmt],
    world: &World<'_, C, INT, LONG, PTR>,
    locals: &mut Locals<'a>,
    objects: &mut Objects,
) -> Result<Flow, Halt>
    ensures { let w = world_of INT LONG PTR world.now.unit.now (C.meaning world.now.calls.now) in
        Ends result locals.new objects.new (sequence (spec.effects_of w list.now) locals.old objects.old) }
{
    for stmt in list {
        match run(stmt, world, locals, objects)? {
            Flow::Next => {}
            flow => return Ok(flow),
        }
    }
    Ok(Flow::Next)
}

/// Runs the parts of a switch from one on.
#[cycle(runs)]
fn run_from<'a, C: Calls, const INT: u32, const LONG: u32, const PTR: u32>(
    parts: &'a [SwitchPart],
    first: usize,
    world: &World<'_, C, INT, LONG, PTR>,
    locals: &mut Locals<'a>,
    objects: &mut Objects,
) -> Result<Flow, Halt>
    requires { first ≤ length parts.now }
    ensures { let w = world_of INT LONG PTR world.now.unit.now (C.meaning world.now.calls.now) in
        Ends result locals.new objects.new (sequence (choosing.effects (spec.parts_of w (drop first parts.now))) locals.old objects.old) }
{
    for index in first..parts.len() {
        if let SwitchPart::Statement(stmt) = &parts[index] {
            match run(stmt, world, locals, objects)? {
                Flow::Next => {}
                flow => return Ok(flow),
            }
        }
    }
    Ok(Flow::Next)
}

/// A `break` ends the switch.
fn past_break(flow: Flow) -> Flow
    ensures { Ok result ≡ choosing.past_break (Ok flow) }
{
    match flow {
        Flow::Broken => Flow::Next,
        other => other,
    }
}

/// Runs a call whose value is dropped.
fn run_call<C: Calls, const INT: u32, const LONG: u32, const PTR: u32>(
    function: &Callee,
    place: Place,
    args: &[Expr],
    world: &World<'_, C, INT, LONG, PTR>,
    locals: &Locals<'_>,
    objects: &mut Objects,
) -> Result<Flow, Halt>
    ensures { Ends result locals.now objects.new (spec.call_of (world_of INT LONG PTR world.now.unit.now (C.meaning world.now.calls.now)) place function.now args.now locals.now objects.old) }
{
    match function {
        Callee::Name(name) => {
            let args = values_of(args, world, locals, objects)?;
            world
                .calls
                .call(world.alloc, place, name.bytes(), args.items())?;
            Ok(Flow::Next)
        }
        Callee::Memset => memset(args, place, world, locals, objects),
    }
}

fn discard(name: &[u8], place: Place, locals: &Locals<'_>, objects: &Objects) -> Result<Flow, Halt>
    ensures { Ends result locals.now objects.now (spec.discarded name.now place locals.now objects.now) }
{
    let _objects = objects;
    shown_at(place, locals.read(name))?;
    Ok(Flow::Next)
}

fn run_return<C: Calls, const INT: u32, const LONG: u32, const PTR: u32>(
    value: &Option<Expr>,
    world: &World<'_, C, INT, LONG, PTR>,
    locals: &Locals<'_>,
    objects: &Objects,
) -> Result<Flow, Halt>
    ensures { Ends result locals.now objects.now (spec.returned (world_of INT LONG PTR world.now.unit.now (C.meaning world.now.calls.now)) value.now locals.now objects.now) }
{
    match value {
        Some(e) => Ok(Flow::Returned(Some(number(e, world, locals, objects)?))),
        None => Ok(Flow::Returned(None)),
    }
}
