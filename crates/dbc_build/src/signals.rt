//! From `SG_` statements to signals.
ghost use Rattle.std.specs.Prelude.{◌≡◌, IfOk};
ghost use Rattle.dbc_build.specs.DatabaseOfStatements.{signals_in};
ghost use Rattle.dbc_build.specs.Parts.{begins_message, signal_from};

use crate::facts::Facts;
use crate::reading::limit;
use can_model::Signal;
use cg_out::{List, Memory, Text};
use dbc_reader::{Body, Statement};
use std::alloc::Global;

/// The signals of the `SG_` statements up to the next `BO_`, in their order; the id is that of
/// their message, as its `BO_` gives it.
pub fn signals(
    alloc: Global,
    facts: &Facts,
    id: u32,
    list: &[Statement],
) -> Result<List<Signal>, Memory>
    ensures { IfOk result (λ s. s ≡ signals_in facts.now id list.now) }
{
    let mut signals = List::new(alloc);
    for statement in list {
        if is_message(&statement.body) {
            return Ok(signals);
        }
        if let Some(signal) = signal(alloc, facts, id, statement)? {
            signals.push(signal)?;
        }
    }
    Ok(signals)
}

fn is_message(body: &Body) -> bool
    ensures { result ≡ begins_message body.now }
{
    matches!(body, Body::Message { .. })
}

/// The signal of an `SG_` statement.
fn signal(
    alloc: Global,
    facts: &Facts,
    id: u32,
    statement: &Statement,
) -> Result<Option<Signal>, Memory>
    ensures { IfOk result (λ s. s ≡ signal_from facts.now id statement.now.line statement.now.body) }
{
    let Body::Signal {
        name,
        start,
        length,
        motorola,
        signed,
        factor,
        offset,
        min,
        max,
        unit,
        ..
    } = &statement.body
    else {
        return Ok(None);
    };
    let name = name.bytes();
    Ok(Some(Signal {
        name: Text::copy_of(alloc, facts.signal_name(id, name))?,
        start: *start,
        length: *length,
        motorola: *motorola,
        signed: *signed,
        is_float: facts.is_float(id, name),
        factor: *factor,
        offset: *offset,
        min: limit(min, max, min),
        max: limit(min, max, max),
        initial: facts.initial(id, name, *length, *signed),
        choices: facts.choices(alloc, id, name, *length, *signed)?,
        unit: Text::copy_of(alloc, unit.bytes())?,
        comment: Text::copy_of(alloc, facts.comment((id, Some(name))))?,
        parent: None,
        line: statement.line,
    }))
}
