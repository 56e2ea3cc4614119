//! The answer of `exec`.
ghost use Rattle.std.specs.Prelude.{◌≡◌, ◌≤◌, [], ◌∷◌, Some, length, IfOk};
ghost use Rattle.c_widths.specs.DataModel.{IsModel, model_of, models};
ghost use Rattle.c_types.specs.Setting.{definitions};
ghost use Rattle.c_types.specs.UnitTypes.{unit_faults, faults_under};
ghost use Rattle.cg_out.specs.Words.{look_up};
ghost use Rattle.cli_tool.specs.ExecTask as spec;
ghost use Rattle.cli_tool.specs.Asked.{answer_in, model_by};

use crate::answer::{Answer, Why};
use crate::arguments::{Given, arguments};
use crate::checking::{refused, typed_unit_of};
use crate::command::{Call, DataModel};
use crate::naming::base;
use c_exec::{Objects, Outcome, PrepareFault, call, prepare};
use c_lexer::SOURCE_LIMIT;
use c_mean::{CFault, Function, Unit};
use c_types::{TypedUnit, typed};
use cg_out::Memory;
use exec_words::report;
use std::alloc::Global;

/// What a call of a function of two texts gives.
pub fn executed<'a>(
    alloc: Global,
    call: &Call<'a>,
    header_text: &[u8],
    source_text: &[u8],
) -> Result<Answer<'a>, Memory>
    requires header_fits { length header_text.now ≤ SOURCE_LIMIT }
    requires source_fits { length source_text.now ≤ SOURCE_LIMIT }
    ensures { IfOk result (λ a. answer_in a ≡ spec.exec_work call.now.header.now (model_by call.now.model) call.now.function.now call.now.words.now (header_text.now ∷ source_text.now ∷ [])) }
{
    match typed_unit_of(alloc, header_text, base(call.header), source_text) {
        Ok(unit) => called_in(alloc, &unit, call),
        Err(CFault::Fault { kind, place }) => refused(
            alloc,
            kind,
            place,
            (call.header, header_text),
            (call.source, source_text),
        ),
        Err(CFault::Memory) => Err(Memory),
    }
}

/// What it gives in a unit without a fault.
#[tactic(auto, using(crate::proofs::FaultlessUnits::under_each), unfolding(c_widths::specs::DataModel::is_listed))]
fn called_in<'a>(alloc: Global, unit: &Unit, call: &Call<'a>) -> Result<Answer<'a>, Memory>
    requires { faults_under models unit.now ≡ [] }
    ensures { IfOk result (λ a. answer_in a ≡ spec.called (model_by call.now.model) unit.now call.now.words.now (look_up call.now.function.now (definitions unit.now.items))) }
{
    match call.model {
        DataModel::Ilp32 => called_under::<32, 32, 32>(alloc, unit, call),
        DataModel::Lp64 => called_under::<32, 64, 64>(alloc, unit, call),
    }
}

fn called_under<'a, const INT: u32, const LONG: u32, const PTR: u32>(
    alloc: Global,
    unit: &Unit,
    call: &Call<'a>,
) -> Result<Answer<'a>, Memory>
    requires model { IsModel INT LONG PTR }
    requires faultless { unit_faults (model_of INT LONG PTR) unit.now ≡ [] }
    ensures { IfOk result (λ a. answer_in a ≡ spec.called (model_of INT LONG PTR) unit.now call.now.words.now (look_up call.now.function.now (definitions unit.now.items))) }
{
    match typed::<INT, LONG, PTR>(alloc, unit) {
        Ok(typed) => called(alloc, call, &typed),
        // This does not come: the unit has no fault.
        Err(CFault::Fault { kind: _, place: _ }) => Ok(Answer::WrongWords(None)),
        Err(CFault::Memory) => Err(Memory),
    }
}

/// What it gives of the function with its name, if the unit defines one.
fn called<'a, const INT: u32, const LONG: u32, const PTR: u32>(
    alloc: Global,
    call: &Call<'a>,
    typed: &TypedUnit<'_, INT, LONG, PTR>,
) -> Result<Answer<'a>, Memory>
    requires { IsModel INT LONG PTR }
    ensures { IfOk result (λ a. answer_in a ≡ spec.called (model_of INT LONG PTR) typed.now call.now.words.now (look_up call.now.function.now (definitions typed.now.items))) }
{
    let Some(found) = typed.prototype(call.function) else {
        return Ok(Answer::WrongWords(Some(no_function(call))));
    };
    match arguments(alloc, call.words, found.params.items(), typed)? {
        Some(given) => called_with(alloc, call.function, given, typed),
        None => Ok(Answer::WrongWords(Some(no_arguments(call, found)))),
    }
}

/// Why there is no call of a function that is not there.
fn no_function<'a>(call: &Call<'a>) -> Why<'a> {
    Why {
        file: call.source,
        line: 0,
        column: None,
        message: "no function of this name is defined",
    }
}

/// Why there is no call of a function with other arguments, where it is defined.
fn no_arguments<'a>(call: &Call<'a>, function: &Function) -> Why<'a> {
    Why {
        file: if function.place.header {
            call.header
        } else {
            call.source
        },
        line: function.place.line,
        column: None,
        message: "this function does not take these arguments",
    }
}

/// The same with its arguments.
fn called_with<'a, const INT: u32, const LONG: u32, const PTR: u32>(
    alloc: Global,
    function: &[u8],
    given: Given,
    typed: &TypedUnit<'_, INT, LONG, PTR>,
) -> Result<Answer<'a>, Memory>
    requires { IsModel INT LONG PTR }
    ensures { IfOk result (λ a. answer_in a ≡ spec.run_with (model_of INT LONG PTR) typed.now given (look_up function.now (definitions typed.now.items))) }
{
    let mut machine = match prepare(alloc, typed, function) {
        Ok(machine) => machine,
        Err(PrepareFault::UnknownFunction) => return Ok(Answer::WrongWords(None)),
        Err(PrepareFault::Memory) => return Err(Memory),
    };
    let Given { args, objects } = given;
    let mut objects = Objects::new(objects);
    let outcome = call(alloc, &mut machine, args.items(), &mut objects)?;
    let text = report(alloc, outcome, args.items(), &objects, typed)?;
    Ok(Answer::Outcome(is_returned(outcome), Vec::new(alloc), text))
}

fn is_returned(outcome: Outcome) -> bool
    ensures { result ≡ spec.is_returned outcome }
{
    matches!(outcome, Outcome::Returned(_))
}
