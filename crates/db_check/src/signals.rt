//! The faults of the signals of a message.
ghost use Rattle.std.specs.Prelude.{◌≡◌, ◌≤◌, length, OnOk, IfErr, IfSome};
ghost use Rattle.db_check.specs.Answer.{fault_of};
ghost use Rattle.db_check.specs.Kinds.{Tells};
ghost use Rattle.db_check.specs.OfSignal.{Shows};
ghost use Rattle.db_check.specs.OfSignals.{AreClean, IsFirstOfSignals, IsPlain};

use crate::places::{is_any_taken, is_outside, take_places};
use crate::refusal::{CheckFault, told};
use can_model::{CheckKind, Message, Signal, has_bits};
use limit_fraction::scale;
use name_table::Table;
use std::alloc::Global;

/// Refuses the first fault of the message's signals.
pub(crate) fn check_signals(alloc: Global, message: &Message) -> Result<(), CheckFault>
    requires length { message.now.length ≤ 2048 }
    requires plain { IsPlain message.now }
    ensures clean { OnOk result (AreClean message.now) }
    ensures fault { IfErr result (λ e. IfSome (fault_of e) (IsFirstOfSignals message.now)) }
{
    let signals = message.signals.items();
    if signals.is_empty() {
        return Ok(());
    }
    let mut names = Table::new(alloc);
    let mut places = vec![in alloc; false; 8 * message.length as usize]?;
    let taken = places.as_mut_slice();
    for signal in signals {
        let name = signal.name.bytes();
        if let Some(kind) = signal_fault(signal, &names, taken) {
            return Err(told(alloc, kind, signal.line, message.name.bytes(), name)?);
        }
        names.put(name, ())?;
        take_places(signal, taken);
    }
    Ok(())
}

/// The least kind of the faults of a signal, where the table has the names of the earlier ones
/// and their places are taken.
fn signal_fault(signal: &Signal, names: &Table<()>, taken: &[bool]) -> Option<CheckKind>
    requires { length taken.now ≤ 16384 }
    ensures { Tells (Shows names.now (length taken.now) taken.now signal.now) result }
{
    if names.get(signal.name.bytes()).is_some() {
        Some(CheckKind::DuplicateSignalName)
    } else if !has_bits(signal.length) {
        Some(CheckKind::SignalLength)
    } else if is_outside(signal, taken.len() as u32) {
        Some(CheckKind::SignalOutside)
    } else if is_any_taken(signal, taken) {
        Some(CheckKind::Overlap)
    } else if signal.is_float {
        Some(CheckKind::FloatSignal)
    } else if scale(signal.factor, signal.offset).is_err() {
        Some(CheckKind::ScaleTooWide)
    } else {
        None
    }
}
