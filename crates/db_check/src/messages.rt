//! The faults of the messages.
ghost use Rattle.std.specs.Prelude.{◌≡◌, ℕ, OnOk, IfErr, IfSome};
ghost use Rattle.can_model.specs.Validity.{greatest_id};
ghost use Rattle.std.specs.List.{AllByRecursion};
ghost use Rattle.db_check.specs.Answer.{fault_of};
ghost use Rattle.db_check.specs.Kinds.{Tells};
ghost use Rattle.db_check.specs.OfSignals.{IsPlain};
ghost use Rattle.db_check.specs.OfMessage.{Shows};
ghost use Rattle.db_check.specs.OfMessages.{IsCleanAt, IsFirstOfMessages};

use crate::refusal::{CheckFault, told};
use crate::signals::check_signals;
use can_model::{CheckKind, Message};
use indexmap::IndexSet;
use name_table::Table;
use std::alloc::Global;

/// The most bytes of a message.
const MESSAGE_LENGTH: u32 = 2048;

/// The most signals of a message.
const MESSAGE_SIGNALS: usize = 4096;

/// Refuses the first fault of the messages and their signals.
pub(crate) fn check_messages(alloc: Global, messages: &[Message]) -> Result<(), CheckFault>
    requires plain { AllByRecursion IsPlain messages.now }
    ensures clean { OnOk result ((i : ℕ) → IsCleanAt messages.now i) }
    ensures fault { IfErr result (λ e. IfSome (fault_of e) (IsFirstOfMessages messages.now)) }
{
    let mut names = Table::new(alloc);
    let mut frames = IndexSet::new(alloc);
    for message in messages {
        let name = message.name.bytes();
        if let Some(kind) = message_fault(message, &names, &frames) {
            return Err(told(alloc, kind, message.line, name, b"")?);
        }
        check_signals(alloc, message)?;
        names.put(name, ())?;
        frames.insert((message.id, message.extended))?;
    }
    Ok(())
}

/// The least kind of the faults of a message itself, where the table has the names of the
/// earlier ones, and the set their ids with whether they are extended.
fn message_fault(
    message: &Message,
    names: &Table<()>,
    frames: &IndexSet<(u32, bool)>,
) -> Option<CheckKind>
    ensures { Tells (Shows names.now frames.now.keys message.now) result }
{
    if names.get(message.name.bytes()).is_some() {
        Some(CheckKind::DuplicateMessageName)
    } else if frames.contains(&(message.id, message.extended)) {
        Some(CheckKind::DuplicateMessageId)
    } else if message.id > greatest_id(message.extended) {
        Some(CheckKind::FrameIdRange)
    } else if message.length > MESSAGE_LENGTH {
        Some(CheckKind::MessageTooLong)
    } else if message.signals.items().len() > MESSAGE_SIGNALS {
        Some(CheckKind::TooMany)
    } else {
        None
    }
}

/// The greatest id of a frame: of 11 bits, or of 29 where it is extended.
fn greatest_id(extended: bool) -> u32
    ensures { result ≡ greatest_id extended }
{
    if extended {
        (1 << 29) - 1
    } else {
        (1 << 11) - 1
    }
}
