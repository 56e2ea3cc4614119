//! The check of a whole database.
ghost use Rattle.std.specs.Prelude.{◌≡◌, ◌⊎◌, Some, None, slice_get, IfOk, OnOk, IfErr, IsErrAnd, IfSome};
ghost use Rattle.std.specs.List.{flat_map};
ghost use Rattle.std.specs.Option.{option_copied};
ghost use Rattle.can_model.specs.Formed.{IsFormed, HasNoParents};
ghost use Rattle.can_model.specs.Validity.{Fault, IsValid, IsFirstFault, all_signals};
ghost use Rattle.db_check.specs.Answer.{fault_of};
ghost use Rattle.db_check.specs.Counts.{AreFew};
ghost use Rattle.db_check.specs.declared.refusal.CheckFault.TheVariants.{Memory};

use crate::messages::check_messages;
use crate::refusal::{CheckFault, told};
use can_model::{CheckKind, Database, Message, Signal};
use std::alloc::Global;
use std::marker::Model;

/// The most messages of a database.
const MESSAGES: usize = 16384;

/// The most signals of all messages.
const SIGNALS: usize = 32768;

/// A valid database.
#[derive(Debug, Drop)]
pub struct Checked {
    database: Database,
}

impl Model for Checked {
    ghost use Rattle.can_model.specs.Formed.{IsFormed};
    ghost use Rattle.can_model.specs.Validity.{IsValid};
    ghost use Rattle.can_model.specs.declared.database.Database.{Database};

    ghost Value = { Database };

    ghost view = { λ c. c.database };

    ghost invariant = { λ c. IsValid c.database × IsFormed c.database };
}

impl Checked {
    /// Lends the database.
    pub fn database(&self) -> &Database
        ensures same { result.now ≡ self.now }
        ensures valid { IsValid result.now }
        ensures formed { IsFormed result.now }
    {
        &self.database
    }
}

/// The database, where it is valid.
///
/// # Errors
///
/// The first fault of the database: too many messages, too many signals in all, or else that of
/// the first message with a fault, which is its own or that of its first signal with one. Of
/// several faults of one message or one signal the one of the least number is told. Or memory
/// ran out.
pub fn check(alloc: Global, db: Database) -> Result<Checked, CheckFault>
    requires formed { IsFormed db }
    requires no_parents { HasNoParents db }
    ensures valid { IfOk result (λ c. (c ≡ db) × IsValid db) }
    ensures fault { IfErr result (λ e. IfSome (fault_of e) (IsFirstFault db)) }

    // What is valid is answered, and a first fault is the one that is told, unless memory runs out.
    ensures accepted { IsValid db → IfErr result (λ e. e ≡ Memory) }
    ensures refused { (f : Fault) → IsFirstFault db f → IsErrAnd result (λ e. (fault_of e ≡ Some f) ⊎ (e ≡ Memory)) }
{
    check_all(alloc, &db)?;
    Ok(Checked { database: db })
}

/// Refuses the first fault.
fn check_all(alloc: Global, db: &Database) -> Result<(), CheckFault>
    requires { HasNoParents db.now }
    ensures valid { OnOk result (IsValid db.now) }
    ensures fault { IfErr result (λ e. IfSome (fault_of e) (IsFirstFault db.now)) }
{
    check_counts(alloc, db)?;
    check_messages(alloc, db.messages.items())?;
    Ok(())
}

/// Refuses too many messages, or too many signals of all messages.
fn check_counts(alloc: Global, db: &Database) -> Result<(), CheckFault>
    ensures within { OnOk result (AreFew db.now) }
    ensures fault { IfErr result (λ e. IfSome (fault_of e) (IsFirstFault db.now)) }
{
    let messages = db.messages.items();
    if let Some(message) = messages.get(MESSAGES) {
        return Err(told(alloc, CheckKind::TooMany, message.line, b"", b"")?);
    }
    if let Some(signal) = signal_at(messages, SIGNALS) {
        return Err(told(alloc, CheckKind::TooMany, signal.line, b"", b"")?);
    }
    Ok(())
}

/// The signal of this index among those of all messages.
fn signal_at(messages: &[Message], index: usize) -> Option<&Signal>
    ensures { option_copied result ≡ slice_get (flat_map (λ m. m.signals) messages.now) index }
{
    let mut left = index;
    for message in messages {
        let signals = message.signals.items();
        if left < signals.len() {
            return Some(&signals[left]);
        }
        left -= signals.len();
    }
    None
}
