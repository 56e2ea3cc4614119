//! Why a database is refused.
ghost use Rattle.std.specs.Prelude.{◌≡◌, IfOk};
ghost use Rattle.db_check.specs.Answer.{fault_of};
ghost use Rattle.db_check.specs.declared.refusal.CheckFault.TheVariants.{Memory};

use can_model::CheckKind;
use cg_out::Text;
use std::alloc::{AllocError, AllocFailed, Global};

/// Why a database is not answered as checked.
#[derive(Debug, Drop)]
pub enum CheckFault {
    /// The first fault of the database: the line of the text that begins the message or the
    /// signal, and the names of both; a name that does not apply is empty.
    Fault {
        kind: CheckKind,
        line: u32,
        message: Text,
        signal: Text,
    },
    /// Memory ran out.
    Memory,
}

impl From<AllocError> for CheckFault {
    ghost from_gives = { λ _ e. e ≡ Memory };

    fn from(_e: AllocError) -> CheckFault {
        CheckFault::Memory
    }
}

impl<T: Drop> From<AllocFailed<T>> for CheckFault {
    ghost from_gives = { λ _ e. e ≡ Memory };

    fn from(_e: AllocFailed<T>) -> CheckFault {
        CheckFault::Memory
    }
}

impl From<cg_out::Memory> for CheckFault {
    ghost from_gives = { λ _ e. e ≡ Memory };

    fn from(_e: cg_out::Memory) -> CheckFault {
        CheckFault::Memory
    }
}

/// The fault of this kind, with copies of the names.
pub(crate) fn told(
    alloc: Global,
    kind: CheckKind,
    line: u32,
    message: &[u8],
    signal: &[u8],
) -> Result<CheckFault, cg_out::Memory>
    ensures { IfOk result (λ e. fault_of e ≡ Some (record { kind = kind; line = line; message = message.now; signal = signal.now })) }
{
    Ok(CheckFault::Fault {
        kind,
        line,
        message: Text::copy_of(alloc, message)?,
        signal: Text::copy_of(alloc, signal)?,
    })
}
