//! Why a text gives no database.
ghost use Rattle.std.specs.Prelude.{◌≡◌};
ghost use Rattle.db_text.specs.Answer.{of_text_fault, of_check_fault};

use can_model::{CheckKind, TextFault, TextKind};
use cg_out::Text;
use db_check::CheckFault;

/// Why a text gives no database.
#[derive(Debug, Drop)]
pub enum DatabaseFault {
    /// The first fault of the text, and its line; 0 where it is of the text as a whole.
    Text {
        kind: TextKind,
        line: u32,
    },
    /// The text has no fault, and this is the first one of its database: the line that begins the
    /// message or the signal, and the names of both; a name that does not apply is empty.
    Check {
        kind: CheckKind,
        line: u32,
        message: Text,
        signal: Text,
    },
    /// Memory ran out.
    Memory,
}

impl From<TextFault> for DatabaseFault {
    ghost from_gives = { λ f e. e ≡ of_text_fault f };

    fn from(fault: TextFault) -> DatabaseFault {
        match fault {
            TextFault::Fault { kind, line } => DatabaseFault::Text { kind, line },
            TextFault::Memory => DatabaseFault::Memory,
        }
    }
}

impl From<CheckFault> for DatabaseFault {
    ghost from_gives = { λ f e. e ≡ of_check_fault f };

    fn from(fault: CheckFault) -> DatabaseFault {
        match fault {
            CheckFault::Fault {
                kind,
                line,
                message,
                signal,
            } => DatabaseFault::Check {
                kind,
                line,
                message,
                signal,
            },
            CheckFault::Memory => DatabaseFault::Memory,
        }
    }
}
