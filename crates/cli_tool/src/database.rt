//! The database in a file.
ghost use Rattle.std.specs.Prelude.{◌≡◌, Ok, Err, IfOk};
ghost use Rattle.cli_tool.specs.FoundDatabase.{FindsDatabase};
ghost use Rattle.cli_tool.specs.DatabaseInFile.{refusal_answer};
ghost use Rattle.db_text.specs.DatabaseOfText.{in_text, in_database};
ghost use Rattle.cli_tool.specs.Asked.{answer_in};

use crate::answer::{Answer, Why};
use crate::naming::names_sym;
use crate::reporting::{database_refusal, refusal};
use can_model::{CheckKind, TextKind};
use cg_out::{Memory, Text};
use db_check::Checked;
use db_text::{DatabaseFault, read_dbc};
use std::alloc::Global;

/// The database that the text of a file is, or the answer that refuses it.
pub fn database_in<'a>(
    alloc: Global,
    file: &'a [u8],
    text: &[u8],
) -> Result<Result<Checked, Answer<'a>>, Memory>
    ensures { IfOk result (FindsDatabase file.now text.now) }
{
    if names_sym(file) {
        return Ok(Err(refused_text(alloc, file, TextKind::NotYet, 0)?));
    }
    match read_dbc(alloc, text) {
        Ok(checked) => Ok(Ok(checked)),
        Err(DatabaseFault::Text { kind, line }) => Ok(Err(refused_text(alloc, file, kind, line)?)),
        Err(
            DatabaseFault::Check {
                kind,
                line,
                message,
                signal,
            },
        ) => {
            let answer = refused_database(alloc, file, kind, line, &message, &signal)?;
            Ok(Err(answer))
        }
        Err(DatabaseFault::Memory) => Err(Memory),
    }
}

/// The refusal of a text.
fn refused_text<'a>(
    alloc: Global,
    file: &'a [u8],
    kind: TextKind,
    line: u32,
) -> Result<Answer<'a>, Memory>
    ensures { IfOk result (λ a. answer_in a ≡ refusal_answer (in_text (record { kind = kind; line = line }))) }
{
    let why = Why {
        file,
        line,
        column: None,
        message: kind.message(),
    };
    Ok(Answer::Refused(refusal(alloc, kind, line)?, why))
}

/// The refusal of a database; a name that does not apply is empty.
fn refused_database<'a>(
    alloc: Global,
    file: &'a [u8],
    kind: CheckKind,
    line: u32,
    message: &Text,
    signal: &Text,
) -> Result<Answer<'a>, Memory>
    ensures { IfOk result (λ a. answer_in a ≡ refusal_answer
        (in_database (record { kind = kind; line = line; message = message.now; signal = signal.now }))) }
{
    let report = database_refusal(alloc, kind, line, message.bytes(), signal.bytes())?;
    let why = Why {
        file,
        line,
        column: None,
        message: kind.message(),
    };
    Ok(Answer::Refused(report, why))
}
