//! The answer of `generate_c_source`.
ghost use Rattle.std.specs.Prelude.{◌≡◌, IfOk};
ghost use Rattle.can_model.specs.Validity.{IsValid};
ghost use Rattle.can_model.specs.Formed.{HasNoParents};
ghost use Rattle.cli_tool.specs.GenerateTask.{WritesPair};
ghost use Rattle.cli_tool.specs.DatabaseInFile.{HasAnswer};
ghost use Rattle.cli_tool.specs.Asked.{answer_in};

use crate::answer::{Answer, Output};
use crate::database::database_in;
use crate::naming::{header_file, name, source_file};
use crate::reporting::written;
use can_model::Database;
use cg_out::Memory;
use gen_unit::generate;
use name_rules::symbols;
use std::alloc::Global;

/// What the text of the file gives: its header and its source are to be written, or it is refused.
pub fn generated<'a>(alloc: Global, file: &'a [u8], text: &[u8]) -> Result<Answer<'a>, Memory>
    ensures { IfOk result (λ a. HasAnswer (WritesPair file.now) file.now text.now (answer_in a)) }
{
    match database_in(alloc, file, text)? {
        Ok(checked) => pair_written(alloc, file, checked.database()),
        Err(answer) => Ok(answer),
    }
}

/// The header of the database and then its source are to be written, and their names are the
/// report.
fn pair_written<'a>(alloc: Global, file: &[u8], database: &Database) -> Result<Answer<'a>, Memory>
    requires valid { IsValid database.now }
    requires flat { HasNoParents database.now }
    ensures { IfOk result (λ a. WritesPair file.now database.now (answer_in a)) }
{
    let name = name(alloc, file)?;
    let names = symbols(alloc, database, &name, false)?;
    let pair = generate(alloc, name.bytes(), database, &names)?;
    let header = Output {
        file: header_file(alloc, file)?,
        bytes: pair.header,
    };
    let source = Output {
        file: source_file(alloc, file)?,
        bytes: pair.source,
    };
    let mut outputs = Vec::new(alloc);
    outputs.push(header)?;
    outputs.push(source)?;
    Ok(Answer::Outcome(true, outputs, written(alloc, file)?))
}
