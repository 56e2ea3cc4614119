//! The database of a DBC text.
ghost use Rattle.std.specs.Prelude.{◌≡◌, Result, IfSome};
ghost use Rattle.can_model.specs.declared.database.Database.{Database};
ghost use Rattle.db_text.specs.DatabaseOfText.{DatabaseRefusal, Spells};
ghost use Rattle.db_text.specs.Answer.{answer_of};

use crate::fault::DatabaseFault;
use db_check::{Checked, check};
use dbc_build::database;
use dbc_reader::statements;
use std::alloc::Global;

/// The database that a DBC text spells.
///
/// # Errors
///
/// The first fault of the text, or else the first of its database. Or memory ran out.
pub fn read_dbc(alloc: Global, text: &[u8]) -> Result<Checked, DatabaseFault>
    ensures found { IfSome (answer_of result) (Spells text.now) }

    // A text has one answer, and it is given unless memory runs out.
    ensures only { (r : Result Database DatabaseRefusal) → Spells text.now r → IfSome (answer_of result) (λ a. a ≡ r) }
{
    read(alloc, text)
}

fn read(alloc: Global, text: &[u8]) -> Result<Checked, DatabaseFault>
    ensures { IfSome (answer_of result) (Spells text.now) }
{
    let list = statements(alloc, text)?;
    let database = database(alloc, &list)?;
    Ok(check(alloc, database)?)
}
