//! The fields of a struct in a word.
ghost use Rattle.std.specs.Prelude.{◌≡◌, ◌==◌, Some, IfOk, slice_get};
ghost use Rattle.std.specs.List.{slice_split};
ghost use Rattle.std.specs.Option.{option_map, option_and_then};
ghost use Rattle.c_types.specs.FieldNamed.{field_named};
ghost use Rattle.c_types.specs.Setting.{structs};
ghost use Rattle.c_widths.specs.DataModel.{IsModel, model_of};
ghost use Rattle.cg_out.specs.Words.{look_up};
ghost use Rattle.exec_words.specs.StructWord as spec;

use crate::number::number_of;
use c_mean::Field;
use c_mem::Cells;
use c_types::TypedUnit;
use cg_out::Memory;
use command_words::cut_at;
use std::alloc::Global;

/// The cells that a word gives the struct of a tag, where the unit has that struct and the word is
/// spelt well.
pub(crate) fn cells_in<const INT: u32, const LONG: u32, const PTR: u32>(
    alloc: Global,
    word: &[u8],
    tag: &[u8],
    typed: &TypedUnit<'_, INT, LONG, PTR>,
) -> Result<Option<Cells<i128>>, Memory>
    requires { IsModel INT LONG PTR }
    ensures { IfOk result (λ o. o ≡ option_and_then (λ fields. spec.cells_in (model_of INT LONG PTR) fields word.now) (look_up tag.now (structs typed.now.items))) }
{
    match typed.fields(tag) {
        Some(fields) => Shape { typed, tag, fields }.cells(alloc, word),
        None => Ok(None),
    }
}

/// A struct of a unit.
#[derive(Drop)]
struct Shape<'a, const INT: u32, const LONG: u32, const PTR: u32> {
    typed: &'a TypedUnit<'a, INT, LONG, PTR>,
    tag: &'a [u8],
    fields: &'a [Field],
    ghost known: { look_up tag.now (structs typed.now.items) ≡ Some fields.now },
    ghost model: { IsModel INT LONG PTR },
}

impl<'a, const INT: u32, const LONG: u32, const PTR: u32> Shape<'a, INT, LONG, PTR> {
    /// The cells that a word gives the fields.
    #[tactic(auto, using(crate::proofs::Parts::no_parts, crate::proofs::Parts::some_parts))]
    fn cells(&self, alloc: Global, word: &[u8]) -> Result<Option<Cells<i128>>, Memory>
        ensures { IfOk result (λ o. o ≡ spec.cells_in (model_of INT LONG PTR) self.now.fields.now word.now) }
    {
        let mut cells = vec![in alloc; None; self.fields.len()]?;
        if word.is_empty() {
            return Ok(Some(Cells::new(cells)));
        }
        match self.give_all(word, &mut cells) {
            Some(()) => Ok(Some(Cells::new(cells))),
            None => Ok(None),
        }
    }

    /// Gives fields the numbers that parts between commas name.
    #[tactic(auto, using(crate::proofs::Parts::gives_next, crate::proofs::Parts::gives_none, crate::proofs::Parts::gives_last))]
    fn give_all(&self, word: &[u8], cells: &mut [Option<i128>]) -> Option<()>
        ensures { option_map (λ _. cells.new) result ≡ spec.with_parts (model_of INT LONG PTR) self.now.fields.now (slice_split (λ b. b == 44) word.now) cells.old }
    {
        let mut left = word;
        while let Some((part, rest)) = cut_at(b',', left) {
            self.give(part, cells)?;
            left = rest;
        }
        self.give(left, cells)
    }

    /// Gives the field that a part names its number.
    fn give(&self, part: &[u8], cells: &mut [Option<i128>]) -> Option<()>
        ensures { option_map (λ _. cells.new) result ≡ spec.with_part (model_of INT LONG PTR) self.now.fields.now part.now cells.old }
    {
        let (name, word) = cut_at(b'=', part)?;
        let (number, field) = self.field(name)?;
        let value = number_of::<INT, LONG, PTR>(&field.kind, word)?;
        give_once(number, value, cells)
    }

    /// The field of a name, beside its number.
    fn field(&self, name: &[u8]) -> Option<(usize, &Field)>
        ensures { option_map (λ f. (f.0, f.1.now)) result ≡ field_named name.now self.now.fields.now }
    {
        self.typed.field(self.tag, name)
    }
}

/// Gives a cell a value, where it has none.
fn give_once(number: usize, value: i128, cells: &mut [Option<i128>]) -> Option<()>
    ensures { option_map (λ _. cells.new) result ≡ spec.given_once cells.old number value (slice_get cells.old number) }
{
    if number >= cells.len() {
        return None;
    }
    match cells[number] {
        None => {
            cells[number] = Some(value);
            Some(())
        }
        Some(_) => None,
    }
}
