//! Words as arguments.
ghost use Rattle.std.specs.Prelude.{◌≡◌, codes, IfOk};
ghost use Rattle.std.specs.Option.{option_map, option_and_then};
ghost use Rattle.c_types.specs.ExpressionTypes as types;
ghost use Rattle.c_types.specs.Setting.{structs};
ghost use Rattle.c_widths.specs.DataModel.{IsModel, model_of};
ghost use Rattle.cg_out.specs.Words.{or_else};
ghost use Rattle.exec_words.specs.ArgumentWord as spec;
ghost use Rattle.command_words.specs.CutWord as cut;
ghost use Rattle.exec_words.specs.NumberWord as numbers;
ghost use Rattle.exec_words.specs.ObjectWord as objects;

use crate::number::number_of;
use crate::object::object_in;
use c_mean::{CType, Target};
use c_mem::Object;
use c_types::TypedUnit;
use cg_out::Memory;
use command_words::behind;
use std::alloc::Global;

/// What a word gives a parameter.
#[derive(Debug, Drop)]
pub enum Argument {
    /// Of an integer type.
    Number(i128),
    Null,
    /// A pointer to no object.
    Stray,
    /// A pointer to this object, which is its own.
    Object(Object),
}

/// What a word gives a parameter of a type, or none where it is misspelt or the type does not take
/// it.
pub fn argument_of<const INT: u32, const LONG: u32, const PTR: u32>(
    alloc: Global,
    word: &[u8],
    kind: &CType,
    typed: &TypedUnit<'_, INT, LONG, PTR>,
) -> Result<Option<Argument>, Memory>
    requires { IsModel INT LONG PTR }
    ensures { IfOk result (λ o. o ≡ spec.argument_of (model_of INT LONG PTR) (structs typed.now.items) kind.now word.now) }
{
    match kind {
        CType::Void => Ok(None),
        CType::Integer(_) => Ok(number::<INT, LONG, PTR>(word, kind)),
        CType::Pointer {
            target,
            constant: _,
        } => pointer(alloc, word, target, typed),
    }
}

/// The number of `int:`.
fn number<const INT: u32, const LONG: u32, const PTR: u32>(
    word: &[u8],
    kind: &CType,
) -> Option<Argument>
    requires { IsModel INT LONG PTR }
    ensures { result ≡ option_map (λ z. Argument.Number z) (option_and_then (numbers.number_of (model_of INT LONG PTR) (types.integer_type (model_of INT LONG PTR) kind.now)) (cut.behind (codes "int:") word.now)) }
{
    let digits = behind(b"int:", word)?;
    let number = number_of::<INT, LONG, PTR>(kind, digits)?;
    Some(Argument::Number(number))
}

/// A pointer to a target.
fn pointer<const INT: u32, const LONG: u32, const PTR: u32>(
    alloc: Global,
    word: &[u8],
    target: &Target,
    typed: &TypedUnit<'_, INT, LONG, PTR>,
) -> Result<Option<Argument>, Memory>
    requires { IsModel INT LONG PTR }
    ensures { IfOk result (λ o. o ≡ or_else (spec.pointer_in word.now) (option_map (λ x. Argument.Object x) (objects.object_in (model_of INT LONG PTR) (structs typed.now.items) target.now word.now))) }
{
    if word == b"null".as_slice() {
        return Ok(Some(Argument::Null));
    }
    if word == b"stray".as_slice() {
        return Ok(Some(Argument::Stray));
    }
    match object_in(alloc, word, target, typed)? {
        Some(object) => Ok(Some(Argument::Object(object))),
        None => Ok(None),
    }
}
