//! Objects that words make.
ghost use Rattle.std.specs.Prelude.{◌≡◌, codes, map, Some, IfOk};
ghost use Rattle.std.specs.Option.{option_and_then};
ghost use Rattle.c_types.specs.Setting.{structs};
ghost use Rattle.c_widths.specs.DataModel.{IsModel, model_of};
ghost use Rattle.cg_out.specs.Words.{look_up};
ghost use Rattle.command_words.specs.CutWord as cut;
ghost use Rattle.exec_words.specs.ObjectWord as spec;

use crate::structure::cells_in;
use c_mean::Target;
use c_mem::{Cells, Object};
use c_types::TypedUnit;
use cg_out::{Memory, Text};
use command_words::{behind, number_in};
use hex::FromHexError;
use std::alloc::{AllocError, Global};

/// The most bytes that `raw:` makes.
const MOST_RAW: i128 = 65536;

/// The object that a word makes for a pointer of a target, where it is spelt well.
pub(crate) fn object_in<const INT: u32, const LONG: u32, const PTR: u32>(
    alloc: Global,
    word: &[u8],
    target: &Target,
    typed: &TypedUnit<'_, INT, LONG, PTR>,
) -> Result<Option<Object>, Memory>
    requires { IsModel INT LONG PTR }
    ensures { IfOk result (λ o. o ≡ spec.object_in (model_of INT LONG PTR) (structs typed.now.items) target.now word.now) }
{
    match target {
        Target::Byte => match given_bytes(alloc, word)? {
            Some(object) => Ok(Some(object)),
            None => raw_bytes(alloc, word),
        },
        Target::Struct(tag) => match behind(b"struct:", word) {
            Some(named) => struct_in(alloc, named, tag.bytes(), typed),
            None => Ok(None),
        },
    }
}

/// The bytes of `bytes:`.
fn given_bytes(alloc: Global, word: &[u8]) -> Result<Option<Object>, Memory>
    ensures { IfOk result (λ o. o ≡ option_and_then spec.bytes_in (cut.behind (codes "bytes:") word.now)) }
{
    match behind(b"bytes:", word) {
        Some(digits) => bytes_in(alloc, digits),
        None => Ok(None),
    }
}

/// The bytes of pairs of hexadecimal digits.
fn bytes_in(alloc: Global, digits: &[u8]) -> Result<Option<Object>, Memory>
    ensures { IfOk result (λ o. o ≡ spec.bytes_in digits.now) }
{
    match hex::decode(alloc, digits) {
        Ok(bytes) => Ok(Some(Object::Bytes(Cells::new(values(alloc, &bytes)?)))),
        Err(FromHexError::OutOfMemory) => Err(Memory),
        Err(_) => Ok(None),
    }
}

/// These bytes as values of cells.
fn values(alloc: Global, bytes: &[u8]) -> Result<Vec<Option<u8>>, AllocError>
    ensures { IfOk result (λ v. v.items ≡ map Some bytes.now) }
{
    bytes.iter().map(|byte| Some(*byte)).collect(alloc)
}

/// The bytes of `raw:`.
fn raw_bytes(alloc: Global, word: &[u8]) -> Result<Option<Object>, Memory>
    ensures { IfOk result (λ o. o ≡ option_and_then spec.raw_in (cut.behind (codes "raw:") word.now)) }
{
    match behind(b"raw:", word) {
        Some(digits) => raw_in(alloc, digits),
        None => Ok(None),
    }
}

fn raw_in(alloc: Global, word: &[u8]) -> Result<Option<Object>, Memory>
    ensures { IfOk result (λ o. o ≡ spec.raw_in word.now) }
{
    match number_in(word) {
        Some(count) => raw_of(alloc, count),
        None => Ok(None),
    }
}

/// So many bytes without a value.
fn raw_of(alloc: Global, count: i128) -> Result<Option<Object>, Memory>
    ensures { IfOk result (λ o. o ≡ spec.raw_of count) }
{
    if count < 0 || count > MOST_RAW {
        return Ok(None);
    }
    let cells = vec![in alloc; None; count as usize]?;
    Ok(Some(Object::Bytes(Cells::new(cells))))
}

/// The struct whose fields a word gives.
fn struct_in<const INT: u32, const LONG: u32, const PTR: u32>(
    alloc: Global,
    word: &[u8],
    tag: &[u8],
    typed: &TypedUnit<'_, INT, LONG, PTR>,
) -> Result<Option<Object>, Memory>
    requires { IsModel INT LONG PTR }
    ensures { IfOk result (λ o. o ≡ spec.struct_in (model_of INT LONG PTR) tag.now (look_up tag.now (structs typed.now.items)) word.now) }
{
    match cells_in(alloc, word, tag, typed)? {
        Some(cells) => Ok(Some(Object::Fields {
            tag: Text::copy_of(alloc, tag)?,
            cells,
        })),
        None => Ok(None),
    }
}
