//! Reports of calls: a value and what objects hold, or undefined behaviour.
ghost use Rattle.std.specs.Prelude.{◌≡◌, [], ◌∷◌, ◌++◌, codes, IfOk, OnOk};
ghost use Rattle.std.specs.Fmt.{signed_decimal};
ghost use Rattle.std.specs.Option.{option_copied};
ghost use Rattle.hex.specs.Hex.{encode_lower};
ghost use Rattle.c_types.specs.Setting.{structs};
ghost use Rattle.exec_words.specs.CallReport.{kind_name, text_named, undefined_report, value_text, byte_text, bytes_text, number_text, field_text, further_text, fields_text, object_text, argument_line, object_at, argument_lines, report_of};

use c_effect::{Arg, Object, Objects, Outcome, Undefined};
use c_mean::{Field, Place};
use c_types::TypedUnit;
use cg_out::Memory;
use itoa::Buffer;
use std::alloc::{AllocError, Global};

/// What is told of a call: `return 2` and what its objects hold, or
/// `undefined Overflow source line 3`.
pub fn report<const INT: u32, const LONG: u32, const PTR: u32>(
    alloc: Global,
    outcome: Outcome,
    args: &[Arg],
    objects: &Objects,
    typed: &TypedUnit<'_, INT, LONG, PTR>,
) -> Result<Vec<u8>, Memory>
    ensures { IfOk result (λ r. r.items ≡ report_of (structs typed.now.items) outcome args.now objects.now) }
{
    let mut out = Vec::new(alloc);
    match outcome {
        Outcome::Returned(value) => {
            put_value(&mut out, value)?;
            put_arguments(&mut out, args, objects, typed)?;
        }
        Outcome::Undefined { kind, place } => put_undefined(&mut out, kind, place)?,
    }
    Ok(out)
}

#[tactic(auto, unfolding(crate::specs::CallReport::undefined_report))]
fn put_undefined(out: &mut Vec<u8>, kind: Undefined, place: Place) -> Result<(), AllocError>
    ensures { OnOk result (out.new.items ≡ out.old.items ++ undefined_report kind place) }
{
    out.extend_from_slice(b"undefined ")?;
    out.extend_from_slice(kind_name(kind).as_bytes())?;
    out.extend_from_slice(text_named(place.header).as_bytes())?;
    out.extend_from_slice(Buffer::new().format(place.line).as_bytes())?;
    out.push(b'\n')?;
    Ok(())
}

fn kind_name(kind: Undefined) -> &'static str
    ensures { result.now ≡ kind_name kind }
{
    match kind {
        Undefined::ShiftCount => "ShiftCount",
        Undefined::ShiftOverflow => "ShiftOverflow",
        Undefined::NegativeRightShift => "NegativeRightShift",
        Undefined::Overflow => "Overflow",
        Undefined::NullUse => "NullUse",
        Undefined::OutOfBounds => "OutOfBounds",
        Undefined::Indeterminate => "Indeterminate",
        Undefined::NoValue => "NoValue",
    }
}

fn text_named(header: bool) -> &'static str
    ensures { result.now ≡ text_named header }
{
    if header {
        " header line "
    } else {
        " source line "
    }
}

fn put_value(out: &mut Vec<u8>, value: Option<i128>) -> Result<(), AllocError>
    ensures { OnOk result (out.new.items ≡ out.old.items ++ codes "return" ++ value_text value ++ codes "\n") }
{
    out.extend_from_slice(b"return")?;
    if let Some(number) = value {
        out.push(b' ')?;
        put_number(out, number)?;
    }
    out.push(b'\n')?;
    Ok(())
}

fn put_number(out: &mut Vec<u8>, number: i128) -> Result<(), AllocError>
    ensures { OnOk result (out.new.items ≡ out.old.items ++ signed_decimal number) }
{
    out.extend_from_slice(Buffer::new().format(number).as_bytes())
}

fn put_arguments<const INT: u32, const LONG: u32, const PTR: u32>(
    out: &mut Vec<u8>,
    args: &[Arg],
    objects: &Objects,
    typed: &TypedUnit<'_, INT, LONG, PTR>,
) -> Result<(), AllocError>
    ensures { OnOk result (out.new.items ≡ out.old.items ++ argument_lines (structs typed.now.items) objects.now 1 args.now) }
{
    for (i, arg) in args.iter().enumerate() {
        put_argument(out, i + 1, object_at(objects, *arg), typed)?;
    }
    Ok(())
}

/// The object that an argument points to.
fn object_at<'a>(objects: &'a Objects, arg: Arg) -> Option<&'a Object>
    ensures { option_copied result ≡ object_at objects.now arg }
{
    match arg {
        Arg::Pointer(pointer) => objects.target(pointer).ok(),
        Arg::Integer(_) => None,
    }
}

fn put_argument<const INT: u32, const LONG: u32, const PTR: u32>(
    out: &mut Vec<u8>,
    number: usize,
    object: Option<&Object>,
    typed: &TypedUnit<'_, INT, LONG, PTR>,
) -> Result<(), AllocError>
    ensures { OnOk result (out.new.items ≡ out.old.items ++ argument_line (structs typed.now.items) number (option_copied object.entry)) }
{
    if let Some(object) = object {
        out.extend_from_slice(b"arg ")?;
        out.extend_from_slice(Buffer::new().format(number).as_bytes())?;
        out.extend_from_slice(b": ")?;
        put_object(out, object, typed)?;
        out.push(b'\n')?;
    }
    Ok(())
}

fn put_object<const INT: u32, const LONG: u32, const PTR: u32>(
    out: &mut Vec<u8>,
    object: &Object,
    typed: &TypedUnit<'_, INT, LONG, PTR>,
) -> Result<(), AllocError>
    ensures { OnOk result (out.new.items ≡ out.old.items ++ object_text (structs typed.now.items) object.now) }
{
    match object {
        Object::Bytes(cells) => put_bytes(out, cells.items()),
        Object::Fields { tag, cells } => match typed.fields(tag.bytes()) {
            Some(fields) => put_fields(out, fields, cells.items()),
            None => Ok(()),
        },
    }
}

fn put_bytes(out: &mut Vec<u8>, cells: &[Option<u8>]) -> Result<(), AllocError>
    ensures { OnOk result (out.new.items ≡ out.old.items ++ bytes_text cells.now) }
{
    for cell in cells {
        put_byte(out, *cell)?;
    }
    Ok(())
}

fn put_byte(out: &mut Vec<u8>, cell: Option<u8>) -> Result<(), AllocError>
    ensures { OnOk result (out.new.items ≡ out.old.items ++ byte_text cell) }
{
    match cell {
        Some(byte) => out.extend_from_slice(&digits(byte)),
        None => out.extend_from_slice(b"--"),
    }
}

/// The two hexadecimal digits of a byte.
fn digits(byte: u8) -> [u8; 2]
    ensures { result ≡ encode_lower (byte ∷ []) }
{
    let mut digits = [0; 2];
    let _ = hex::encode_to_slice([byte], &mut digits);
    digits
}

fn put_fields(out: &mut Vec<u8>, fields: &[Field], cells: &[Option<i128>]) -> Result<(), AllocError>
    ensures { OnOk result (out.new.items ≡ out.old.items ++ fields_text fields.now cells.now) }
{
    match (fields, cells) {
        ([field, fields @ ..], [cell, cells @ ..]) => {
            put_field(out, field, *cell)?;
            put_further(out, fields, cells)
        }
        _ => Ok(()),
    }
}

fn put_further(
    out: &mut Vec<u8>,
    fields: &[Field],
    cells: &[Option<i128>],
) -> Result<(), AllocError>
    ensures { OnOk result (out.new.items ≡ out.old.items ++ further_text fields.now cells.now) }
{
    for (field, cell) in fields.iter().zip(cells) {
        out.push(b' ')?;
        put_field(out, field, *cell)?;
    }
    Ok(())
}

fn put_field(out: &mut Vec<u8>, field: &Field, cell: Option<i128>) -> Result<(), AllocError>
    ensures { OnOk result (out.new.items ≡ out.old.items ++ field_text field.now cell) }
{
    out.extend_from_slice(field.name.bytes())?;
    out.push(b'=')?;
    match cell {
        Some(number) => put_number(out, number),
        None => out.extend_from_slice(b"?"),
    }
}
