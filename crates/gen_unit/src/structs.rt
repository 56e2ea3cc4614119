//! The struct of a message (ISO/IEC 9899:1999, 6.7.2.1), each field behind a comment of its signal.
ghost use Rattle.std.specs.Prelude.{◌≡◌, ◌++◌, ◌∷◌, [], map, IfOk, OnOk};
ghost use Rattle.std.specs.List.{zip};
ghost use Rattle.c_tree.specs.BareUnit.{bare_field};
ghost use Rattle.c_printer.specs.BarePart.{bare_parts};
ghost use Rattle.gen_pack.specs.StructFields as spec;
ghost use Rattle.gen_unit.specs.HeaderStruct.{about_signal, field_comment, struct_part};

use crate::parts::{nowhere, put, shown_text};
use c_printer::Part;
use c_text::Spelled;
use c_tree::{CType, Field, Struct};
use can_model::{Message, Signal, field_bits};
use cg_out::{List, Memory, Text};
use name_rules::{MessageNames, SignalNames};
use std::alloc::{AllocError, Global};

/// Puts the struct of a message: a field for each signal, or a dummy where it has none.
#[tactic(auto, using(crate::proofs::CommentedFields::struct_is))]
pub fn put_struct(
    alloc: Global,
    parts: &mut List<Part>,
    m: &Message,
    names: &MessageNames,
) -> Result<(), Memory>
    ensures { OnOk result (bare_parts parts.new ≡ bare_parts parts.old ++ struct_part m.now names.now ∷ []) }
{
    let item = Struct {
        tag: Text::copy_of(alloc, names.tag.bytes())?,
        fields: struct_fields(alloc, m.signals.items(), names.signals.items())?,
        place: nowhere(),
    };
    let comments = comments(alloc, m.signals.items(), names.signals.items())?;
    put(parts, Part::Struct { item, comments })
}

fn struct_fields(
    alloc: Global,
    signals: &[Signal],
    names: &[SignalNames],
) -> Result<List<Field>, Memory>
    ensures { IfOk result (λ fs. map bare_field fs ≡ spec.or_dummy (spec.fields_of signals.now names.now)) }
{
    let mut fields = fields(alloc, signals, names)?;
    if fields.items().is_empty() {
        fields.push(dummy(alloc)?)?;
    }
    Ok(fields)
}

fn fields(alloc: Global, signals: &[Signal], names: &[SignalNames]) -> Result<List<Field>, Memory>
    ensures { IfOk result (λ fs. map bare_field fs ≡ spec.fields_of signals.now names.now) }
{
    let mut fields = List::new(alloc);
    for (s, n) in signals.iter().zip(names) {
        fields.push(field(alloc, s, n)?)?;
    }
    Ok(fields)
}

fn field(alloc: Global, s: &Signal, names: &SignalNames) -> Result<Field, Memory>
    ensures { IfOk result (λ f. bare_field f ≡ spec.field_of s.now names.now) }
{
    Ok(Field {
        kind: CType::Integer(Spelled::Exact {
            width: field_bits(s.length),
            signed: s.signed,
        }),
        name: Text::copy_of(alloc, names.field.bytes())?,
        place: nowhere(),
    })
}

fn dummy(alloc: Global) -> Result<Field, Memory>
    ensures { IfOk result (λ f. bare_field f ≡ spec.dummy) }
{
    Ok(Field {
        kind: CType::Integer(Spelled::Exact {
            width: 8,
            signed: false,
        }),
        name: Text::copy_of(alloc, b"dummy")?,
        place: nowhere(),
    })
}

/// The comments of the fields, of which the dummy has none.
fn comments(alloc: Global, signals: &[Signal], names: &[SignalNames]) -> Result<List<Text>, Memory>
    ensures { IfOk result (λ cs. cs ≡ map (λ p. field_comment p.0) (zip signals.now names.now)) }
{
    let mut comments = List::new(alloc);
    for (s, _n) in signals.iter().zip(names) {
        comments.push(comment(alloc, s)?)?;
    }
    Ok(comments)
}

fn comment(alloc: Global, s: &Signal) -> Result<Text, Memory>
    ensures { IfOk result (λ t. t ≡ field_comment s.now) }
{
    Text::copy_of(alloc, &shown_text(alloc, &about(alloc, s)?)?)
}

fn about(alloc: Global, s: &Signal) -> Result<Vec<u8>, AllocError>
    ensures { IfOk result (λ v. v.items ≡ about_signal s.now) }
{
    let mut text = Vec::from_slice(alloc, s.name.bytes())?;
    text.extend_from_slice(b" [")?;
    text.extend_from_slice(s.unit.bytes())?;
    text.extend_from_slice(b"]")?;
    let comment = s.comment.bytes();
    if !comment.is_empty() {
        text.push(b' ')?;
        text.extend_from_slice(comment)?;
    }
    Ok(text)
}
