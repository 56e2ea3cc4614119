//! The header as a list of parts.
ghost use Rattle.std.specs.Prelude.{◌≡◌, ◌++◌, ◌∷◌, [], IfOk, OnOk};
ghost use Rattle.c_printer.specs.BarePart.{bare_parts};
ghost use Rattle.gen_unit.specs.Header as header;
ghost use Rattle.gen_pack.specs.PackTree.{error_name};
ghost use Rattle.gen_unit.specs.Header.{about, macro_parts, declared_parts, message_parts, all_message_parts, opening_parts, include_parts, error_parts, header_parts};

use crate::parts::{
    number, put_blank, put_comment, put_constant, put_define, put_end_if, put_function,
    put_if_not_defined, put_include, put_opening_comment,
};
use crate::structs::put_struct;
use c_printer::{Part, PrintUnit};
use can_model::Message;
use cg_out::{List, Memory};
use gen_pack::pack_prototype;
use name_rules::{MessageNames, SymbolTable};
use std::alloc::{AllocError, Global};

/// The header of these messages, by the names of the table.
pub fn header_unit(
    alloc: Global,
    messages: &[Message],
    names: &SymbolTable,
) -> Result<PrintUnit, Memory>
    ensures { IfOk result (λ u. bare_parts u.parts ≡ header_parts messages.now names.now) }
{
    let mut parts = List::new(alloc);
    put_opening(alloc, &mut parts, names.guard.bytes())?;
    put_includes(alloc, &mut parts)?;
    put_error(alloc, &mut parts)?;
    put_messages(alloc, &mut parts, messages, names.messages.items())?;
    put_end_if(&mut parts)?;
    Ok(PrintUnit { parts })
}

fn put_opening(alloc: Global, parts: &mut List<Part>, guard: &[u8]) -> Result<(), Memory>
    ensures { OnOk result (bare_parts parts.new ≡ bare_parts parts.old ++ opening_parts guard.now) }
{
    put_opening_comment(alloc, parts)?;
    put_blank(parts)?;
    put_if_not_defined(alloc, parts, guard)?;
    put_define(alloc, parts, guard, None)?;
    put_blank(parts)
}

#[tactic(auto, unfolding(crate::specs::Header::bool_header))]
fn bool_header() -> &'static [u8]
    ensures { result.now ≡ header.bool_header }
{
    b"stdbool.h"
}

#[tactic(auto, unfolding(crate::specs::Header::size_header))]
fn size_header() -> &'static [u8]
    ensures { result.now ≡ header.size_header }
{
    b"stddef.h"
}

#[tactic(auto, unfolding(crate::specs::Header::integer_header))]
fn integer_header() -> &'static [u8]
    ensures { result.now ≡ header.integer_header }
{
    b"stdint.h"
}

fn put_includes(alloc: Global, parts: &mut List<Part>) -> Result<(), Memory>
    ensures { OnOk result (bare_parts parts.new ≡ bare_parts parts.old ++ include_parts) }
{
    put_include(alloc, parts, bool_header())?;
    put_include(alloc, parts, size_header())?;
    put_include(alloc, parts, integer_header())?;
    put_blank(parts)
}

#[tactic(auto, unfolding(gen_pack::specs::PackTree::error_name))]
fn error() -> &'static [u8]
    ensures { result.now ≡ error_name }
{
    b"EINVAL"
}

fn put_error(alloc: Global, parts: &mut List<Part>) -> Result<(), Memory>
    ensures { OnOk result (bare_parts parts.new ≡ bare_parts parts.old ++ error_parts) }
{
    put_if_not_defined(alloc, parts, error())?;
    put_define(alloc, parts, error(), Some(number(22, 10, false)))?;
    put_end_if(parts)?;
    put_blank(parts)
}

fn put_messages(
    alloc: Global,
    parts: &mut List<Part>,
    messages: &[Message],
    names: &[MessageNames],
) -> Result<(), Memory>
    ensures { OnOk result (bare_parts parts.new ≡ bare_parts parts.old ++ all_message_parts messages.now names.now) }
{
    for (m, n) in messages.iter().zip(names) {
        put_message(alloc, parts, m, n)?;
    }
    Ok(())
}

fn put_message(
    alloc: Global,
    parts: &mut List<Part>,
    m: &Message,
    names: &MessageNames,
) -> Result<(), Memory>
    ensures { OnOk result (bare_parts parts.new ≡ bare_parts parts.old ++ message_parts m.now names.now) }
{
    put_macros(alloc, parts, m, names)?;
    put_declarations(alloc, parts, m, names)
}

fn put_macros(
    alloc: Global,
    parts: &mut List<Part>,
    m: &Message,
    names: &MessageNames,
) -> Result<(), Memory>
    ensures { OnOk result (bare_parts parts.new ≡ bare_parts parts.old ++ macro_parts m.now names.now) }
{
    put_comment(alloc, parts, &about_message(alloc, m)?)?;
    put_constant(alloc, parts, names.frame_id.bytes(), m.id, 16, true)?;
    put_constant(alloc, parts, names.length.bytes(), m.length, 10, true)?;
    let extended = if m.extended { 1 } else { 0 };
    put_constant(alloc, parts, names.extended.bytes(), extended, 10, false)?;
    put_blank(parts)
}

fn put_declarations(
    alloc: Global,
    parts: &mut List<Part>,
    m: &Message,
    names: &MessageNames,
) -> Result<(), Memory>
    ensures { OnOk result (bare_parts parts.new ≡ bare_parts parts.old ++ declared_parts m.now names.now) }
{
    put_struct(alloc, parts, m, names)?;
    put_blank(parts)?;
    put_function(parts, pack_prototype(alloc, names)?)?;
    put_blank(parts)
}

fn about_message(alloc: Global, m: &Message) -> Result<Vec<u8>, AllocError>
    ensures { IfOk result (λ v. v.items ≡ about m.now) }
{
    let mut text = Vec::from_slice(alloc, b"Message ")?;
    text.extend_from_slice(m.name.bytes())?;
    let comment = m.comment.bytes();
    if !comment.is_empty() {
        text.push(b' ')?;
        text.extend_from_slice(comment)?;
    }
    Ok(text)
}
