//! The parts of a C header: comments, directives, and macros whose bodies are constants.
ghost use Rattle.std.specs.Prelude.{◌≡◌, ◌++◌, ◌∷◌, [], map, Some, IfOk, OnOk};
ghost use Rattle.c_tree.specs.BareExpression.{bare_expression, bracket};
ghost use Rattle.c_tree.specs.BareStatement.{bare_option};
ghost use Rattle.c_tree.specs.BareUnit.{bare_item};
ghost use Rattle.c_tree.specs.declared.item.Item.TheVariants.{Function as AFunction};
ghost use Rattle.c_printed.specs.PrintedUnit as spec;
ghost use Rattle.c_printer.specs.BarePart.{bare_part, bare_parts};
ghost use Rattle.shift_helpers.specs.HelperTree as HelperTree;
ghost use Rattle.gen_unit.specs.Source.{function_part};
ghost use Rattle.gen_unit.specs.Comments.{opening_text, shown_byte, remark};
ghost use Rattle.gen_unit.specs.Header.{constant_macro};
ghost use Rattle.gen_unit.specs.Header as header;

use c_printer::Part;
use c_text::{Constant, Place};
use c_tree::{Expr, ExprKind, Function};
use cg_out::{Boxed, List, Memory, Text};
use std::alloc::{AllocError, Global};

/// The place of a tree that no text has.
pub fn nowhere() -> Place
    ensures { result ≡ HelperTree.nowhere }
{
    Place {
        header: false,
        line: 0,
        start: 0,
        end: 0,
    }
}

/// A constant of the base 8, 10 or 16.
pub fn number(value: u32, base: u8, unsigned: bool) -> Expr
    ensures { bare_expression result ≡ header.number value base unsigned }
{
    Expr {
        place: nowhere(),
        kind: ExprKind::Constant(Constant {
            value: value.into(),
            base,
            unsigned,
            longs: 0,
        }),
    }
}

fn in_brackets(alloc: Global, inner: Expr) -> Result<Expr, Memory>
    ensures { IfOk result (λ e. bare_expression e ≡ bracket (bare_expression inner)) }
{
    Ok(Expr {
        place: nowhere(),
        kind: ExprKind::Bracket(Boxed::new(alloc, inner)?),
    })
}

pub fn put(parts: &mut List<Part>, part: Part) -> Result<(), Memory>
    ensures { OnOk result (bare_parts parts.new ≡ bare_parts parts.old ++ bare_part part ∷ []) }
{
    parts.push(part)
}

fn shown(b: u8) -> u8
    ensures { result ≡ shown_byte b }
{
    if b < 32 || b > 126 || b == b'*' || b == b'?' || b == b'\\' {
        b'.'
    } else {
        b
    }
}

pub fn shown_text(alloc: Global, text: &[u8]) -> Result<Vec<u8>, AllocError>
    ensures { IfOk result (λ v. v.items ≡ map shown_byte text.now) }
{
    text.iter().map(|b| shown(*b)).collect(alloc)
}

pub fn put_comment(alloc: Global, parts: &mut List<Part>, words: &[u8]) -> Result<(), Memory>
    ensures { OnOk result (bare_parts parts.new ≡ bare_parts parts.old ++ remark words.now ∷ []) }
{
    let shown = shown_text(alloc, words)?;
    put(parts, Part::Comment(Text::copy_of(alloc, &shown)?))
}

pub fn put_function(parts: &mut List<Part>, function: Function) -> Result<(), Memory>
    ensures { OnOk result (bare_parts parts.new ≡ bare_parts parts.old ++ function_part (bare_item (AFunction function))) }
{
    put(parts, Part::Function(function))
}

pub fn put_blank(parts: &mut List<Part>) -> Result<(), Memory>
    ensures { OnOk result (bare_parts parts.new ≡ bare_parts parts.old ++ spec.blank ∷ []) }
{
    put(parts, Part::Blank)
}

/// Puts the comment that every text begins with.
#[tactic(auto, unfolding(crate::specs::Comments::opening_text))]
pub fn put_opening_comment(alloc: Global, parts: &mut List<Part>) -> Result<(), Memory>
    ensures { OnOk result (bare_parts parts.new ≡ bare_parts parts.old ++ remark opening_text ∷ []) }
{
    put_comment(alloc, parts, b"Generated from a CAN database. Do not edit.")
}

/// Puts the include of the header beside the source.
pub fn put_include_beside(alloc: Global, parts: &mut List<Part>, name: &[u8]) -> Result<(), Memory>
    ensures { OnOk result (bare_parts parts.new ≡ bare_parts parts.old ++ spec.include_beside name.now ∷ []) }
{
    let name = Text::copy_of(alloc, name)?;
    put(parts, Part::Include { name, quoted: true })
}

/// Puts the include of a standard header.
pub fn put_include(alloc: Global, parts: &mut List<Part>, name: &[u8]) -> Result<(), Memory>
    ensures { OnOk result (bare_parts parts.new ≡ bare_parts parts.old ++ spec.include name.now ∷ []) }
{
    let name = Text::copy_of(alloc, name)?;
    put(
        parts,
        Part::Include {
            name,
            quoted: false,
        },
    )
}

pub fn put_if_not_defined(alloc: Global, parts: &mut List<Part>, name: &[u8]) -> Result<(), Memory>
    ensures { OnOk result (bare_parts parts.new ≡ bare_parts parts.old ++ spec.if_not_defined name.now ∷ []) }
{
    put(parts, Part::IfNotDefined(Text::copy_of(alloc, name)?))
}

pub fn put_end_if(parts: &mut List<Part>) -> Result<(), Memory>
    ensures { OnOk result (bare_parts parts.new ≡ bare_parts parts.old ++ spec.end_if ∷ []) }
{
    put(parts, Part::EndIf)
}

pub fn put_define(
    alloc: Global,
    parts: &mut List<Part>,
    name: &[u8],
    body: Option<Expr>,
) -> Result<(), Memory>
    ensures { OnOk result (bare_parts parts.new ≡ bare_parts parts.old ++ spec.define name.now (bare_option body) ∷ []) }
{
    let name = Text::copy_of(alloc, name)?;
    put(parts, Part::Define { name, body })
}

/// Puts a macro whose body is a constant in brackets.
pub fn put_constant(
    alloc: Global,
    parts: &mut List<Part>,
    name: &[u8],
    value: u32,
    base: u8,
    unsigned: bool,
) -> Result<(), Memory>
    ensures { OnOk result (bare_parts parts.new ≡ bare_parts parts.old ++ constant_macro name.now (header.number value base unsigned) ∷ []) }
{
    let body = in_brackets(alloc, number(value, base, unsigned))?;
    put_define(alloc, parts, name, Some(body))
}
