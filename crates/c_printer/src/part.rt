//! The parts of a unit, and their texts: comments, directives (ISO/IEC 9899:1999, 6.10), structs and
//! functions.
ghost use Rattle.std.specs.Prelude.{◌≡◌, ◌++◌, OnOk};
ghost use Rattle.c_tree.specs.BareStatement.{bare_option};
ghost use Rattle.c_printed.specs.PrintedUnit as spec;
ghost use Rattle.c_printer.specs.BarePart.{bare_part, included};

use crate::expression::print_expression;
use crate::item::{print_function, print_struct};
use c_tree::{Expr, Function, Struct};
use cg_out::{List, Text};
use std::alloc::AllocError;

/// What is printed: a header, or a source.
#[derive(Debug, Drop)]
pub struct PrintUnit {
    pub parts: List<Part>,
}

/// A part of a unit.
#[derive(Debug, Drop)]
pub enum Part {
    /// A comment on a line of its own.
    Comment(Text),
    /// An empty line.
    Blank,
    /// `#include <name>`, or `#include "name"` where it is quoted.
    Include { name: Text, quoted: bool },
    /// `#define name`, with a body or without.
    Define { name: Text, body: Option<Expr> },
    /// `#ifndef name`.
    IfNotDefined(Text),
    /// `#endif`.
    EndIf,
    /// One comment for each field, in order; an empty one is not printed, nor one that is lacking.
    Struct { item: Struct, comments: List<Text> },
    /// A prototype, or the definition of a function.
    Function(Function),
}

/// Appends a part.
pub fn print_part(part: &Part, out: &mut Vec<u8>) -> Result<(), AllocError>
    ensures { OnOk result (out.new.items ≡ out.old.items ++ spec.part_text (bare_part part.now)) }
{
    match part {
        Part::Comment(text) => print_comment(text.bytes(), out),
        Part::Blank => out.extend_from_slice(b"\n"),
        Part::Include { name, quoted } => print_include(name.bytes(), *quoted, out),
        Part::Define { name, body } => print_define(name.bytes(), body, out),
        Part::IfNotDefined(name) => print_if_not_defined(name.bytes(), out),
        Part::EndIf => out.extend_from_slice(b"#endif\n"),
        Part::Struct { item, comments } => print_struct(item, comments.items(), out),
        Part::Function(function) => print_function(function, out),
    }
}

fn print_comment(text: &[u8], out: &mut Vec<u8>) -> Result<(), AllocError>
    ensures { OnOk result (out.new.items ≡ out.old.items ++ spec.part_text (spec.comment text.now)) }
{
    out.extend_from_slice(b"/* ")?;
    out.extend_from_slice(text)?;
    out.extend_from_slice(b" */\n")
}

/// Appends the inclusion of a header (6.10.2).
fn print_include(name: &[u8], quoted: bool, out: &mut Vec<u8>) -> Result<(), AllocError>
    ensures { OnOk result (out.new.items ≡ out.old.items ++ spec.part_text (included quoted name.now)) }
{
    out.extend_from_slice(b"#include ")?;
    out.push(if quoted { b'"' } else { b'<' })?;
    out.extend_from_slice(name)?;
    out.push(if quoted { b'"' } else { b'>' })?;
    out.push(b'\n')?;
    Ok(())
}

/// Appends the definition of a macro (6.10.3).
fn print_define(name: &[u8], body: &Option<Expr>, out: &mut Vec<u8>) -> Result<(), AllocError>
    ensures { OnOk result (out.new.items ≡ out.old.items ++ spec.part_text (spec.define name.now (bare_option body.now))) }
{
    out.extend_from_slice(b"#define ")?;
    out.extend_from_slice(name)?;
    print_macro_body(body, out)?;
    out.push(b'\n')?;
    Ok(())
}

fn print_macro_body(body: &Option<Expr>, out: &mut Vec<u8>) -> Result<(), AllocError>
    ensures { OnOk result (out.new.items ≡ out.old.items ++ spec.define_text (bare_option body.now)) }
{
    match body {
        Some(expr) => {
            out.push(b' ')?;
            print_expression(expr, false, out)
        }
        None => Ok(()),
    }
}

fn print_if_not_defined(name: &[u8], out: &mut Vec<u8>) -> Result<(), AllocError>
    ensures { OnOk result (out.new.items ≡ out.old.items ++ spec.part_text (spec.if_not_defined name.now)) }
{
    out.extend_from_slice(b"#ifndef ")?;
    out.extend_from_slice(name)?;
    out.push(b'\n')?;
    Ok(())
}
