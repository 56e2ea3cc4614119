//! The texts of structs and functions (ISO/IEC 9899:1999, 6.7.2.1, 6.7.5.3 and 6.9.1).
ghost use Rattle.std.specs.Prelude.{◌≡◌, ◌++◌, true, codes, OnOk, map};
ghost use Rattle.c_tree.specs.BareUnit.{bare_field, bare_head, bare_body};
ghost use Rattle.c_printed.specs.PrintedItem as spec;
ghost use Rattle.c_printed.specs.PrintedUnit.{part_text, structure, routine};
ghost use Rattle.c_printer.specs.BarePart.{with_comments};

use crate::spelling::print_type;
use crate::statement::print_statements;
use c_tree::{CType, Field, Function, Stmt, Struct, Target};
use cg_out::{List, Text};
use std::alloc::AllocError;

/// Appends the declaration of a name (6.7.5): its type, and the name.
fn print_named(kind: &CType, name: &[u8], out: &mut Vec<u8>) -> Result<(), AllocError>
    ensures { OnOk result (out.new.items ≡ out.old.items ++ spec.named_text kind.now name.now) }
{
    match kind {
        CType::Void => out.extend_from_slice(b"void ")?,
        CType::Integer(spelled) => {
            print_type(*spelled, out)?;
            out.push(b' ')?;
        }
        CType::Pointer { target, constant } => {
            out.extend_from_slice(const_text(*constant))?;
            print_target(target, out)?;
            out.extend_from_slice(b" *")?;
        }
    }
    out.extend_from_slice(name)
}

fn const_text(constant: bool) -> &'static [u8]
    ensures { result.now ≡ spec.const_text constant }
{
    if constant { b"const " } else { b"" }
}

/// Appends what a pointer points to.
fn print_target(target: &Target, out: &mut Vec<u8>) -> Result<(), AllocError>
    ensures { OnOk result (out.new.items ≡ out.old.items ++ spec.target_text target.now) }
{
    match target {
        Target::Byte => out.extend_from_slice(b"uint8_t"),
        Target::Struct(tag) => {
            out.extend_from_slice(b"struct ")?;
            out.extend_from_slice(tag.bytes())
        }
    }
}

/// Appends a struct on lines of its own, each field behind its comment, one behind the other; an
/// empty comment, and one that is lacking, is not printed.
pub fn print_struct(item: &Struct, comments: &[Text], out: &mut Vec<u8>) -> Result<(), AllocError>
    ensures { OnOk result (out.new.items ≡ out.old.items ++ part_text (structure item.now.tag (with_comments item.now.fields comments.now))) }
{
    out.extend_from_slice(b"struct ")?;
    out.extend_from_slice(item.tag.bytes())?;
    out.extend_from_slice(b" {\n")?;
    print_fields(item.fields.items(), comments, out)?;
    out.extend_from_slice(b"};\n")
}

fn print_fields(fields: &[Field], comments: &[Text], out: &mut Vec<u8>) -> Result<(), AllocError>
    ensures { OnOk result (out.new.items ≡ out.old.items ++ spec.fields_text (with_comments fields.now comments.now)) }
{
    let mut rest = comments;
    for field in fields {
        if let [comment, others @ ..] = rest {
            print_comment(comment.bytes(), out)?;
            rest = others;
        }
        print_field(field, out)?;
    }
    Ok(())
}

/// Appends a comment on a line of its own, unless it is empty.
fn print_comment(comment: &[u8], out: &mut Vec<u8>) -> Result<(), AllocError>
    ensures { OnOk result (out.new.items ≡ out.old.items ++ spec.about_text comment.now) }
{
    if comment.is_empty() {
        return Ok(());
    }
    out.extend_from_slice(b"    /* ")?;
    out.extend_from_slice(comment)?;
    out.extend_from_slice(b" */\n")
}

fn print_field(field: &Field, out: &mut Vec<u8>) -> Result<(), AllocError>
    ensures { OnOk result (out.new.items ≡ out.old.items ++ (codes "    " ++ (spec.named_text field.now.kind field.now.name ++ codes ";\n"))) }
{
    out.extend_from_slice(b"    ")?;
    print_named(&field.kind, field.name.bytes(), out)?;
    out.extend_from_slice(b";\n")
}

/// Appends a prototype, or the definition of a function, on lines of its own.
pub fn print_function(function: &Function, out: &mut Vec<u8>) -> Result<(), AllocError>
    ensures { OnOk result (out.new.items ≡ out.old.items ++ part_text (routine (bare_head function.now) (bare_body function.now.body))) }
{
    print_head(function, out)?;
    print_body(&function.body, out)?;
    out.push(b'\n')?;
    Ok(())
}

/// Appends what stands before the body of a function.
fn print_head(function: &Function, out: &mut Vec<u8>) -> Result<(), AllocError>
    ensures { OnOk result (out.new.items ≡ out.old.items ++ spec.head_text (bare_head function.now)) }
{
    out.extend_from_slice(static_text(function.fixed))?;
    print_named(&function.returns, function.name.bytes(), out)?;
    out.push(b'(')?;
    print_all_params(function.params.items(), out)?;
    out.push(b')')?;
    Ok(())
}

fn static_text(fixed: bool) -> &'static [u8]
    ensures { result.now ≡ spec.static_text fixed }
{
    if fixed { b"static " } else { b"" }
}

/// Appends the parameters of a function, or `void` where there are none (6.7.5.3).
fn print_all_params(params: &[Field], out: &mut Vec<u8>) -> Result<(), AllocError>
    ensures { OnOk result (out.new.items ≡ out.old.items ++ spec.all_params_text (map bare_field params.now)) }
{
    if params.is_empty() {
        out.extend_from_slice(b"void")
    } else {
        print_params(params, out)
    }
}

/// Appends parameters, with a comma and a blank between.
fn print_params(params: &[Field], out: &mut Vec<u8>) -> Result<(), AllocError>
    ensures { OnOk result (out.new.items ≡ out.old.items ++ spec.params_text true (map bare_field params.now)) }
{
    let mut first = true;
    for param in params {
        if !first {
            out.extend_from_slice(b", ")?;
        }
        first = false;
        print_named(&param.kind, param.name.bytes(), out)?;
    }
    Ok(())
}

/// Appends the statements of a definition in their braces, or the semicolon of a prototype.
fn print_body(body: &Option<List<Stmt>>, out: &mut Vec<u8>) -> Result<(), AllocError>
    ensures { OnOk result (out.new.items ≡ out.old.items ++ spec.body_text (bare_body body.now)) }
{
    match body {
        Some(list) => {
            out.extend_from_slice(b"\n{\n")?;
            print_statements(list.items(), 4, out)?;
            out.push(b'}')?;
            Ok(())
        }
        None => {
            out.push(b';')?;
            Ok(())
        }
    }
}
