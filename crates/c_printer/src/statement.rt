//! The texts of statements (ISO/IEC 9899:1999, 6.8) and of declarations of locals (6.7), each on
//! lines of its own. An indent is a number of blanks.
ghost use Rattle.std.specs.Prelude.{◌≡◌, ◌++◌, ◌+◌, true, codes, OnOk, IfOk, map};
ghost use Rattle.c_tree.specs.BareExpression.{bare_expression};
ghost use Rattle.c_tree.specs.BareStatement.{bare_statement, bare_switch_part, bare_option, bare_all, actions_of, parts_of};
ghost use Rattle.c_tree.specs.BareStatement as tree;
ghost use Rattle.c_printed.specs.PrintedExpression.{printed};
ghost use Rattle.c_printed.specs.PrintedStatement as spec;
ghost use Rattle.c_printer.specs.SwitchPartText.{switch_part_text};

use crate::expression::{print_call, print_expression};
use crate::spelling::{assign_text, print_type};
use c_text::Spelled;
use c_tree::{AssignOp, Callee, Expr, Stmt, StmtKind, SwitchPart};
use std::alloc::AllocError;

/// The indent of what stands inside. Memory has no room for one past the numbers of the machine.
fn deeper(indent: usize) -> Result<usize, AllocError>
    ensures { IfOk result (λ n. n ≡ indent + 4) }
{
    indent.checked_add(4).ok_or(AllocError)
}

#[tactic(auto, using(crate::proofs::Blanks::blank_more))]
fn print_blanks(count: usize, out: &mut Vec<u8>) -> Result<(), AllocError>
    ensures { OnOk result (out.new.items ≡ out.old.items ++ spec.blanks count) }
{
    for _ in 0..count {
        out.push(b' ')?;
    }
    Ok(())
}

/// Appends the beginning of a line, or all of it, behind its indent.
fn print_line(text: &[u8], indent: usize, out: &mut Vec<u8>) -> Result<(), AllocError>
    ensures { OnOk result (out.new.items ≡ out.old.items ++ (spec.blanks indent ++ text.now)) }
{
    print_blanks(indent, out)?;
    out.extend_from_slice(text)
}

/// Appends the declaration of a local, as `int a = 1;`.
fn print_declaration(
    kind: Spelled,
    name: &[u8],
    value: &Option<Expr>,
    indent: usize,
    out: &mut Vec<u8>,
) -> Result<(), AllocError>
    ensures { OnOk result (out.new.items ≡ out.old.items ++ spec.action_text indent (tree.declare kind name.now (bare_option value.now))) }
{
    print_blanks(indent, out)?;
    print_type(kind, out)?;
    out.push(b' ')?;
    out.extend_from_slice(name)?;
    print_initial_value(value, out)?;
    out.extend_from_slice(b";\n")
}

/// Appends the value that a local begins with (6.7.8), where it has one.
fn print_initial_value(value: &Option<Expr>, out: &mut Vec<u8>) -> Result<(), AllocError>
    ensures { OnOk result (out.new.items ≡ out.old.items ++ spec.value_text (bare_option value.now)) }
{
    match value {
        Some(expr) => {
            out.extend_from_slice(b" = ")?;
            print_expression(expr, true, out)
        }
        None => Ok(()),
    }
}

fn print_assignment(
    target: &Expr,
    op: AssignOp,
    value: &Expr,
    indent: usize,
    out: &mut Vec<u8>,
) -> Result<(), AllocError>
    ensures { OnOk result (out.new.items ≡ out.old.items ++ spec.action_text indent (tree.assign (bare_expression target.now) op (bare_expression value.now))) }
{
    print_blanks(indent, out)?;
    print_expression(target, true, out)?;
    out.extend_from_slice(assign_text(op))?;
    print_expression(value, true, out)?;
    out.extend_from_slice(b";\n")
}

fn print_call_statement(
    function: &Callee,
    args: &[Expr],
    indent: usize,
    out: &mut Vec<u8>,
) -> Result<(), AllocError>
    ensures { OnOk result (out.new.items ≡ out.old.items ++ spec.action_text indent (tree.call function.now (bare_all args.now))) }
{
    print_blanks(indent, out)?;
    print_call(function, args, true, out)?;
    out.extend_from_slice(b";\n")
}

/// Appends a name that is used and dropped (6.3.2.2), as `(void)a;`.
fn print_discard(name: &[u8], indent: usize, out: &mut Vec<u8>) -> Result<(), AllocError>
    ensures { OnOk result (out.new.items ≡ out.old.items ++ spec.action_text indent (tree.discard name.now)) }
{
    print_line(b"(void)", indent, out)?;
    out.extend_from_slice(name)?;
    out.extend_from_slice(b";\n")
}

fn print_return(value: &Option<Expr>, indent: usize, out: &mut Vec<u8>) -> Result<(), AllocError>
    ensures { OnOk result (out.new.items ≡ out.old.items ++ spec.action_text indent (tree.return (bare_option value.now))) }
{
    print_line(b"return", indent, out)?;
    print_result(value, out)?;
    out.extend_from_slice(b";\n")
}

/// Appends what is returned (6.8.6.4), where something is.
fn print_result(value: &Option<Expr>, out: &mut Vec<u8>) -> Result<(), AllocError>
    ensures { OnOk result (out.new.items ≡ out.old.items ++ spec.result_text (bare_option value.now)) }
{
    match value {
        Some(expr) => {
            out.push(b' ')?;
            print_expression(expr, true, out)
        }
        None => Ok(()),
    }
}

/// Appends the line that opens a block behind an expression in brackets, as `if (a) {`.
fn print_head(
    start: &[u8],
    value: &Expr,
    indent: usize,
    out: &mut Vec<u8>,
) -> Result<(), AllocError>
    ensures { OnOk result (out.new.items ≡ out.old.items ++ (spec.blanks indent ++ (start.now ++ (printed true (bare_expression value.now) ++ codes ") {\n")))) }
{
    print_line(start, indent, out)?;
    print_expression(value, true, out)?;
    out.extend_from_slice(b") {\n")
}

/// Appends a statement.
#[cycle(statements)]
fn print_statement(stmt: &Stmt, indent: usize, out: &mut Vec<u8>) -> Result<(), AllocError>
    ensures { OnOk result (out.new.items ≡ out.old.items ++ spec.action_text indent (bare_statement stmt.now)) }
{
    match &stmt.kind {
        StmtKind::Declare { kind, name, value } => {
            print_declaration(*kind, name.bytes(), value, indent, out)
        }
        StmtKind::Assign { target, op, value } => print_assignment(target, *op, value, indent, out),
        StmtKind::Call { function, args } => {
            print_call_statement(function, args.items(), indent, out)
        }
        StmtKind::Discard(name) => print_discard(name.bytes(), indent, out),
        StmtKind::Empty => print_line(b";\n", indent, out),
        StmtKind::Block(list) => {
            print_line(b"{\n", indent, out)?;
            print_statements(list.items(), deeper(indent)?, out)?;
            print_line(b"}\n", indent, out)
        }
        StmtKind::If { condition, yes, no } => {
            print_head(b"if (", condition, indent, out)?;
            print_inner(yes.get(), deeper(indent)?, out)?;
            match no {
                Some(other) => {
                    print_line(b"} else {\n", indent, out)?;
                    print_inner(other.get(), deeper(indent)?, out)?;
                    print_line(b"}\n", indent, out)
                }
                None => print_line(b"}\n", indent, out),
            }
        }
        StmtKind::Return(value) => print_return(value, indent, out),
        StmtKind::Break => print_line(b"break;\n", indent, out),
        StmtKind::Switch { value, parts } => {
            print_head(b"switch (", value, indent, out)?;
            print_parts(parts.items(), indent, out)?;
            print_line(b"}\n", indent, out)
        }
    }
}

/// Appends the statements of a block, without its braces.
#[cycle(statements)]
fn print_inner(stmt: &Stmt, indent: usize, out: &mut Vec<u8>) -> Result<(), AllocError>
    ensures { OnOk result (out.new.items ≡ out.old.items ++ spec.inner_text indent (bare_statement stmt.now)) }
{
    match &stmt.kind {
        StmtKind::Block(list) => print_statements(list.items(), indent, out),
        _ => Ok(()),
    }
}

/// Appends statements in a row.
#[cycle(statements)]
pub fn print_statements(list: &[Stmt], indent: usize, out: &mut Vec<u8>) -> Result<(), AllocError>
    ensures { OnOk result (out.new.items ≡ out.old.items ++ spec.actions_text indent (actions_of (map bare_statement list.now))) }
{
    for stmt in list {
        print_statement(stmt, indent, out)?;
    }
    Ok(())
}

/// Appends what stands at the level of a switch; its labels are indented as the `switch` is.
#[cycle(statements)]
fn print_parts(parts: &[SwitchPart], indent: usize, out: &mut Vec<u8>) -> Result<(), AllocError>
    ensures { OnOk result (out.new.items ≡ out.old.items ++ spec.parts_text indent (parts_of (map bare_switch_part parts.now))) }
{
    for part in parts {
        print_switch_part(part, indent, out)?;
    }
    Ok(())
}

/// Appends a label, or a statement, whose indent is that of the bodies of an `if`.
#[cycle(statements)]
fn print_switch_part(part: &SwitchPart, indent: usize, out: &mut Vec<u8>) -> Result<(), AllocError>
    ensures { OnOk result (out.new.items ≡ out.old.items ++ switch_part_text indent (bare_switch_part part.now)) }
{
    match part {
        SwitchPart::Label { value, place: _ } => print_label(value, indent, out),
        SwitchPart::Statement(stmt) => print_statement(stmt, deeper(indent)?, out),
    }
}

/// Appends a label of a `switch` (6.8.1), on a line of its own.
fn print_label(value: &Option<Expr>, indent: usize, out: &mut Vec<u8>) -> Result<(), AllocError>
    ensures { OnOk result (out.new.items ≡ out.old.items ++ (spec.blanks indent ++ (spec.label_text (bare_option value.now) ++ codes ":\n"))) }
{
    print_blanks(indent, out)?;
    match value {
        Some(expr) => {
            out.extend_from_slice(b"case ")?;
            print_expression(expr, true, out)?;
        }
        None => out.extend_from_slice(b"default")?,
    }
    out.extend_from_slice(b":\n")
}
