//! The texts of expressions (ISO/IEC 9899:1999, 6.5).
ghost use Rattle.std.specs.Prelude.{◌≡◌, ◌++◌, true, codes, OnOk};
ghost use Rattle.c_tree.specs.BareExpression.{bare_expression};
ghost use Rattle.c_tree.specs.BareStatement.{bare_all};
ghost use Rattle.c_printed.specs.Spelling as words;
ghost use Rattle.c_printed.specs.PrintedExpression as spec;

use crate::constant::print_constant;
use crate::spelling::{callee_text, operator_text, print_type, sign_text};
use c_tree::{Callee, Expr, ExprKind};
use std::alloc::AllocError;

/// Appends an expression, in a function (`wide`) or in the body of a macro.
#[cycle(expressions)]
pub fn print_expression(expr: &Expr, wide: bool, out: &mut Vec<u8>) -> Result<(), AllocError>
    ensures { OnOk result (out.new.items ≡ out.old.items ++ spec.printed wide (bare_expression expr.now)) }
{
    match &expr.kind {
        ExprKind::Constant(constant) => print_constant(*constant, wide, out),
        ExprKind::Name(name) => out.extend_from_slice(name.bytes()),
        ExprKind::Null => out.extend_from_slice(b"NULL"),
        ExprKind::Member { base, field } => {
            out.extend_from_slice(base.bytes())?;
            out.extend_from_slice(b"->")?;
            out.extend_from_slice(field.bytes())
        }
        ExprKind::Element { base, index } => {
            out.extend_from_slice(base.bytes())?;
            out.push(b'[')?;
            print_expression(index.get(), wide, out)?;
            out.push(b']')?;
            Ok(())
        }
        ExprKind::Call { function, args } => print_call(function, args.items(), wide, out),
        ExprKind::Unary { op, operand } => {
            out.extend_from_slice(sign_text(*op))?;
            print_expression(operand.get(), wide, out)
        }
        ExprKind::Cast { to, operand } => {
            out.push(b'(')?;
            print_type(*to, out)?;
            out.push(b')')?;
            print_expression(operand.get(), wide, out)
        }
        ExprKind::Binary { op, left, right } => {
            print_expression(left.get(), wide, out)?;
            out.extend_from_slice(operator_text(*op))?;
            print_expression(right.get(), wide, out)
        }
        ExprKind::Bracket(inner) => {
            out.push(b'(')?;
            print_expression(inner.get(), wide, out)?;
            out.push(b')')?;
            Ok(())
        }
    }
}

/// Appends a call (6.5.2.2), of an expression or of a statement.
#[cycle(expressions)]
pub fn print_call(
    function: &Callee,
    args: &[Expr],
    wide: bool,
    out: &mut Vec<u8>,
) -> Result<(), AllocError>
    ensures { OnOk result (out.new.items ≡ out.old.items ++ (words.callee_text function.now ++ (codes "(" ++ (spec.separated wide true (bare_all args.now) ++ codes ")")))) }
{
    out.extend_from_slice(callee_text(function))?;
    out.push(b'(')?;
    print_arguments(args, wide, out)?;
    out.push(b')')?;
    Ok(())
}

/// Appends the arguments of a call, with a comma and a blank between.
#[cycle(expressions)]
fn print_arguments(args: &[Expr], wide: bool, out: &mut Vec<u8>) -> Result<(), AllocError>
    ensures { OnOk result (out.new.items ≡ out.old.items ++ spec.separated wide true (bare_all args.now)) }
{
    let mut first = true;
    for arg in args {
        if !first {
            out.extend_from_slice(b", ")?;
        }
        first = false;
        print_expression(arg, wide, out)?;
    }
    Ok(())
}
