//! Nodes of trees that no text has: names, constants, and the simplest statements.
ghost use Rattle.std.specs.Prelude.{◌≡◌, Some, IfOk};
ghost use Rattle.c_tree.specs.BareExpression.{bare_expression, name};
ghost use Rattle.c_tree.specs.BareStatement.{bare_statement, discard};
ghost use Rattle.shift_helpers.specs.HelperTree as HelperTree;
ghost use Rattle.gen_pack.specs.PackTree as spec;

use c_text::{Constant, Place};
use c_tree::{Expr, ExprKind, Stmt, StmtKind};
use cg_out::{Boxed, Memory, Text};
use std::alloc::Global;

/// The place of a tree that no text has.
pub fn nowhere() -> Place
    ensures { result ≡ HelperTree.nowhere }
{
    Place {
        header: false,
        line: 0,
        start: 0,
        end: 0,
    }
}

pub fn node(kind: ExprKind) -> Expr
    ensures { result.kind ≡ kind }
{
    Expr {
        place: nowhere(),
        kind,
    }
}

pub fn stmt(kind: StmtKind) -> Stmt
    ensures { result.kind ≡ kind }
{
    Stmt {
        place: nowhere(),
        kind,
    }
}

pub fn name_of(alloc: Global, text: &[u8]) -> Result<Expr, Memory>
    ensures { IfOk result (λ e. bare_expression e ≡ name text.now) }
{
    Ok(node(ExprKind::Name(Text::copy_of(alloc, text)?)))
}

/// A decimal constant without a suffix.
pub fn number(value: u32) -> Expr
    ensures { bare_expression result ≡ spec.number value }
{
    node(ExprKind::Constant(Constant {
        value: value.into(),
        base: 10,
        unsigned: false,
        longs: 0,
    }))
}

/// A constant with `u`, of the base 10 or 16.
pub fn unsigned(value: u32, base: u8) -> Expr
    ensures { bare_expression result ≡ spec.unsigned value base }
{
    node(ExprKind::Constant(Constant {
        value: value.into(),
        base,
        unsigned: true,
        longs: 0,
    }))
}

/// `(void)name;`
pub fn discarded(alloc: Global, text: &[u8]) -> Result<Stmt, Memory>
    ensures { IfOk result (λ s. bare_statement s ≡ discard text.now) }
{
    Ok(stmt(StmtKind::Discard(Text::copy_of(alloc, text)?)))
}

/// `return (value);`
pub fn returned(alloc: Global, value: Expr) -> Result<Stmt, Memory>
    ensures { IfOk result (λ s. bare_statement s ≡ spec.returned (bare_expression value)) }
{
    let inner = Boxed::new(alloc, value)?;
    Ok(stmt(StmtKind::Return(Some(node(ExprKind::Bracket(inner))))))
}
