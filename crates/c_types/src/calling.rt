//! Whether a function calls (ISO/IEC 9899:1999, 6.5.2.2), wherever in its statements.
ghost use Rattle.std.specs.Prelude.{◌≡◌, map};
ghost use Rattle.c_types.specs.Calling as spec;

use c_mean::{Expr, ExprKind, Stmt, StmtKind, SwitchPart};

fn expression_calls(e: &Expr) -> bool
    ensures { result ≡ spec.expression_calls e.now }
{
    match &e.kind {
        ExprKind::Call {
            function: _,
            args: _,
        } => true,
        ExprKind::Element { base: _, index } => expression_calls(index.get()),
        ExprKind::Unary { op: _, operand } => expression_calls(operand.get()),
        ExprKind::Cast { to: _, operand } => expression_calls(operand.get()),
        ExprKind::Binary { op: _, left, right } => expression_calls(left.get())
            || expression_calls(right.get()),
        ExprKind::Bracket(inner) => expression_calls(inner.get()),
        ExprKind::Constant(_) => false,
        ExprKind::Name(_) => false,
        ExprKind::Null => false,
        ExprKind::Member { base: _, field: _ } => false,
    }
}

fn value_calls(value: &Option<Expr>) -> bool
    ensures { result ≡ spec.value_calls value.now }
{
    match value {
        Some(e) => expression_calls(e),
        None => false,
    }
}

#[cycle(calling)]
fn statement_calls(stmt: &Stmt) -> bool
    ensures { result ≡ spec.statement_calls stmt.now }
{
    match &stmt.kind {
        StmtKind::Declare {
            kind: _,
            name: _,
            value,
        } => value_calls(value),
        StmtKind::Assign {
            target,
            op: _,
            value,
        } => expression_calls(target) || expression_calls(value),
        StmtKind::Call {
            function: _,
            args: _,
        } => true,
        StmtKind::Discard(_) => false,
        StmtKind::Empty => false,
        StmtKind::Block(list) => some_calls(list.items()),
        StmtKind::If { condition, yes, no } => {
            if expression_calls(condition) || statement_calls(yes.get()) {
                return true;
            }
            match no {
                Some(other) => statement_calls(other.get()),
                None => false,
            }
        }
        StmtKind::Return(value) => value_calls(value),
        StmtKind::Break => false,
        StmtKind::Switch { value, parts } => expression_calls(value)
            || some_part_calls(parts.items()),
    }
}

/// Whether one of these statements calls.
#[cycle(calling)]
pub fn some_calls(list: &[Stmt]) -> bool
    ensures { result ≡ spec.statements_call list.now }
{
    for stmt in list {
        if statement_calls(stmt) {
            return true;
        }
    }
    false
}

#[cycle(calling)]
fn some_part_calls(parts: &[SwitchPart]) -> bool
    ensures { result ≡ spec.some_true (map spec.part_calls parts.now) }
{
    for part in parts {
        if part_calls(part) {
            return true;
        }
    }
    false
}

#[cycle(calling)]
fn part_calls(part: &SwitchPart) -> bool
    ensures { result ≡ spec.part_calls part.now }
{
    match part {
        SwitchPart::Label { value, place: _ } => value_calls(value),
        SwitchPart::Statement(stmt) => statement_calls(stmt),
    }
}
