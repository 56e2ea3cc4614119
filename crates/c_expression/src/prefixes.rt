//! Prefix operators and casts (ISO/IEC 9899:1999, 6.5.3.3 and 6.5.4).
ghost use Rattle.std.specs.Prelude.{◌≡◌, IfOk};
ghost use Rattle.c_expression.specs.Prefixes.{with_prefix, with_prefixes};

use c_text::{Place, Spelled};
use c_tree::{Expr, ExprKind, UnaryOp};
use cg_out::{Boxed, Memory};
use std::alloc::Global;

/// A prefix operator or a cast.
#[derive(Clone, Copy)]
pub struct PrefixOp {
    /// Of a cast the place of its opening bracket.
    pub place: Place,
    pub kind: PrefixKind,
}

/// Which prefix operator, or to which type a cast is.
#[derive(Clone, Copy)]
pub enum PrefixKind {
    Sign(UnaryOp),
    Cast(Spelled),
}

/// The operand with these before it, the last of them next to it.
pub fn with_prefixes(alloc: Global, ops: Vec<PrefixOp>, operand: Expr) -> Result<Expr, Memory>
    ensures { IfOk result (λ e. e ≡ with_prefixes ops.items operand) }
{
    let mut left = ops;
    let mut tree = operand;
    while let Some(op) = left.pop() {
        tree = with_prefix(alloc, op, tree)?;
    }
    Ok(tree)
}

fn with_prefix(alloc: Global, op: PrefixOp, operand: Expr) -> Result<Expr, Memory>
    ensures { IfOk result (λ e. e ≡ with_prefix op operand) }
{
    let operand = Boxed::new(alloc, operand)?;
    let kind = match op.kind {
        PrefixKind::Sign(op) => ExprKind::Unary { op, operand },
        PrefixKind::Cast(to) => ExprKind::Cast { to, operand },
    };
    Ok(Expr {
        place: op.place,
        kind,
    })
}
