//! Expressions (ISO/IEC 9899:1999, 6.5).
use c_text::{Constant, Place, Spelled};
use cg_out::{Boxed, List, Text};

/// The prefix operators.
#[derive(Clone, Copy, Debug, PartialEq, Eq)]
pub enum UnaryOp {
    Plus,
    Minus,
    /// `~`.
    Complement,
    /// `!`.
    Not,
}

/// The operators between two operands, the loosest first.
#[derive(Clone, Copy, Debug, PartialEq, Eq)]
pub enum BinaryOp {
    LogicalOr,
    LogicalAnd,
    BitOr,
    BitXor,
    BitAnd,
    Equal,
    NotEqual,
    Less,
    Greater,
    LessEqual,
    GreaterEqual,
    ShiftLeft,
    ShiftRight,
    Add,
    Subtract,
}

/// What a call calls.
#[derive(Debug, Drop)]
pub enum Callee {
    /// The function of this name.
    Name(Text),
    /// The standard `memset` (7.21.6.1), behind its header.
    Memset,
}

/// An expression; its place is that of one of its tokens.
#[cycle(expression)]
#[derive(Debug, Drop)]
pub struct Expr {
    /// Of a name, a constant, `NULL` and an operator its own token, of a member, an element and a
    /// call the name that it begins with, of a cast and of brackets the opening bracket.
    pub place: Place,
    pub kind: ExprKind,
}

/// What an expression is.
#[cycle(expression)]
#[derive(Debug, Drop)]
pub enum ExprKind {
    Constant(Constant),
    Name(Text),
    /// `NULL`.
    Null,
    /// `base->field`.
    Member {
        base: Text,
        field: Text,
    },
    /// `base[index]`.
    Element {
        base: Text,
        index: Boxed<Expr>,
    },
    Call {
        function: Callee,
        args: List<Expr>,
    },
    Unary {
        op: UnaryOp,
        operand: Boxed<Expr>,
    },
    /// `(to)operand`.
    Cast {
        to: Spelled,
        operand: Boxed<Expr>,
    },
    Binary {
        op: BinaryOp,
        left: Boxed<Expr>,
        right: Boxed<Expr>,
    },
    /// `(inner)`.
    Bracket(Boxed<Expr>),
}
