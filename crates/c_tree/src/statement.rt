//! Statements (ISO/IEC 9899:1999, 6.8), and declarations of locals among them.
use crate::expression::{Callee, Expr};
use c_text::{Place, Spelled};
use cg_out::{Boxed, List, Text};

/// The operators of an assignment.
#[derive(Clone, Copy, Debug, PartialEq, Eq)]
pub enum AssignOp {
    Set,
    BitOr,
    BitAnd,
    BitXor,
    Add,
    Subtract,
    ShiftLeft,
    ShiftRight,
}

/// A statement; its place is that of one of its tokens.
#[cycle(statement)]
#[derive(Debug, Drop)]
pub struct Stmt {
    /// Of a declaration and a discarded name the name, of an assignment the operator, of all
    /// others the first token.
    pub place: Place,
    pub kind: StmtKind,
}

/// What a statement is.
#[cycle(statement)]
#[derive(Debug, Drop)]
pub enum StmtKind {
    /// `kind name;` or `kind name = value;`.
    Declare {
        kind: Spelled,
        name: Text,
        value: Option<Expr>,
    },
    /// The target is a name, a member or an element.
    Assign {
        target: Expr,
        op: AssignOp,
        value: Expr,
    },
    Call {
        function: Callee,
        args: List<Expr>,
    },
    /// `(void)name;`.
    Discard(Text),
    /// `;`.
    Empty,
    Block(List<Stmt>),
    If {
        condition: Expr,
        yes: Boxed<Stmt>,
        no: Option<Boxed<Stmt>>,
    },
    Return(Option<Expr>),
    Break,
    Switch {
        value: Expr,
        parts: List<SwitchPart>,
    },
}

/// What stands at a switch's own level.
#[cycle(statement)]
#[derive(Debug, Drop)]
pub enum SwitchPart {
    /// `case value:`, or `default:` without a value; the place is the first token.
    Label { value: Option<Expr>, place: Place },
    Statement(Stmt),
}
