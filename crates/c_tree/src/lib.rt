//! The trees of C99's expressions, statements and units, as types, with the definitions of how
//! tokens are cut into them in `specs/`: tokens come in, a unit or its first fault is what they mean.
//!
//! ```text
//! Expr { place, kind: ExprKind::Call { function: Callee::Memset, args } }
//! Keyword::of(b"switch") == Some(Keyword::Switch)
//! ```
#![tactic(auto)]

mod expression;
mod item;
mod statement;
mod symbol;

pub use expression::{BinaryOp, Callee, Expr, ExprKind, UnaryOp};
pub use item::{CType, Field, Function, Item, Struct, Target, Unit};
pub use statement::{AssignOp, Stmt, StmtKind, SwitchPart};
pub use symbol::{Bracket, Keyword, MOST_OPEN, Punctuator};
