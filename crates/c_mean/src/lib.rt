//! What C texts mean: so far the unit that a header and a source are, or their first fault up to it, as
//! a definition in `specs/`. The types of tokens and trees are given on, so that whoever needs
//! C's trees and their meaning needs this crate alone.
//!
//! ```text
//! unit_of_texts header name source ≡ Err (record { kind = Syntax; place = .. })
//! ```
#![tactic(auto)]

pub use c_text::{
    CFault, CKind, Constant, IntType, Macro, Place, Preprocessed, Spelled, Token, TokenKind,
};
pub use c_tree::{
    AssignOp, BinaryOp, Bracket, CType, Callee, Expr, ExprKind, Field, Function, Item, Keyword,
    MOST_OPEN, Punctuator, Stmt, StmtKind, Struct, SwitchPart, Target, UnaryOp, Unit,
};
