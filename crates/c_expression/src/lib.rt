//! Expressions of C from tokens (ISO/IEC 9899:1999, 6.5), with what statements and declarations
//! ask of tokens too.
//!
//! ```text
//! cut(alloc, &tokens, room, after)   // the tree of a - b - c has the second - at its root
//! ```
//!
//! An expression is defined by cutting: its tokens are cut at the last operator, outside brackets,
//! of the loosest level there is, and so are the parts. Followed to the letter that looks at the
//! tokens again and again, so [`cut`] and [`arguments`] read from left to right, one operand after
//! the other, climbing the levels of operators. The first fault of the operands is that of the
//! expression. A token is looked at a fixed number of times for each bracket that is open round it,
//! and calls are nested for open brackets and levels of operators alone.
#![tactic(auto)]

mod brackets;
mod cutting;
mod joints;
mod operators;
mod parts;
mod prefixes;
mod symbols;
mod type_names;

pub use brackets::{Stop, closes, closing, depth_after, first_outside, opens};
pub use cutting::{arguments, closed, cut, inside, is_round, syntax};
pub use operators::{assignment, operator, prefix, sign};
pub use parts::{FirstPart, behind, first_part};
pub use prefixes::{PrefixKind, PrefixOp, with_prefixes};
pub use symbols::{LentCallee, callee, keyword, mark, name};
pub use type_names::{front_type, is_type_word, spelled};
