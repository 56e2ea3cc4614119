//! A unit of C from the tokens that preprocessing leaves (ISO/IEC 9899:1999, 6.7 to 6.9): structs,
//! prototypes and functions with their statements.
//!
//! ```text
//! unit(alloc, &tokens)   // of int f(void) { return 1; }: one Item::Function with one StmtKind::Return
//! unit(alloc, &tokens)   // of int f(void) { return 1 }: Fault { kind: Syntax, place: of return }
//! ```
#![tactic(auto)]

mod case_value;
mod cutting;
mod declarations;
mod forms;
mod items;
mod matching;
mod pending;
mod simple;
mod statements;

pub use cutting::unit;
