//! The statements of a DBC text: what stands in it, or the first fault and its line.
//!
//! ```text
//! statements(alloc, b"BO_ 291 Ping: 2 X")  // one Message { id: 291, name: Ping, length: 2 } at line 1
//! statements(alloc, b"BO_ 291 Ping: X")    // Unexpected at line 1
//! ```
#![tactic(auto)]

mod keyword;
mod lexing;
mod mux;
mod number;
mod parts;
mod reading;
mod rows;
mod statement;
mod taking;
mod token;

pub use reading::statements;
pub use statement::{Body, ChoicePair, Owner, Statement, Value};
