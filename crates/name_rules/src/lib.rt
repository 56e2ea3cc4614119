//! The names of C that stand for the names in a database.
//!
//! ```text
//! identifier(alloc, b"ABCDef9X")   // abc_def9_x
//! symbols(alloc, &db, &name, false) // the name of each macro, struct, function, field and local
//! ```
#![tactic(auto)]

mod identifying;
mod naming;
mod picking;
mod pruning;
mod reserved;
mod table;

pub use identifying::identifier;
pub use naming::symbols;
pub use table::{MessageNames, SignalNames, SymbolTable};
