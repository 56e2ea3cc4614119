//! The faults of names and types of C units under a data model (ISO/IEC 9899:1999, 6.2.1 and the
//! constraints of 6.5 to 6.9): a unit comes in, and that it has none, or its first one, goes out.
//!
//! ```text
//! let typed = typed::<32, 64, 64>(alloc, &unit)?;
//! typed.prototype(b"can_ping_pack")
//! ```
#![tactic(auto)]

mod agreeing;
mod calling;
mod checking;
mod declaring;
mod expression;
mod fields;
mod known;
mod labels;
mod local;
mod named_type;
mod refusing;
mod statement;
mod statements;
mod typed_unit;

pub use c_widths::Widths;
pub use typed_unit::{TypedUnit, check, typed};
