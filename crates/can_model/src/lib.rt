//! The database of messages that the readers make and the generators take, where the bits of a
//! signal stand, and why a text or a database is refused.
//!
//! ```text
//! Database { messages }  // each message with its id, name, length, signals and line
//! place(&signal, 3) == 5  // bit 3 of an Intel signal that begins at place 2
//! TextKind::TooLarge.number() == 5 && TextKind::TooLarge.name() == "TooLarge"
//! CheckKind::Overlap.number() == 17 && CheckKind::Overlap.name() == "Overlap"
//! ```
#![tactic(auto)]

mod activity;
mod bits;
mod check_kind;
mod database;
mod refusal;

pub use activity::{active, active_in};
pub use bits::{field_bits, has_bits, is_field_value, is_raw, place};
pub use check_kind::CheckKind;
pub use database::{Choice, Database, Message, MuxRange, Parent, Signal};
pub use refusal::{TEXT_LIMIT, TextFault, TextKind};
