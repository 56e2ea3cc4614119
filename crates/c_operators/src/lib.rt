//! The operators of C on typed values (ISO/IEC 9899:1999, 6.5), one body for all data models, with
//! what is undefined named.
//!
//! ```text
//! Operators::<32, 64, 64>::applied(BinaryOp::ShiftLeft, one, thirty_one) == Err(Undefined::ShiftOverflow)
//! ```
#![tactic(auto)]

mod binary;
mod pointers;
mod signs;
mod value;

pub use signs::Operators;
pub use value::{TypedValue, Value, is_true, number_of, pointer_of, truth_value};
