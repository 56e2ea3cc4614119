//! The types of integers under a data model, one body for all models (ISO/IEC 9899:1999, 6.2.5 and
//! 6.3.1).
//!
//! ```text
//! Widths::<32, 64, 64>::promote(IntType::UnsignedShort) == IntType::Int
//! Widths::<32, 32, 32>::common(IntType::UnsignedInt, IntType::Long) == IntType::UnsignedLong
//! ```
#![tactic(auto)]

mod widths;

pub use widths::{Widths, is_signed, power};
