//! The objects that a C program works on, and the pointers to them (ISO/IEC 9899:1999, 6.2.4 and
//! 6.3.2.3): numbers are loaded and stored cell by cell, and what is undefined is named.
//!
//! ```text
//! objects.store(Pointer::At(0), 1, 300)?;   // of bytes: 300 modulo 256
//! objects.load(Pointer::At(0), 1) == Ok(44)
//! ```
#![tactic(auto)]

mod cells;
mod objects;
mod undefined;

pub use cells::Cells;
pub use objects::{Object, Objects, Pointer, byte_of};
pub use undefined::Undefined;
