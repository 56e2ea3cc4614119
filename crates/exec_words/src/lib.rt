//! The words and reports of `exec`: words of the command line as arguments of a C function, and how
//! its call ended as text.
//!
//! ```text
//! argument_of(alloc, b"bytes:00ff", &params[0].kind, &typed)? == Some(Argument::Object(bytes))
//! report(alloc, outcome, &args, &objects, &typed)?         // return 2, arg 1: 0800
//! ```
#![tactic(auto)]

mod argument;
mod number;
mod object;
mod reporting;
mod structure;

pub use argument::{Argument, argument_of};
pub use reporting::report;
