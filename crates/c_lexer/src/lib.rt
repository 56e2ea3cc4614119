//! The tokens of a C text (ISO/IEC 9899:1999, 6.4), or the first fault among them.
//!
//! ```text
//! tokens(alloc, b"x <<= 0x1Fu;", false)  // the word x, the mark <<=, the constant 31, the mark ;
//! tokens(alloc, b"x = 1 /* 2", false)    // Fault { kind: OpenComment, place: bytes 6 and 7 of line 1 }
//! ```
#![tactic(auto)]

mod character;
mod constant;
mod lexeme;
mod lexing;
mod punctuator;
mod splice;

pub use lexing::{SOURCE_LIMIT, tokens};
