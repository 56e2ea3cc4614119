//! The tokens of C99 and what its preprocessing leaves, as types, with the definitions of what
//! they are in `specs/`: bytes come in, tokens and macros are what they mean.
//!
//! ```text
//! Token { kind: TokenKind::Word(name), place: Place { header, line, start, end }, fresh }
//! CKind::Splice.number() == 41 && CKind::Splice.name() == "Splice"
//! ```
#![tactic(auto)]

mod place;
mod preprocessed;
mod refusal;
mod token;

pub use place::Place;
pub use preprocessed::{Macro, Preprocessed};
pub use refusal::{CFault, CKind};
pub use token::{Constant, IntType, Spelled, Token, TokenKind};
