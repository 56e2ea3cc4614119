//! What preprocessing leaves of a header and of a source that may include it: tokens come in, and
//! the tokens behind conditionals, includes and replacement go out, with the macros at the end.
//!
//! ```text
//! // can.h:  #define LENGTH 8
//! // can.c:  #include "can.h"
//! //         int frame[LENGTH];
//! let left = expand(alloc, header, b"can.h", source)?;
//! // left.tokens: int frame [ 8 ] ;    left.macros: LENGTH with the body 8
//! ```
#![tactic(auto)]

mod balancing;
mod comparing;
mod copying;
mod counts;
mod cutting;
mod directive;
mod expanding;
mod expansion;
mod flags;
mod line;
mod macros;
mod parts;
mod replacing;
mod standard;

pub use expanding::expand;
