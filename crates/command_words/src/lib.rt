//! Words of the command line, their parts, and the numbers that they spell.
//!
//! ```text
//! cut_at(b'=', b"gain=-2") == Some((b"gain", b"-2"))
//! cut_at_last(b'=', b"a=b=3") == Some((b"a=b", b"3"))
//! behind(b"int:", b"int:7") == Some(b"7")
//! number_in(b"-2") == Some(-2)
//! ```
#![tactic(auto)]

mod cutting;
mod number;
mod word;

pub use cutting::{behind, cut_at, cut_at_last, up_to_last_of};
pub use number::{is_number, number_in, whole_in};
pub use word::Word;
