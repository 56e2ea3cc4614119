//! From the values of a message's signals to its bytes, and back.
//!
//! ```text
//! encode(&message, &[1, 32, 55], &mut frame);  // frame is c0 06 e0 00 00 00 00 00
//! decode(&message, &frame, &mut values);       // values are Some(1), Some(32), Some(55)
//! ```
#![tactic(auto)]

mod bits;
mod decoding;
mod encoding;

pub use decoding::decode;
pub use encoding::encode;
