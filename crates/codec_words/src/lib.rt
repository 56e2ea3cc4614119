//! The words and reports of `encode` and `decode`: from the values that words give the signals of a
//! message to the digits of its frame, and from a frame to its values.
//!
//! ```text
//! let message = message_named(messages, b"Motion")?;
//! frame_report(alloc, message, &words)?;   // words are Speed=-2 and Gear=3: the line fe03
//! values_report(alloc, message, &frame)?;  // frame is fe 03: the lines Speed=-2 and Gear=3
//! ```
#![tactic(auto)]

mod decoding;
mod encoding;
mod finding;
mod giving;

pub use decoding::values_report;
pub use encoding::frame_report;
pub use finding::{message_named, message_numbered};
