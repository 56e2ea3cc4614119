//! Where the bits of a signal stand, byte by byte: as shifts and masks of bytes need it.
//!
//! ```text
//! // 12 bits, Motorola, from place 0 on
//! let mut walk = segments(&signal);
//! walk.next();  // Some(Segment { byte: 0, signal_low: 11, byte_low: 0, count: 1 })
//! walk.next();  // Some(Segment { byte: 1, signal_low: 3, byte_low: 0, count: 8 })
//! walk.next();  // Some(Segment { byte: 2, signal_low: 0, byte_low: 5, count: 3 })
//! walk.next();  // None
//! ```
#![tactic(auto)]

mod walk;

pub use walk::{Segment, SegmentWalk, segments};
