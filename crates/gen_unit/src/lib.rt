//! The C text of a database: a header with the macros, structs and prototypes of its messages, and
//! a source with a pack function for each of them.
//!
//! ```text
//! generate(alloc, b"can", &db, &names)   // #ifndef CAN_H .. #define CAN_PING_FRAME_ID (0x123u) .. #endif
//!                                        // and #include "can.h" .. int can_ping_pack(..) { .. }
//! ```
#![tactic(auto)]

mod header_unit;
mod helpers;
mod parts;
mod printing;
mod source_unit;
mod structs;

pub use printing::{Pair, generate};
