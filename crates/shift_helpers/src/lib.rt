//! The helper functions of generated C, as trees: they move the bits of a signal into a byte of a
//! frame and out of it (ISO/IEC 9899:1999, 6.5.7), with what they do under every data model.
//!
//! ```text
//! Helper::<16>::tree(alloc, HelperKind::PackLeft)
//!
//! static uint8_t pack_left_shift_u16(uint16_t value, uint8_t shift, uint8_t mask)
//! {
//!     return (uint8_t)((uint8_t)(value << shift) & mask);
//! }
//! ```
#![tactic(auto)]

mod helper;
mod naming;
mod parts;

pub use helper::{Helper, HelperKind};
pub use naming::helper_name;
