//! The unpack functions of generated C, as trees (ISO/IEC 9899:1999, 6.5 to 6.9), with what each
//! call of them does under every data model: the struct's fields get the raw values of a frame, or
//! a short buffer is refused.
//!
//! ```text
//! unpack_tree(alloc, &message, &names)
//!
//! int can_ping_unpack(struct can_ping_t *dst_p, const uint8_t *src_p, size_t size)
//! {
//!     uint16_t temperature;
//!     if (size < 2u) {
//!         return (-EINVAL);
//!     }
//!     temperature = unpack_right_shift_u16(src_p[0], 0u, 0xffu);
//!     temperature |= unpack_left_shift_u16(src_p[1], 8u, 0x0fu);
//!     if ((temperature & 0x0800u) != 0u) {
//!         temperature |= 0xf000u;
//!     }
//!     dst_p->temperature = (int16_t)temperature;
//!     return (0);
//! }
//! ```
#![tactic(auto)]

mod body;
mod function;
mod moves;
mod nodes;
mod reads;
mod sign;

pub use function::{unpack_prototype, unpack_tree};
pub use moves::unpack_kind;
