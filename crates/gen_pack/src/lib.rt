//! The pack functions of generated C, as trees (ISO/IEC 9899:1999, 6.5 to 6.9), with what each
//! call of them does under every data model: the frame of the struct's values is written, or a
//! short buffer is refused.
//!
//! ```text
//! pack_tree(alloc, &message, &names)
//!
//! int can_ping_pack(uint8_t *dst_p, const struct can_ping_t *src_p, size_t size)
//! {
//!     uint16_t temperature;
//!     if (size < 2u) {
//!         return (-EINVAL);
//!     }
//!     memset(dst_p, 0, 2u);
//!     temperature = (uint16_t)src_p->temperature;
//!     dst_p[0] |= pack_left_shift_u16(temperature, 0u, 0xffu);
//!     dst_p[1] |= pack_right_shift_u16(temperature, 8u, 0x0fu);
//!     return (2);
//! }
//! ```
#![tactic(auto)]

mod body;
mod function;
mod moves;
mod nodes;
mod puts;

pub use function::{pack_prototype, pack_tree};
pub use moves::pack_kind;
