//! Calls of functions of C units, executed (ISO/IEC 9899:1999, 5.1.2.3): a call gives its value, or
//! the undefined behaviour that it meets and where, and leaves its objects.
//!
//! ```text
//! let machine = prepare(alloc, &unit, b"can_ping_pack")?;
//! call(alloc, &mut machine, &[Arg::Pointer(Pointer::At(0))], &mut objects)? == Outcome::Returned(Some(8))
//! ```
#![tactic(auto)]

mod calls;
mod choosing;
mod halt;
mod locals;
mod machine;
mod parameters;
mod running;
mod storing;
mod value;
mod world;

pub use c_effect::{Arg, Cells, Object, Objects, Outcome, Pointer, Undefined};
pub use machine::{Machine, PrepareFault, call, prepare};
