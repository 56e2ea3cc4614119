//! What expressions, statements and calls of C do (ISO/IEC 9899:1999, 6.5, 6.8 and 6.9), as
//! definitions in `specs/` with their laws in `proofs/`; the code has the types that they speak of.
//!
//! ```text
//! call m unit f args objects = record { gives = Ok (Some five); objects = objects }
//! ```
#![tactic(auto)]

mod state;

pub use c_mem::{Cells, Object, Objects, Pointer, Undefined};
pub use c_operators::{TypedValue, Value};
pub use state::{Arg, Flow, Held, Outcome, Slot, Stop};
