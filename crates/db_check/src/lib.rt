//! Whether a database is valid, and the first of its faults where it is not.
//!
//! ```text
//! let checked = check(alloc, database)?;  // or the first fault: its kind, line and names
//! generate(checked.database());           // no generator asks again
//! ```
#![tactic(auto)]

mod checking;
mod messages;
mod places;
mod refusal;
mod signals;

pub use checking::{Checked, check};
pub use refusal::CheckFault;
