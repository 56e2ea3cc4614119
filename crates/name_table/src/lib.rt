//! Values by names, in the order in which the names came.
//!
//! ```text
//! let mut speeds = Table::new(alloc);
//! speeds.put(b"left", 30)?;
//! speeds.put(b"right", 50)?;
//! speeds.replace(b"left", 40);
//! assert_eq!(speeds.get(b"left"), Some(&40));
//! assert_eq!(speeds.position(b"right"), Some(1));
//! ```
#![tactic(auto)]

mod table;

pub use table::Table;
