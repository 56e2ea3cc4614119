//! Bytes, lists and boxes that contracts see as plain values, and the outside of the program
//! (files and one sink) as traits, with objects in memory that stand for it in tests.
//!
//! ```text
//! let mut files = MemoryFiles::new(alloc, &entries, 4096, &[])?;
//! files.write(b"can.h", b"text")?;
//! files.file(b"can.h")   // Some(b"text")
//! ```
#![tactic(auto)]

mod boxed;
mod failing;
mod fault;
mod list;
mod memory_files;
mod memory_sink;
mod outside;
mod shelf;
mod text;

pub use boxed::Boxed;
pub use failing::Failing;
pub use fault::{Failed, Memory, ReadFault};
pub use list::List;
pub use memory_files::{Entry, MemoryFiles};
pub use memory_sink::MemorySink;
pub use outside::{Files, Sink};
pub use text::Text;
