//! The command line's work: `run` takes the words, files and a sink, and carries the contract of
//! the whole program.
//!
//! ```text
//! run(alloc, &words, &mut files, &mut out)   // Status::Done, and the pair is written
//! ```
#![tactic(auto)]

mod answer;
mod arguments;
mod checking;
mod coding;
mod column;
mod command;
mod database;
mod executing;
mod generating;
mod naming;
mod performing;
mod reading;
mod reporting;
mod running;
mod status;
mod words;
mod writing;

pub use command_words::Word;
pub use running::run;
pub use status::Status;
