//! The database of the statements of a DBC text.
//!
//! ```text
//! // BO_ 2147483905 Engine: 8 X  SG_ Speed : ..  BA_ "GenMsgCycleTime" BO_ 2147483905 20;
//! database(alloc, &list)  // the extended message 257, Engine, every 20 ms, with the signal Speed
//! ```
#![tactic(auto)]

mod building;
mod facts;
mod reading;
mod signals;
mod subject;
mod tables;

pub use building::database;
