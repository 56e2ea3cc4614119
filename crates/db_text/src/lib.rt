//! From the text of a database to the database: read, put together and checked.
//!
//! ```text
//! let checked = read_dbc(alloc, text)?;  // or why the text spells no valid database
//! checked.database().messages.items()    // its messages, each with its signals
//! ```
#![tactic(auto)]

mod fault;
mod reading;

pub use fault::DatabaseFault;
pub use reading::read_dbc;
