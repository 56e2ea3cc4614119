//! Texts of C, read for tables of rows: the unit of a source beside a header, by `c_lexer::tokens`,
//! `c_pre::expand` and `c_parser::unit`, and its trees in one line, as a person reads them.
#![tactic(auto)]

mod reading;
mod shown;

pub use reading::{read, unit_of};
pub use shown::{Line, write_items, write_stmts};
