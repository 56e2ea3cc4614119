//! Rows over the whole program: `cli_tool::run` over files and a sink in memory, what it writes,
//! read as C by `c_lexer::tokens` and `c_pre::expand`, and a table of C, with its trees by
//! `c_parser::unit` or its first fault beside it.
#![tactic(auto)]

#[cfg(test)]
mod checks;
#[cfg(test)]
mod codec;
#[cfg(test)]
mod databases;
#[cfg(test)]
mod executions;
#[cfg(test)]
mod explained;
#[cfg(test)]
mod pairs;
#[cfg(test)]
mod reading;
#[cfg(test)]
mod rows;
#[cfg(test)]
mod table;
#[cfg(test)]
mod trees;
