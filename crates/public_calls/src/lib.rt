//! Each public call of the crates below `cli_tool`, once on its happy path and over a table of
//! cases: values that come in, and beside them what the formats' descriptions say of them.
#![tactic(auto)]

#[cfg(test)]
mod bits;
#[cfg(test)]
mod databases;
#[cfg(test)]
mod execution;
#[cfg(test)]
mod expressions;
#[cfg(test)]
mod lexing;
#[cfg(test)]
mod names;
#[cfg(test)]
mod numbers;
#[cfg(test)]
mod outside;
#[cfg(test)]
mod preprocessing;
#[cfg(test)]
mod refusals;
#[cfg(test)]
mod spelling;
#[cfg(test)]
mod types;
