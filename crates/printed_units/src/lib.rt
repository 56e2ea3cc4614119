//! Rows of units of C that `c_printer` prints, and that are read back: a text, and beside it its trees
//! in one line. The trees of a row are read of its text and printed again, so that the text tells how
//! each tree is printed, and the line which tree that is.
#![tactic(auto)]

#[cfg(test)]
mod pieces;
#[cfg(test)]
mod reading;
#[cfg(test)]
mod texts;
#[cfg(test)]
mod units;
