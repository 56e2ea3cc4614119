//! What preprocessing leaves of a header and a source.
use crate::token::Token;
use cg_out::{List, Text};

/// A macro that a text defines.
#[derive(Debug, Drop)]
pub struct Macro {
    pub name: Text,
    pub body: List<Token>,
}

/// The tokens that are left, and the macros at the end.
#[derive(Debug, Drop)]
pub struct Preprocessed {
    pub tokens: List<Token>,
    /// Each name once, in the order of their first definitions.
    pub macros: List<Macro>,
}
