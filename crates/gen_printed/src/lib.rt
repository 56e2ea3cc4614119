//! Laws of the text of generated functions: which of them may be printed, and what preprocessing
//! leaves of them.
#![tactic(auto)]
