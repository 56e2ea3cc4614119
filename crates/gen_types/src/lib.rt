//! The types of what generators write, as laws in `proofs/`: the helper functions have no fault in
//! any unit that they stand first in.
#![tactic(auto)]
