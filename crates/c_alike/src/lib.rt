//! What the types of C units hang on, as laws in `proofs/`: whether a unit has a fault of types does
//! not hang on its places, and which forms have none.
#![tactic(auto)]
