//! The tokens that a printed unit leaves are cut into the unit again (ISO/IEC 9899:1999, 6.5 to 6.9):
//! laws, in `proofs/`. No call stands here.
#![tactic(auto)]
