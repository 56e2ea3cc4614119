//! What the text of a unit of C is (ISO/IEC 9899:1999, 6.4 to 6.10), part by part, and the laws of such
//! texts, in `proofs/`: which tokens they have, and what preprocessing leaves of them. No call stands
//! here.
#![tactic(auto)]
