//! Laws of the cut that text printed from trees rests on, in `proofs/`: parts that were read make up
//! larger ones, and a tree without its places is one equation a node. No call stands here.
#![tactic(auto)]
