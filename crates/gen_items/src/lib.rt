//! Laws of the unit that a header and its source are together: it has no fault of types, and each
//! pack function in it packs its message.
#![tactic(auto)]
