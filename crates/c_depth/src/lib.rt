//! Two laws of how tokens are cut: those with more than 64 open brackets have no unit, and no
//! others are too deep.
#![tactic(auto)]
