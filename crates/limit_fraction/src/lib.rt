//! Exact decimals: numbers as they are spelled, the scale of a signal in whole units, and the raw
//! values that meet its limits.
//!
//! Nothing is rounded where it shows. A [`Decimal`] is the number that its text spells, a
//! [`UnitScale`] has the numbers of its factor and its offset, and [`bounds`] answers exactly the
//! raw values whose number is from the minimum to the maximum.
//!
//! 128 bits suffice for this. In the unit of a signal a raw value, at most 2^64 in size, times a
//! factor below 2^60 in size, and an offset below 2^100 in size, make a whole number below 2^126
//! in size. So a minimum may be rounded up and a maximum down to whole units, and each may be cut
//! off at 2^126, and still decides the same values.
#![tactic(auto)]

mod limits;
mod number;
mod powers;
mod reading;
mod scaling;

pub use limits::{Range, bounds};
pub use number::{Decimal, NumberFault};
pub use scaling::{ScaleTooWide, UnitScale, scale};
