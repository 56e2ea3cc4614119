//! The scale of a signal: its factor and offset as whole numbers of one unit.
ghost use Rattle.limit_fraction.specs.Unit.{IsScale};

use thiserror::Error;

/// In units of `10^exponent` the physical value of a raw value v is `v * factor + offset`.
///
/// The factor is below 2^60 and the offset below 2^100 in size, and the exponent is from -400 to
/// 400, so that `v * factor + offset` stays below 2^126 in size for each v from -2^64 to 2^64.
#[derive(Clone, Copy, Debug, PartialEq, Eq)]
pub struct UnitScale {
    pub factor: i128,
    pub offset: i128,
    pub exponent: i16,
    pub ghost kept: { IsScale factor offset exponent },
}

/// The factor or the offset is too large in the unit of the signal.
#[derive(Clone, Copy, Debug, PartialEq, Eq, Error)]
#[error("the scale is too wide")]
pub struct ScaleTooWide;

mod making;

pub use making::scale;
pub(crate) use making::{in_unit, tens_above};
