//! From decimals to a scale.
ghost use Rattle.std.specs.Prelude.{◌≡◌, ◌^◌, ◌≤◌, ◌-ℤ◌, ◌<◌, ◌↔◌, ℤ, unsigned_abs, min, Option, IfOk, OnOk, OnErr, IfSome, IfNone};
ghost use Rattle.limit_fraction.specs.Number.{natural, in_unit, IsSame};
ghost use Rattle.limit_fraction.specs.Decimal.{number_of};
ghost use Rattle.limit_fraction.specs.Unit.{unit_of, cut_off, IsTooWide};
ghost use Rattle.limit_fraction.specs.declared.number.Decimal.{Decimal};
ghost use Rattle.limit_fraction.specs.Scale.{factor_of, offset_of, IsScaled};
ghost use Rattle.limit_fraction.specs.Limits.{MeetsLimits};

use crate::number::Decimal;
use crate::powers::{times_ten_to, with_sign};
use crate::scaling::{ScaleTooWide, UnitScale};

/// The least factor that is too wide.
const FACTOR_LIMIT: u128 = 1 << 60;

/// The least offset that is too wide.
const OFFSET_LIMIT: u128 = 1 << 100;

/// How far the exponent is above the unit, 0 where it is not.
pub(crate) fn tens_above(unit: i16, exponent: i16) -> usize
    requires unit { unsigned_abs unit ≤ 400 }
    requires exponent { unsigned_abs exponent ≤ 400 }
    ensures { result ≡ natural (exponent -ℤ unit) }
{
    if exponent > unit {
        (exponent - unit) as usize
    } else {
        0
    }
}

/// The number in units of `10^unit`, cut off at 2^126 in size.
pub(crate) fn in_unit(number: &Decimal, unit: i16) -> i128
    requires { unsigned_abs unit ≤ 400 }
    ensures { result ≡ cut_off (in_unit unit (number_of number.now)) }
{
    let tens = tens_above(unit, number.exponent);
    let size = times_ten_to(number.mantissa.unsigned_abs(), tens);
    with_sign(number.mantissa < 0, size)
}

/// The lesser exponent, where a zero counts for nothing.
fn unit(factor: &Decimal, offset: &Decimal) -> i16
    ensures value { result ≡ unit_of (number_of factor.now) (number_of offset.now) }
    ensures near { unsigned_abs result ≤ 400 }
{
    if factor.mantissa == 0 {
        offset.exponent
    } else if offset.mantissa == 0 {
        factor.exponent
    } else {
        factor.exponent.min(offset.exponent)
    }
}

/// The number in units of `10^unit`, where it is below the limit in size.
fn narrow(number: &Decimal, unit: i16, limit: u128) -> Option<i128>
    requires unit { unsigned_abs unit ≤ 400 }
    requires limit { limit ≤ 2 ^ 126 }
    ensures wide { IfNone result (limit ≤ unsigned_abs (in_unit unit (number_of number.now))) }
    ensures value { IfSome result (λ z. z ≡ in_unit unit (number_of number.now)) }
    ensures below { IfSome result (λ z. unsigned_abs z < limit) }
{
    let value = in_unit(number, unit);
    if value.unsigned_abs() < limit {
        Some(value)
    } else {
        None
    }
}

/// The scale in the unit of the two, as [`scale`] answers it.
fn scaled(factor: &Decimal, offset: &Decimal) -> Result<UnitScale, ScaleTooWide>
    ensures ok { IfOk result (λ s. IsScaled (number_of factor.now) (number_of offset.now) s) }
    ensures wide { OnErr result (IsTooWide (number_of factor.now) (number_of offset.now)) }
    ensures narrow { OnOk result (IsTooWide (number_of factor.now) (number_of offset.now) → ⊥) }
{
    let exponent = unit(factor, offset);
    let Some(scaled_factor) = narrow(factor, exponent, FACTOR_LIMIT) else {
        return Err(ScaleTooWide);
    };
    let Some(scaled_offset) = narrow(offset, exponent, OFFSET_LIMIT) else {
        return Err(ScaleTooWide);
    };
    Ok(UnitScale {
        factor: scaled_factor,
        offset: scaled_offset,
        exponent,
    })
}

/// The factor and the offset of a signal in its unit, the lesser of their exponents, where a
/// zero counts for nothing.
///
/// # Errors
///
/// In that unit the factor reaches 2^60 or the offset reaches 2^100 in size.
pub fn scale(factor: Decimal, offset: Decimal) -> Result<UnitScale, ScaleTooWide>
    ensures ok { IfOk result (λ s. IsScaled (number_of factor) (number_of offset) s) }
    ensures wide { OnErr result (IsTooWide (number_of factor) (number_of offset)) }
    ensures narrow { OnOk result (IsTooWide (number_of factor) (number_of offset) → ⊥) }

    // In its unit the scale has the two numbers, and so the same raw values meet any limits.
    ensures factor { IfOk result (λ s. IsSame (factor_of s) (number_of factor)) }
    ensures offset { IfOk result (λ s. IsSame (offset_of s) (number_of offset)) }
    ensures limits { IfOk result (λ s. (minimum maximum : Option Decimal) (v : ℤ)
        → MeetsLimits (factor_of s) (offset_of s) minimum maximum v
        ↔ MeetsLimits (number_of factor) (number_of offset) minimum maximum v) }
{
    scaled(&factor, &offset)
}
