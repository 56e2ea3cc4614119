//! The raw values that meet the limits of a signal.
ghost use Rattle.std.specs.Prelude.{◌≡◌, ◌^◌, ◌<◌, ◌≤◌, ◌↔◌, ℤ, pos, neg_ℤ, ◌*ℤ◌, ◌≤ℤ◌, ◌<ℤ◌, min, unsigned_abs};
ghost use Rattle.std.specs.Int.{int_div_euclid};
ghost use Rattle.limit_fraction.specs.Number.{units, IsAtMost};
ghost use Rattle.limit_fraction.specs.Decimal.{number_of};
ghost use Rattle.limit_fraction.specs.Scale.{factor_of, offset_of};
ghost use Rattle.limit_fraction.specs.Limits.{MeetsMinimum, MeetsMaximum, MeetsLimits, IsIn, IsWithin};

use crate::number::Decimal;
use crate::powers::{LIMIT, times_ten_to};
use crate::scaling::{UnitScale, in_unit, tens_above};

/// The whole numbers from `low` to `high`, or none.
#[derive(Clone, Copy, Debug, PartialEq, Eq)]
pub enum Range {
    /// No value.
    Empty,
    /// The values from `low` to `high`, both among them.
    Span { low: i128, high: i128 },
}

/// The greatest number whose product with `size` is at most `value`.
fn quotient_down(value: i128, size: i128) -> i128
    requires size { pos 0 <ℤ size }
    requires value { unsigned_abs value < 2 ^ 127 }
    ensures value { result ≡ int_div_euclid value size }
    ensures within { unsigned_abs result ≤ unsigned_abs value }
{
    value.div_euclid(size)
}

/// The least number whose product with `size` is at least `value`.
fn quotient_up(value: i128, size: i128) -> i128
    requires size { pos 0 <ℤ size }
    requires value { unsigned_abs value < 2 ^ 127 }
    ensures { result ≡ neg_ℤ (int_div_euclid (neg_ℤ value) size) }
{
    -quotient_down(-value, size)
}

/// Ten to the power `power`, or to the power 28 where that is less.
fn ten_to(power: usize) -> i128
    ensures value { result ≡ pos (10 ^ min power 28) }
    ensures positive { pos 0 <ℤ result }
{
    times_ten_to(1, power.min(28)) as i128
}

/// The greatest whole number of units that is at most the limit, cut off at 2^126 in size.
fn rounded_down(limit: &Decimal, unit: i16) -> i128
    requires { unsigned_abs unit ≤ 400 }
    ensures exact { (x : ℤ) → unsigned_abs x < 2 ^ 126 → IsAtMost (units unit x) (number_of limit.now) ↔ (x ≤ℤ result) }
    ensures within { unsigned_abs result ≤ 2 ^ 126 }
{
    if unit <= limit.exponent {
        in_unit(limit, unit)
    } else {
        quotient_down(limit.mantissa, ten_to(tens_above(limit.exponent, unit)))
    }
}

/// The least whole number of units that is at least the limit, cut off at 2^126 in size.
fn rounded_up(limit: &Decimal, unit: i16) -> i128
    requires { unsigned_abs unit ≤ 400 }
    ensures exact { (x : ℤ) → unsigned_abs x < 2 ^ 126 → IsAtMost (number_of limit.now) (units unit x) ↔ (result ≤ℤ x) }
    ensures within { unsigned_abs result ≤ 2 ^ 126 }
{
    -rounded_down(&limit.negated(), unit)
}

/// The least whole number of units that meets the minimum, -2^126 where there is none.
fn least(minimum: Option<Decimal>, unit: i16) -> i128
    requires { unsigned_abs unit ≤ 400 }
    ensures exact { (x : ℤ) → unsigned_abs x < 2 ^ 126 → MeetsMinimum minimum (units unit x) ↔ (result ≤ℤ x) }
    ensures within { unsigned_abs result ≤ 2 ^ 126 }
{
    match minimum {
        Some(limit) => rounded_up(&limit, unit),
        None => -(LIMIT as i128),
    }
}

/// The greatest whole number of units that meets the maximum, 2^126 where there is none.
fn greatest(maximum: Option<Decimal>, unit: i16) -> i128
    requires { unsigned_abs unit ≤ 400 }
    ensures exact { (x : ℤ) → unsigned_abs x < 2 ^ 126 → MeetsMaximum maximum (units unit x) ↔ (x ≤ℤ result) }
    ensures within { unsigned_abs result ≤ 2 ^ 126 }
{
    match maximum {
        Some(limit) => rounded_down(&limit, unit),
        None => LIMIT as i128,
    }
}

/// The values from `low` to `high` that are at least `first` and at most `last`.
fn span(first: i128, last: i128, low: i128, high: i128) -> Range
    ensures exact { (v : ℤ) → low ≤ℤ v → v ≤ℤ high → IsIn v result ↔ ((first ≤ℤ v) × (v ≤ℤ last)) }
    ensures within { IsWithin low high result }
{
    let low = low.max(first);
    let high = high.min(last);
    if low <= high {
        Range::Span { low, high }
    } else {
        Range::Empty
    }
}

/// The values from `low` to `high` whose product with a positive factor is from `least` to
/// `greatest`.
fn rising(factor: i128, least: i128, greatest: i128, low: i128, high: i128) -> Range
    requires factor { pos 0 <ℤ factor }
    requires least { unsigned_abs least < 2 ^ 127 }
    requires greatest { unsigned_abs greatest < 2 ^ 127 }
    ensures exact { (v : ℤ) → low ≤ℤ v → v ≤ℤ high
        → IsIn v result ↔ ((least ≤ℤ (v *ℤ factor)) × ((v *ℤ factor) ≤ℤ greatest)) }
    ensures within { IsWithin low high result }
{
    span(
        quotient_up(least, factor),
        quotient_down(greatest, factor),
        low,
        high,
    )
}

/// The values from `low` to `high` whose product with the factor is from `least` to `greatest`.
fn between(factor: i128, least: i128, greatest: i128, low: i128, high: i128) -> Range
    requires factor { unsigned_abs factor < 2 ^ 127 }
    requires least { unsigned_abs least < 2 ^ 127 }
    requires greatest { unsigned_abs greatest < 2 ^ 127 }
    ensures exact { (v : ℤ) → low ≤ℤ v → v ≤ℤ high
        → IsIn v result ↔ ((least ≤ℤ (v *ℤ factor)) × ((v *ℤ factor) ≤ℤ greatest)) }
    ensures within { IsWithin low high result }
{
    if factor > 0 {
        rising(factor, least, greatest, low, high)
    } else if factor < 0 {
        rising(-factor, -greatest, -least, low, high)
    } else if least <= 0 && greatest >= 0 {
        span(low, high, low, high)
    } else {
        Range::Empty
    }
}

/// The raw values from `low` to `high` that meet the minimum and the maximum, where there are
/// some: their least and their greatest, and every value between these meets both too.
///
/// `low` and `high` are from -2^64 to 2^64.
pub fn bounds(
    scale: &UnitScale,
    min: Option<Decimal>,
    max: Option<Decimal>,
    low: i128,
    high: i128,
) -> Range
    requires low { unsigned_abs low ≤ 2 ^ 64 }
    requires high { unsigned_abs high ≤ 2 ^ 64 }
    ensures exact { (v : ℤ) → low ≤ℤ v → v ≤ℤ high
        → IsIn v result ↔ MeetsLimits (factor_of scale.now) (offset_of scale.now) min max v }
    ensures within { IsWithin low high result }
{
    let least = least(min, scale.exponent) - scale.offset;
    let greatest = greatest(max, scale.exponent) - scale.offset;
    between(scale.factor, least, greatest, low, high)
}
